//! Readers of selection sets: one loop over the sets that are open.
ghost use Rattle.std.specs.Prelude.{◌≡◌, ◌≤◌, ◌-◌, ◌*◌, take, IfOk, OnOk, OnErr, vec_capacity};
ghost use Rattle.std.specs.Vec.{vec_len};
ghost use Rattle.graphql_memory.specs.Memory.{Refused, Takes, bytes, credit};
ghost use Rattle.graphql_syntax.specs.trees.Parts.{placed};
ghost use Rattle.graphql_trees.specs.trees.RequestViews.{selection_trees, selection_set_tree};
ghost use Rattle.graphql_reading.specs.reading.Ahead.{Stays};
ghost use Rattle.graphql_reading.specs.reading.Funds.{Pays};
ghost use Rattle.graphql_reading.specs.reading.Worth.{per_token};
ghost use Rattle.graphql_requests.specs.reading.SelectionFunds.{selection_row};
ghost use Rattle.graphql_reading.specs.reading.Given.{Gives};
ghost use Rattle.graphql_requests.specs.reading.OpenSets.{part};
ghost use Rattle.graphql_requests.specs.reading.Request.{own_set_at};
ghost use Rattle.graphql_requests.specs.reading.SelectionSteps.{fill_last, closed};

mod heads;

use graphql_reading::limits::Limits;
use graphql_reading::parser::{Parser, Reading};
use graphql_syntax::pos::{Pos, Positioned};
use graphql_trees::{Selection, SelectionSet};
pub use heads::{is_at_fragment_name, is_at_inline, is_at_selection, read_type_condition};
use smallvec::SmallVec;
use std::alloc::AllocError;
use std::mem;

/// A set, as far as it is read. One list has the selections of all open sets.
#[derive(Default, Drop)]
struct OpenSet {
    /// Where its `{` stands.
    place: Pos,
    /// How many selections of the sets around it lie before its own.
    first: usize,
}

impl OpenSet {
    /// Cuts the set off the list. Its selections get a block that is as large as they need: where they are the whole
    /// list they keep its block, and give back the rest of it.
    fn close(
        &self,
        parser: &mut Parser,
        items: &mut Vec<Positioned<Selection>>,
    ) -> Result<Positioned<SelectionSet>, AllocError>
        requires { self.now.first ≤ vec_len items.old }
        ensures set { IfOk result (λ set. placed selection_set_tree set ≡
            closed (part self.now (selection_trees items.old.items))) }
        ensures rest { IfOk result (λ _. selection_trees items.new.items ≡
            take self.now.first (selection_trees items.old.items)) }
        ensures takes { Takes (bytes selection_row * (vec_len items.old - self.now.first)) parser.old.memory parser.new.memory }
        ensures len { OnOk result (vec_len items.new ≡ self.now.first) }
        ensures fewer { OnOk result (vec_len items.new ≤ vec_len items.old) }
        ensures credit { OnOk result (credit selection_row items.new ≤ credit selection_row items.old) }
        ensures refused { OnErr result (Refused parser.new.memory) }
        ensures stays { Stays parser.old parser.new }
    {
        if self.first > 0 {
            let items = parser.split_off(items, self.first)?;
            return Ok(Positioned::new(SelectionSet { items }, self.place));
        }
        let mut items = mem::replace(items, parser.empty_list());
        items.shrink_to_fit();
        Ok(Positioned::new(SelectionSet { items }, self.place))
    }
}

/// Gives the last selection its set.
fn fill_last(items: &mut Vec<Positioned<Selection>>, set: Positioned<SelectionSet>)
    ensures trees { selection_trees items.new.items ≡
        fill_last (selection_trees items.old.items) (placed selection_set_tree set) }
    ensures len { vec_len items.new ≡ vec_len items.old }
    ensures capacity { vec_capacity items.new ≡ vec_capacity items.old }
{
    if let Some(last) = items.last_mut() {
        match &mut last.node {
            Selection::Field(field) => field.node.selection_set = set,
            Selection::InlineFragment(fragment) => fragment.node.selection_set = set,
            Selection::FragmentSpread(_) => {}
        }
    }
}

/// The selection set of a definition, whose own nesting isn't counted.
///
/// `SelectionSet : '{' Selection+ '}'` (GraphQL October 2021, section 2.4)
pub fn read_selection_set(parser: &mut Parser, limits: Limits) -> Reading<Positioned<SelectionSet>>
    ensures gives { Gives (placed selection_set_tree) result parser.old parser.new (own_set_at limits) }
    ensures pays { Pays per_token result parser.old parser.new }
{
    let brace = parser.expect_punct("{")?;
    // The selections of all sets that are open, the innermost set's last.
    let mut items = parser.empty_list();
    // The sets around the one that is read, the outermost first: the last selection of each waits for its set. Up to
    // eight take no block.
    let mut outer: SmallVec<OpenSet, 8> = parser.empty_small_list();
    let mut own = OpenSet {
        place: brace.pos,
        first: 0,
    };
    loop {
        let nests = outer.len() < limits.selections();
        if let Some(place) = heads::read_head(parser, limits, nests, &mut items)? {
            // Its set is read before what stands after it.
            parser.push_small(&mut outer, own)?;
            own = OpenSet {
                place,
                first: items.len(),
            };
            continue;
        }
        // Each set that ends here is given to the selection that waits for it.
        while parser.is_at_punct("}") {
            parser.advance();
            let set = own.close(parser, &mut items)?;
            match outer.pop() {
                None => return Ok(set),
                Some(around) => {
                    fill_last(&mut items, set);
                    own = around;
                }
            }
        }
    }
}

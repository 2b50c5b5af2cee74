//! Readers of selection sets that make no tree: one loop that counts the sets that are open.
ghost use Rattle.std.specs.Prelude.{◌≡◌, ◌||◌};
ghost use Rattle.graphql_reading.specs.reading.Funds.{Pays};
ghost use Rattle.graphql_reading.specs.reading.Worth.{per_token};
ghost use Rattle.graphql_parser.specs.Checked.{Checks, Calm};
ghost use Rattle.graphql_requests.specs.reading.Request.{own_set_at};
ghost use Rattle.graphql_requests.specs.reading.Selections.{selection_first};

mod heads;

use graphql_reading::limits::Limits;
use graphql_reading::parser::{Parser, Reading};
use graphql_requests::selections::is_at_selection;
pub use heads::{check_head, check_type_condition};

/// Whether a selection is next: one has to follow, or one begins here.
#[inline(always)]
fn is_at_head(parser: &Parser, is_wanted: bool) -> bool
    ensures { result ≡ (is_wanted || selection_first parser.now.hand.bare) }
{
    is_wanted || is_at_selection(parser)
}

/// The selection set of a definition, whose own nesting isn't counted.
///
/// `SelectionSet : '{' Selection+ '}'` (GraphQL October 2021, section 2.4)
pub fn check_selection_set(parser: &mut Parser, limits: Limits) -> Reading<()>
    ensures checks { Checks result parser.old parser.new (own_set_at limits) }
    ensures calm { Calm parser.old parser.new }
    ensures pays { Pays per_token result parser.old parser.new }
{
    parser.expect_punct("{")?;
    // How many sets are open around the innermost one, and whether a selection has to follow in that.
    let mut outer = 0;
    let mut is_wanted = true;
    loop {
        if is_at_head(parser, is_wanted) {
            is_wanted = check_head(parser, limits, outer < limits.selections())?;
            if is_wanted {
                outer += 1;
            }
        } else {
            parser.expect_punct("}")?;
            if outer == 0 {
                return Ok(());
            }
            outer -= 1;
        }
    }
}

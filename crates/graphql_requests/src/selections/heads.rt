//! Readers of selections up to their sets.
ghost use Rattle.std.specs.Prelude.{◌≡◌, ◌-◌, Some, option_map};
ghost use Rattle.graphql_syntax.specs.trees.Parts.{placed};
ghost use Rattle.graphql_trees.specs.trees.RequestViews.{selection_trees, type_condition_tree};
ghost use Rattle.graphql_requests.specs.grammar.Selections.{fragment_name};
ghost use Rattle.graphql_requests.specs.reading.SelectionSteps.{names_at, onto, field_head_at, spread_at, inline_head_at, maybe_condition_at, head_at};
ghost use Rattle.graphql_reading.specs.reading.Funds.{Pays};
ghost use Rattle.graphql_reading.specs.reading.Worth.{per_token};
ghost use Rattle.graphql_requests.specs.reading.SelectionFunds.{PaysOnto, PaysInline};
ghost use Rattle.graphql_reading.specs.reading.Given.{Gives};
ghost use Rattle.graphql_requests.specs.reading.Selections.{type_condition_at, inline_first, selection_first};

use graphql_grammar::arguments::{read_arguments, read_directives};
use graphql_reading::limits::Limits;
use graphql_reading::names::read_name;
use graphql_reading::parser::{Parser, Reading, Refusal};
use graphql_syntax::pos::{Pos, Positioned};
use graphql_syntax::value::Name;
use graphql_trees::{
    Field, FragmentSpread, InlineFragment, Selection, SelectionSet, TypeCondition,
};

// A field without a set has an empty one, which stands nowhere.
const NOWHERE: Pos = Pos { line: 0, column: 0 };

type Names = (Option<Positioned<Name>>, Positioned<Name>);

type Selections = Vec<Positioned<Selection>>;

/// Whether the lookahead is the name of a fragment: any name but `on`.
#[inline(always)]
pub fn is_at_fragment_name(parser: &Parser) -> bool
    ensures { result ≡ fragment_name parser.now.hand.bare }
{
    parser.is_at_name() && !parser.is_at_keyword("on")
}

/// Whether an inline fragment may go on with the lookahead, after its `...`: `on`, `@` or `{`.
#[inline(always)]
pub fn is_at_inline(parser: &Parser) -> bool
    ensures { result ≡ inline_first parser.now.hand.bare }
{
    parser.is_at_keyword("on") || parser.is_at_punct("@") || parser.is_at_punct("{")
}

/// Whether the lookahead is a selection: a name or `...`.
#[inline(always)]
pub fn is_at_selection(parser: &Parser) -> bool
    ensures { result ≡ selection_first parser.now.hand.bare }
{
    parser.is_at_name() || parser.is_at_punct("...")
}

/// An alias, if there is one, and a name.
///
/// `Alias? Name`, where `Alias : Name ':'`
#[inline(always)]
fn read_names(parser: &mut Parser) -> Reading<Names>
    ensures gives { Gives (λ names. names) result parser.old parser.new names_at }
    ensures pays { Pays (per_token - 24) result parser.old parser.new }
{
    let first = read_name(parser)?;
    if !parser.is_at_punct(":") {
        return Ok((None, first));
    }
    parser.take();
    let name = read_name(parser)?;
    Ok((Some(first), name))
}

/// A field up to its set.
///
/// `Field : Alias? Name Arguments? Directives? SelectionSet?` (GraphQL October 2021, section 2.5)
fn read_field(
    parser: &mut Parser,
    limits: Limits,
    nests: bool,
    items: &mut Selections,
) -> Reading<Option<Pos>>
    ensures gives { Gives (λ place. (selection_trees items.new.items, place)) result parser.old parser.new
        (onto (selection_trees items.old.items) (field_head_at limits.values nests)) }
    ensures pays { PaysOnto items.old items.new result parser.old parser.new }
{
    let pos = parser.hand().pos;
    let (alias, name) = read_names(parser)?;
    let no_set = SelectionSet {
        items: parser.empty_list(),
    };
    let field = Field {
        alias,
        name,
        arguments: read_arguments(parser, limits)?,
        directives: read_directives(parser, limits)?,
        selection_set: Positioned::new(no_set, NOWHERE),
    };
    let place = if parser.is_at_punct("{") {
        if !nests {
            return Err(Refusal::Limit);
        }
        Some(parser.take().pos)
    } else {
        None
    };
    let node = Selection::Field(Positioned::new(field, pos));
    parser.push(items, Positioned::new(node, pos))?;
    Ok(place)
}

/// A spread, after its `...`, if the lookahead is the name of a fragment. It has no set.
///
/// `FragmentSpread : '...' FragmentName Directives?` (GraphQL October 2021, section 2.8)
fn read_spread(
    parser: &mut Parser,
    limits: Limits,
    dots: Pos,
    items: &mut Selections,
) -> Reading<Option<Pos>>
    ensures gives { Gives (λ place. (selection_trees items.new.items, place)) result parser.old parser.new
        (onto (selection_trees items.old.items) (spread_at limits.values dots)) }
    ensures pays { PaysOnto items.old items.new result parser.old parser.new }
{
    let fragment_name = read_name(parser)?;
    let directives = read_directives(parser, limits)?;
    let spread = FragmentSpread {
        fragment_name,
        directives,
    };
    let node = Selection::FragmentSpread(Positioned::new(spread, dots));
    parser.push(items, Positioned::new(node, dots))?;
    Ok(None)
}

/// `on` and the name of a type.
///
/// `TypeCondition : 'on' Name` (GraphQL October 2021, section 2.8)
pub fn read_type_condition(parser: &mut Parser) -> Reading<Positioned<TypeCondition>>
    ensures gives { Gives (placed type_condition_tree) result parser.old parser.new type_condition_at }
    ensures pays { Pays per_token result parser.old parser.new }
{
    let word = parser.expect_keyword("on")?;
    let on = read_name(parser)?;
    Ok(Positioned::new(TypeCondition { on }, word.pos))
}

/// `TypeCondition?`
fn read_maybe_condition(parser: &mut Parser) -> Reading<Option<Positioned<TypeCondition>>>
    ensures gives { Gives (option_map (placed type_condition_tree)) result parser.old parser.new
        maybe_condition_at }
    ensures pays { Pays 0 result parser.old parser.new }
{
    if !parser.is_at_keyword("on") {
        return Ok(None);
    }
    let condition = read_type_condition(parser)?;
    Ok(Some(condition))
}

/// An inline fragment up to its set, after its `...`.
///
/// `InlineFragment : '...' TypeCondition? Directives? SelectionSet` (GraphQL October 2021, section 2.8)
fn read_inline(
    parser: &mut Parser,
    limits: Limits,
    dots: Pos,
    items: &mut Selections,
) -> Reading<Pos>
    ensures gives { Gives (λ place. (selection_trees items.new.items, Some place)) result parser.old
        parser.new (onto (selection_trees items.old.items) (inline_head_at limits.values dots)) }
    ensures pays { PaysInline items.old items.new result parser.old parser.new }
{
    let no_set = SelectionSet {
        items: parser.empty_list(),
    };
    let inline = InlineFragment {
        type_condition: read_maybe_condition(parser)?,
        directives: read_directives(parser, limits)?,
        selection_set: Positioned::new(no_set, NOWHERE),
    };
    let brace = parser.expect_punct("{")?;
    let node = Selection::InlineFragment(Positioned::new(inline, dots));
    parser.push(items, Positioned::new(node, dots))?;
    Ok(brace.pos)
}

/// Puts a selection after the others, without its set. If that follows, it gives the place of its `{`,
/// which is read.
///
/// `Selection : Field | FragmentSpread | InlineFragment` (GraphQL October 2021, section 2.4)
pub(super) fn read_head(
    parser: &mut Parser,
    limits: Limits,
    nests: bool,
    items: &mut Selections,
) -> Reading<Option<Pos>>
    ensures gives { Gives (λ place. (selection_trees items.new.items, place)) result parser.old parser.new
        (onto (selection_trees items.old.items) (head_at limits.values nests)) }
    ensures pays { PaysOnto items.old items.new result parser.old parser.new }
{
    if !parser.is_at_punct("...") {
        return read_field(parser, limits, nests, items);
    }
    let dots = parser.take().pos;
    if is_at_fragment_name(parser) {
        return read_spread(parser, limits, dots, items);
    }
    if !nests {
        return Err(if is_at_inline(parser) {
            Refusal::Limit
        } else {
            Refusal::Syntax
        });
    }
    let place = read_inline(parser, limits, dots, items)?;
    Ok(Some(place))
}

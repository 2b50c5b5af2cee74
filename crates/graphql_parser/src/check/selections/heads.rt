//! Readers of selections up to their sets, that make no tree.
ghost use Rattle.std.specs.Prelude.{is_some};
ghost use Rattle.graphql_parser.specs.Checked.{Checks, Calm};
ghost use Rattle.graphql_parser.specs.Heads.{entered_at};
ghost use Rattle.graphql_reading.specs.grammar.Places.{nowhere};
ghost use Rattle.graphql_reading.specs.reading.Given.{Gives};
ghost use Rattle.graphql_reading.specs.reading.Outcome.{mapped_at};
ghost use Rattle.graphql_requests.specs.reading.SelectionSteps.{names_at, maybe_brace_at, maybe_condition_at, field_head_at, inline_head_at, after_dots_at, head_at};
ghost use Rattle.graphql_requests.specs.reading.Selections.{type_condition_at};

use crate::check::arguments::{check_directives, check_maybe_arguments};
use graphql_reading::limits::Limits;
use graphql_reading::parser::{Parser, Reading, Refusal};
use graphql_requests::selections::{is_at_fragment_name, is_at_inline};

/// An alias, if there is one, and a name.
///
/// `Alias? Name`, where `Alias : Name ':'`
#[inline(always)]
fn check_names(parser: &mut Parser) -> Reading<()>
    ensures checks { Checks result parser.old parser.new names_at }
    ensures calm { Calm parser.old parser.new }
{
    parser.expect_name()?;
    if !parser.is_at_punct(":") {
        return Ok(());
    }
    parser.advance();
    parser.expect_name()?;
    Ok(())
}

/// The `{` of a set, if one follows.
#[inline(always)]
fn take_brace(parser: &mut Parser, nests: bool) -> Reading<bool>
    ensures gives { Gives (λ follows. follows) result parser.old parser.new
        (mapped_at is_some (maybe_brace_at nests)) }
    ensures calm { Calm parser.old parser.new }
{
    if !parser.is_at_punct("{") {
        return Ok(false);
    }
    if !nests {
        return Err(Refusal::Limit);
    }
    parser.advance();
    Ok(true)
}

/// A field up to its set.
///
/// `Field : Alias? Name Arguments? Directives? SelectionSet?` (GraphQL October 2021, section 2.5)
#[inline(always)]
fn check_field(parser: &mut Parser, limits: Limits, nests: bool) -> Reading<bool>
    ensures gives { Gives (λ follows. follows) result parser.old parser.new
        (entered_at (field_head_at limits.values nests)) }
    ensures calm { Calm parser.old parser.new }
{
    check_names(parser)?;
    check_maybe_arguments(parser, limits)?;
    check_directives(parser, limits)?;
    take_brace(parser, nests)
}

/// `on` and the name of a type.
///
/// `TypeCondition : 'on' Name` (GraphQL October 2021, section 2.8)
pub fn check_type_condition(parser: &mut Parser) -> Reading<()>
    ensures checks { Checks result parser.old parser.new type_condition_at }
    ensures calm { Calm parser.old parser.new }
{
    parser.expect_keyword("on")?;
    parser.expect_name()?;
    Ok(())
}

/// `TypeCondition?`
fn check_maybe_condition(parser: &mut Parser) -> Reading<()>
    ensures checks { Checks result parser.old parser.new maybe_condition_at }
    ensures calm { Calm parser.old parser.new }
{
    if !parser.is_at_keyword("on") {
        return Ok(());
    }
    check_type_condition(parser)
}

/// An inline fragment up to its set, after its `...`.
///
/// `InlineFragment : '...' TypeCondition? Directives? SelectionSet` (GraphQL October 2021, section 2.8)
fn check_inline(parser: &mut Parser, limits: Limits) -> Reading<()>
    ensures checks { Checks result parser.old parser.new (inline_head_at limits.values nowhere) }
    ensures calm { Calm parser.old parser.new }
{
    check_maybe_condition(parser)?;
    check_directives(parser, limits)?;
    parser.expect_punct("{")?;
    Ok(())
}

/// The rest of a spread or of an inline fragment after its `...`, up to its set: whether that follows.
///
/// `FragmentName Directives? | TypeCondition? Directives? SelectionSet`
#[inline(always)]
fn check_after_dots(parser: &mut Parser, limits: Limits, nests: bool) -> Reading<bool>
    ensures gives { Gives (λ follows. follows) result parser.old parser.new
        (entered_at (after_dots_at limits.values nests nowhere)) }
    ensures calm { Calm parser.old parser.new }
{
    if is_at_fragment_name(parser) {
        parser.advance();
        check_directives(parser, limits)?;
        return Ok(false);
    }
    if !nests {
        return Err(if is_at_inline(parser) {
            Refusal::Limit
        } else {
            Refusal::Syntax
        });
    }
    check_inline(parser, limits)?;
    Ok(true)
}

/// Reads a selection up to its set, and returns whether that follows. Its `{` is then read.
///
/// `Selection : Field | FragmentSpread | InlineFragment` (GraphQL October 2021, section 2.4)
// In line, with what it calls: two loops call it, and the one of checks runs for each selection of a text.
#[inline(always)]
pub fn check_head(parser: &mut Parser, limits: Limits, nests: bool) -> Reading<bool>
    ensures gives { Gives (λ follows. follows) result parser.old parser.new
        (entered_at (head_at limits.values nests)) }
    ensures calm { Calm parser.old parser.new }
{
    if parser.is_at_punct("...") {
        parser.advance();
        check_after_dots(parser, limits, nests)
    } else {
        check_field(parser, limits, nests)
    }
}

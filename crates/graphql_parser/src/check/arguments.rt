//! Readers of arguments, directives and default values that make no tree, by GraphQL October 2021, sections 2.6,
//! 2.10 and 2.12.
ghost use Rattle.std.specs.Prelude.{true, false};
ghost use Rattle.graphql_parser.specs.Checked.{Checks, Calm};
ghost use Rattle.graphql_tokens.specs.declared.pos.Positioned.{Positioned as Place};
ghost use Rattle.graphql_syntax.specs.trees.Parts as trees;
ghost use Rattle.graphql_grammar.specs.reading.Arguments.{argument_at, arguments_at, maybe_arguments_at, directive_at, directives_at, maybe_default_at};
ghost use Rattle.graphql_reading.specs.grammar.Tests.{any_name, punct};

use crate::check::production::{Phrase, check_any_number, check_one_or_more};
use crate::check::value::check_value;
use graphql_reading::limits::Limits;
use graphql_reading::parser::{Parser, Reading};

/// `Argument : Name ':' Value`, in whose value variables may stand or not.
struct ArgumentPhrase<const VARIABLES: bool>;

impl<const VARIABLES: bool> Phrase for ArgumentPhrase<VARIABLES> {
    ghost Tree = { trees.Argument };

    ghost first = { any_name };

    ghost reader = { λ limits. argument_at VARIABLES limits.values };

    #[inline(always)]
    fn is_next(parser: &Parser) -> bool {
        parser.is_at_name()
    }

    #[inline(always)]
    fn check(parser: &mut Parser, limits: Limits) -> Reading<()> {
        parser.expect_name()?;
        parser.expect_punct(":")?;
        check_value(parser, VARIABLES, limits)
    }
}

/// Reads arguments with their brackets.
///
/// `Arguments : '(' Argument+ ')'` (GraphQL October 2021, section 2.6)
#[inline(never)]
fn check_arguments<const VARIABLES: bool>(parser: &mut Parser, limits: Limits) -> Reading<()>
    ensures checks { Checks result parser.old parser.new (arguments_at VARIABLES limits.values) }
    ensures calm { Calm parser.old parser.new }
{
    parser.expect_punct("(")?;
    check_one_or_more::<ArgumentPhrase<VARIABLES>>(parser, limits)?;
    parser.expect_punct(")")?;
    Ok(())
}

/// `Arguments?`
#[tactic(auto, unfolding(graphql_reading::specs::reading::Outcome::opt_at))]
#[inline(always)]
fn check_maybe_arguments_of<const VARIABLES: bool>(
    parser: &mut Parser,
    limits: Limits,
) -> Reading<()>
    ensures checks { Checks result parser.old parser.new (maybe_arguments_at VARIABLES limits.values) }
    ensures calm { Calm parser.old parser.new }
{
    if !parser.is_at_punct("(") {
        return Ok(());
    }
    check_arguments::<VARIABLES>(parser, limits)
}

/// Reads arguments with their brackets, if the lookahead is a `(`; else there are none. Values may have variables.
///
/// `Arguments?`
#[inline(always)]
pub fn check_maybe_arguments(parser: &mut Parser, limits: Limits) -> Reading<()>
    ensures checks { Checks result parser.old parser.new (maybe_arguments_at true limits.values) }
    ensures calm { Calm parser.old parser.new }
{
    check_maybe_arguments_of::<true>(parser, limits)
}

/// `Directive : '@' Name Arguments?`, in whose values variables may stand or not.
struct DirectivePhrase<const VARIABLES: bool>;

impl<const VARIABLES: bool> Phrase for DirectivePhrase<VARIABLES> {
    ghost Tree = { Place trees.Directive };

    ghost first = { punct "@" };

    ghost reader = { λ limits. directive_at VARIABLES limits.values };

    #[inline(always)]
    fn is_next(parser: &Parser) -> bool {
        parser.is_at_punct("@")
    }

    #[inline(never)]
    fn check(parser: &mut Parser, limits: Limits) -> Reading<()> {
        parser.expect_punct("@")?;
        parser.expect_name()?;
        check_maybe_arguments_of::<VARIABLES>(parser, limits)
    }
}

/// Reads directives, as long as the lookahead is an `@`.
///
/// `Directives? : Directive*` (GraphQL October 2021, section 2.12)
#[inline(always)]
pub fn check_directives(parser: &mut Parser, limits: Limits) -> Reading<()>
    ensures checks { Checks result parser.old parser.new (directives_at true limits.values) }
    ensures calm { Calm parser.old parser.new }
{
    check_any_number::<DirectivePhrase<true>>(parser, limits)
}

/// As [`check_directives`], without variables.
pub fn check_const_directives(parser: &mut Parser, limits: Limits) -> Reading<()>
    ensures checks { Checks result parser.old parser.new (directives_at false limits.values) }
    ensures calm { Calm parser.old parser.new }
{
    check_any_number::<DirectivePhrase<false>>(parser, limits)
}

/// Reads a default value after its `=`, if the lookahead is a `=`.
///
/// `DefaultValue? : ('=' Value[Const])?` (GraphQL October 2021, section 2.10)
#[tactic(auto, unfolding(graphql_reading::specs::reading::Outcome::opt_at))]
pub fn check_maybe_default(parser: &mut Parser, limits: Limits) -> Reading<()>
    ensures checks { Checks result parser.old parser.new (maybe_default_at limits.values) }
    ensures calm { Calm parser.old parser.new }
{
    if !parser.take_punct("=") {
        return Ok(());
    }
    check_value(parser, false, limits)
}

//! Readers of what the grammar repeats, makes optional or puts in brackets, that make no tree.
//!
//! The caller of a reader that repeats owes that each phrase takes a token at least: the loop ends by that.
ghost use Rattle.std.specs.Prelude.{◌≡◌};
ghost use Rattle.graphql_parser.specs.Checked.{Checks, Calm};
ghost use Rattle.graphql_reading.specs.grammar.Limits.{Limits as Budgets};
ghost use Rattle.graphql_reading.specs.grammar.Tests.{Test};
ghost use Rattle.graphql_reading.specs.reading.Outcome.{Reader, Takes, many_at, plus_at, opt_at, between_at};
ghost use Rattle.graphql_reading.specs.reading.Spelled.{punct_of};

use graphql_reading::limits::Limits;
use graphql_reading::parser::{Parser, Reading};

/// A production of the grammar: the tokens that its phrases begin with, and how one of them is read.
/// The type that implements it only names the production; there needn't be a value of it.
pub trait Phrase {
    // What a phrase is read as.
    ghost Tree: { Type 0 };

    // What a phrase begins with.
    ghost first: { Test };

    // How a phrase is read from a list of tokens, within limits.
    ghost reader: { Budgets → Reader Self.Tree };

    /// Whether the lookahead begins a phrase.
    fn is_next(parser: &Parser) -> bool
        ensures { result ≡ Self.first parser.now.hand.bare };

    /// Reads a phrase.
    fn check(parser: &mut Parser, limits: Limits) -> Reading<()>
        ensures checks { Checks result parser.old parser.new (Self.reader limits) }
        ensures calm { Calm parser.old parser.new };
}

/// Reads one phrase or more: another as long as the lookahead begins one.
#[inline(always)]
pub fn check_one_or_more<P: Phrase>(parser: &mut Parser, limits: Limits) -> Reading<()>
    requires { Takes (P.reader limits) }
    ensures checks { Checks result parser.old parser.new (plus_at P.first (P.reader limits)) }
    ensures calm { Calm parser.old parser.new }
{
    loop {
        P::check(parser, limits)?;
        if !P::is_next(parser) {
            return Ok(());
        }
    }
}

/// Reads any number of phrases: another as long as the lookahead begins one.
#[inline(always)]
pub fn check_any_number<P: Phrase>(parser: &mut Parser, limits: Limits) -> Reading<()>
    requires { Takes (P.reader limits) }
    ensures checks { Checks result parser.old parser.new (many_at P.first (P.reader limits)) }
    ensures calm { Calm parser.old parser.new }
{
    if !P::is_next(parser) {
        return Ok(());
    }
    check_one_or_more::<P>(parser, limits)
}

/// Reads one phrase or more with their brackets, if the lookahead is the first bracket; else none.
#[tactic(auto, unfolding(graphql_reading::specs::reading::Outcome::opt_at))]
#[inline(always)]
pub fn check_maybe_bracketed<P: Phrase>(
    parser: &mut Parser,
    opening: &str,
    closing: &str,
    limits: Limits,
) -> Reading<()>
    requires { Takes (P.reader limits) }
    ensures checks { Checks result parser.old parser.new
        (opt_at (punct_of opening.now) (between_at (punct_of opening.now)
        (plus_at P.first (P.reader limits)) (punct_of closing.now))) }
    ensures calm { Calm parser.old parser.new }
{
    if !parser.take_punct(opening) {
        return Ok(());
    }
    check_one_or_more::<P>(parser, limits)?;
    parser.expect_punct(closing)?;
    Ok(())
}

//! Readers of what the grammar repeats, makes optional or puts in brackets, the same for every production.
//!
//! The caller of a reader that repeats owes that each phrase takes a token at least: the loop ends by that.
ghost use Rattle.std.specs.Prelude.{◌≡◌, ◌≤◌, ◌-◌, ℕ};
ghost use Rattle.graphql_memory.specs.Memory.{price};
ghost use Rattle.graphql_reading.specs.grammar.Limits.{Limits as Budgets};
ghost use Rattle.graphql_reading.specs.grammar.Relations.{given};
ghost use Rattle.graphql_reading.specs.grammar.Tests.{Test};
ghost use Rattle.graphql_reading.specs.reading.Funds.{Pays, PaysEach};
ghost use Rattle.graphql_reading.specs.reading.Given.{Gives, trees_in};
ghost use Rattle.graphql_reading.specs.reading.Outcome.{Reader, Takes, mapped_at, many_at, plus_at, opt_at, between_at, separated_at};
ghost use Rattle.graphql_reading.specs.reading.Spelled.{punct_of};

use crate::limits::Limits;
use crate::parser::{Parser, Reading};

/// A production of the grammar: the tokens that its phrases begin with, and how one of them is read.
/// The type that implements it only names the production; there needn't be a value of it.
pub trait Production {
    /// What is made of a phrase.
    type Node: Drop;

    // The tree that a node stands for.
    ghost Tree: { Type 0 };

    ghost tree: { Self.Node → Self.Tree };

    // What a phrase begins with.
    ghost first: { Test };

    // How many bytes a phrase's tokens pay for beyond what it takes, at least.
    ghost spare: { ℕ };

    // How a phrase is read from a list of tokens, within limits.
    ghost reader: { Budgets → Reader Self.Tree };

    /// How many phrases a list of them begins with room for: as many as mostly stand in one, or one where that
    /// isn't said. A longer list grows. More than four count as four.
    const ROOM: usize = 1;

    /// Whether the lookahead begins a phrase.
    fn is_next(parser: &Parser) -> bool
        ensures { result ≡ Self.first parser.now.hand.bare };

    /// Reads a phrase.
    fn read(parser: &mut Parser, limits: Limits) -> Reading<Self::Node>
        ensures gives { Gives Self.tree result parser.old parser.new (Self.reader limits) }
        ensures pays { Pays Self.spare result parser.old parser.new };
}

/// Reads one phrase or more: another as long as the lookahead begins one.
#[inline(always)]
pub fn one_or_more<P: Production>(parser: &mut Parser, limits: Limits) -> Reading<Vec<P::Node>>
    requires takes { Takes (P.reader limits) }
    requires fits { price P.Node.row ≤ P.spare }
    ensures gives { Gives (trees_in P.tree) result parser.old parser.new
        (plus_at P.first (P.reader limits)) }
    ensures pays { PaysEach (P.spare - price P.Node.row) result parser.old parser.new }
{
    let mut nodes = parser.empty_list();
    loop {
        let node = P::read(parser, limits)?;
        parser.push_with_room(&mut nodes, node, P::ROOM.clamp(1, 4))?;
        if !P::is_next(parser) {
            return Ok(nodes);
        }
    }
}

/// Reads one phrase or more with a mark between each two of them; the mark may stand before the first too.
///
/// `Mark? Phrase (Mark Phrase)*`
#[inline(always)]
pub fn separated<P: Production>(
    parser: &mut Parser,
    mark: &str,
    limits: Limits,
) -> Reading<Vec<P::Node>>
    requires takes { Takes (P.reader limits) }
    requires fits { price P.Node.row ≤ P.spare }
    ensures gives { Gives (trees_in P.tree) result parser.old parser.new
        (separated_at (punct_of mark.now) (P.reader limits)) }
    ensures pays { PaysEach (P.spare - price P.Node.row) result parser.old parser.new }
{
    parser.take_punct(mark);
    let mut nodes = parser.empty_list();
    loop {
        let node = P::read(parser, limits)?;
        parser.push_with_room(&mut nodes, node, P::ROOM.clamp(1, 4))?;
        if !parser.take_punct(mark) {
            return Ok(nodes);
        }
    }
}

/// Reads any number of phrases: another as long as the lookahead begins one.
#[inline(always)]
pub fn any_number<P: Production>(parser: &mut Parser, limits: Limits) -> Reading<Vec<P::Node>>
    requires takes { Takes (P.reader limits) }
    requires fits { price P.Node.row ≤ P.spare }
    ensures gives { Gives (trees_in P.tree) result parser.old parser.new
        (many_at P.first (P.reader limits)) }
    ensures pays { PaysEach (P.spare - price P.Node.row) result parser.old parser.new }
{
    if !P::is_next(parser) {
        return Ok(parser.empty_list());
    }
    one_or_more::<P>(parser, limits)
}

/// Reads one phrase or more between two brackets, if the lookahead is the first bracket; else there are none.
// Never inlined, with its loop: a caller whose lists are mostly left out tests the bracket itself.
#[tactic(auto, unfolding(crate::specs::reading::Outcome::opt_at))]
#[inline(never)]
pub fn maybe_bracketed<P: Production>(
    parser: &mut Parser,
    opening: &str,
    closing: &str,
    limits: Limits,
) -> Reading<Vec<P::Node>>
    requires takes { Takes (P.reader limits) }
    requires fits { price P.Node.row ≤ P.spare }
    ensures gives { Gives (trees_in P.tree) result parser.old parser.new
        (mapped_at given
        (opt_at (punct_of opening.now)
        (between_at (punct_of opening.now) (plus_at P.first (P.reader limits))
        (punct_of closing.now)))) }
    ensures pays { PaysEach (P.spare - price P.Node.row) result parser.old parser.new }
{
    if !parser.take_punct(opening) {
        return Ok(parser.empty_list());
    }
    let nodes = one_or_more::<P>(parser, limits)?;
    parser.expect_punct(closing)?;
    Ok(nodes)
}

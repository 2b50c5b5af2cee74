//! Which of two places is smaller.
ghost use Rattle.std.specs.Prelude.{◌≡◌};
ghost use Rattle.graphql_printer.specs.inner.Places.{stands_before as stands_before_at};

use graphql_tokens::pos::Pos;

/// Whether a place is smaller than another: on an earlier line, or further left on the same line.
pub fn stands_before(one: Pos, other: Pos) -> bool
    ensures { result ≡ stands_before_at one other }
{
    one.line < other.line || one.line == other.line && one.column < other.column
}

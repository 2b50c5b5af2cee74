//! Places in a text, and nodes that keep the place where they stand.
ghost use Rattle.std.specs.Prelude.{◌≡◌, ◌≤◌, ◌++◌, ◌∷◌, Some, string_bytes, take, length, codes};
ghost use Rattle.std.specs.Fmt.{decimal};
ghost use Rattle.std.specs.Cmp.{on_equiv, on_total, on_per, on_po};
ghost use Rattle.std.specs.Cmp.Rules.{hashing};
ghost use Rattle.std.proofs.Common.{rules};

mod counted;
pub(crate) mod running;
mod shown;
mod text_walk;

use counted::CountedPlace;
use serde::{Deserialize, Serialize};
use std::alloc::AllocError;
use std::cmp::Ordering;
use std::fmt;
use std::hash::{Hash, Hasher};
use std::marker::Model;

/// A place in a text: the line, and the column in that line, both counted from 1.
///
/// Columns count characters (Unicode scalar values), not bytes. A line ends at a line feed; a carriage
/// return starts the column again, and counts no line of its own (this project's choice). 0:0, the
/// default, is no place of a text: it stands where a tree has a node that the text left out.
///
/// Places are ordered by line, then by column.
#[derive(Clone, Copy, Default, PartialEq, Eq, PartialOrd, Ord, Hash, Serialize, Deserialize)]
pub struct Pos {
    /// The line, counted from 1.
    pub line: usize,
    /// The column in its line, in characters, counted from 1.
    pub column: usize,
}

/// The line, a colon and the column, in decimal digits: `3:14`.
impl fmt::Display for Pos {
    ghost output = { λ p. Some (decimal p.line ++ codes ":" ++ decimal p.column) };

    fn fmt<W: fmt::Write>(&self, f: &mut fmt::Formatter<W>) -> fmt::Result {
        let Pos { line, column } = *self;
        write!(f, "{line}:{column}")
    }
}

/// The place in brackets: `Pos(3:14)`.
impl fmt::Debug for Pos {
    ghost debug_output = { λ p. Some (codes "Pos(" ++ decimal p.line ++ codes ":" ++ decimal p.column ++ codes ")") };

    fn fmt<W: fmt::Write>(&self, f: &mut fmt::Formatter<W>) -> fmt::Result {
        let Pos { line, column } = *self;
        write!(f, "Pos({line}:{column})")
    }
}

/// The pair of a line and a column.
impl From<(usize, usize)> for Pos {
    ghost from_gives = { λ pair p. p ≡ record { line = pair.0; column = pair.1 } };

    fn from(pair: (usize, usize)) -> Pos {
        let (line, column) = pair;
        Pos { line, column }
    }
}

/// A node of a tree, with the place where it stands in the text.
///
/// Comparisons, hashes and the shown text are those of the node alone; its place never matters to
/// them. The default is the node's default at 0:0.
#[derive(Debug, Clone, Copy, Default, Drop)]
pub struct Positioned<T> {
    /// Where the node stands.
    pub pos: Pos,
    /// The node itself.
    pub node: T,
}

impl<T> Positioned<T> {
    /// This node at this place.
    pub fn new(node: T, pos: Pos) -> Positioned<T>
        ensures { result ≡ record { pos = pos; node = node } }
    {
        Positioned { pos, node }
    }

    /// The node, without its place.
    pub fn into_inner(self) -> T
        ensures { result ≡ self.node }
    {
        self.node
    }

    /// Another node, at the place of this one.
    pub fn position_node<U>(&self, other: U) -> Positioned<U>
        ensures { result ≡ record { pos = self.now.pos; node = other } }
    {
        Positioned::new(other, self.pos)
    }

    /// What `f` makes of the node, at the same place. The caller owes that `f` may be called on it.
    pub fn map<U, F: FnOnce(T) -> U>(self, f: F) -> Positioned<U>
        requires { F.pre f self.node }
        ensures node { F.post f self.node result.node }
        ensures pos { result.pos ≡ self.pos }
    {
        let Positioned { pos, node } = self;
        Positioned::new(f(node), pos)
    }
}

impl Positioned<String> {
    /// The node's text, borrowed.
    pub fn as_str(&self) -> &str
        ensures { result.now ≡ string_bytes self.now.node }
    {
        self.node.as_str()
    }
}

impl<T: fmt::Display> fmt::Display for Positioned<T> {
    ghost output = { λ p. T.output p.node };

    ghost styled_output = { λ p style. T.styled_output p.node style };

    fn fmt<W: fmt::Write>(&self, f: &mut fmt::Formatter<W>) -> fmt::Result {
        self.node.fmt(f)
    }
}

impl<T: PartialEq> PartialEq for Positioned<T> {
    ghost eq = { λ x y. T.eq x.node y.node };

    ghost laws = { on_per (λ x. x.node) T.laws };

    fn eq(&self, other: &Self) -> bool {
        self.node == other.node
    }
}

impl<T: Eq> Eq for Positioned<T> {
    ghost laws = { on_equiv (λ x. x.node) T.Eq.laws };
}

impl<T: PartialOrd> PartialOrd for Positioned<T> {
    ghost partial_cmp = { λ x y. T.partial_cmp x.node y.node };

    ghost laws = { on_po (λ x. x.node) T.PartialOrd.laws };

    fn partial_cmp(&self, other: &Self) -> Option<Ordering> {
        self.node.partial_cmp(&other.node)
    }
}

impl<T: Ord> Ord for Positioned<T> {
    ghost cmp = { λ x y. T.cmp x.node y.node };

    ghost total = { on_total (λ x. x.node) T.total };

    ghost matches_partial_cmp = { λ x y. T.matches_partial_cmp x.node y.node };

    ghost matches_eq = { λ x y. T.matches_eq x.node y.node };

    fn cmp(&self, other: &Self) -> Ordering {
        self.node.cmp(&other.node)
    }
}

impl<T: Hash> Hash for Positioned<T> {
    ghost hash_input = { λ x. T.hash_input x.node };

    ghost respects_eq = { Prim.search (hashing, rules) };

    fn hash<H: Hasher>(&self, state: &mut H) {
        self.node.hash(state)
    }
}

/// Finds the places of byte offsets of one text, in one pass over it.
///
/// The offsets must not fall. Each step goes on where the last one stopped, so no character is passed
/// twice; `stepped` says how many were passed. It takes no memory. (This project's choice; how lines
/// and columns are counted stands at `Pos`.)
///
/// The contracts speak of this one walk. That a step doesn't go over the text a second time beside it is
/// carried by the type: the walk is its only field, and gives the text to nobody.
#[derive(Debug, Drop)]
pub struct PositionCalculator<'a> {
    counted: CountedPlace<'a>,
}

impl<'a> Model for PositionCalculator<'a> {
    ghost use Rattle.graphql_tokens.specs.tokens.Calculator.{Calculator};

    ghost Value = { Calculator };

    ghost use Rattle.graphql_tokens.specs.inner.Counting.{IsCounting};

    ghost view = { λ a. record {
      text = a.counted.place.walk.text.now;
      offset = a.counted.place.walk.offset;
      walk = a.counted.number;
    } };

    ghost invariant = { λ a. IsCounting a.counted };
}

impl<'a> PositionCalculator<'a> {
    ghost use Rattle.std.specs.Str.{IsCharBoundary, chars};
    ghost use Rattle.graphql_tokens.specs.tokens.Place.{place};

    /// A calculator at the start of `text`, which has passed nothing.
    pub fn new(text: &'a str) -> PositionCalculator<'a>
        ensures text { result.text ≡ text.entry.now }
        ensures start { result.offset ≡ 0 }
    {
        PositionCalculator {
            counted: CountedPlace::new(text),
        }
    }

    /// The place at `offset`, in bytes: its line is one more than the line feeds before it, and its
    /// column one more than the characters after the last line feed or carriage return before it
    /// (so a lone carriage return begins the columns anew, and no line; this project's choice).
    ///
    /// The caller owes an offset where a character begins or the text ends, and none smaller than at
    /// the call before.
    pub fn step(&mut self, offset: usize) -> Pos
        requires boundary { IsCharBoundary self.old.text offset }
        requires forward { self.old.offset ≤ offset }
        ensures place { result ≡ place self.old.text offset }
        // It has gone on with the same walk over the same text, up to this offset.
        ensures moved { self.new ≡ record self.old { offset = offset } }
    {
        while self.counted.offset() < offset {
            self.counted.pass();
        }
        self.counted.pos()
    }

    /// How many characters were passed so far: those before the last offset, each once.
    pub fn stepped(&self) -> usize
        ensures { result ≡ length (chars (take self.now.offset self.now.text)) }
    {
        self.counted.count()
    }
}

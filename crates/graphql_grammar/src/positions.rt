//! The places that an error names, as an iterator.
ghost use Rattle.std.specs.Prelude.{◌≡◌, ◌∷◌, [], ⊤, true, false, length, IfSome, Some};
ghost use Rattle.std.specs.Iterator.{UpTo, YieldsFirst, YieldsLast, item_count};
ghost use Rattle.std.specs.Iterator.SizeHint.{IsWithinCount};

use graphql_syntax::pos::Pos;
use serde::{Described, Serialize, Serializer};
use std::alloc::AllocError;
use std::iter::FusedIterator;
use std::marker::Model;

/// The places that an error names, from the most important to the least.
///
/// It can be taken from both ends: each place comes once, and then `None` for good. `len` is what
/// remains. It takes no memory, and serde writes it as a list. A contract sees it as the list of the
/// places that it has left.
#[derive(Debug, Drop)]
pub struct ErrorPositions {
    left: Left,
}

// No error names more than two places.
#[derive(Clone, Copy, Debug)]
enum Left {
    Two(Pos, Pos),
    One(Pos),
    Zero,
}

impl Model for ErrorPositions {
    ghost use Rattle.std.specs.Prelude.{List};
    ghost use Rattle.graphql_tokens.specs.declared.pos.Pos.{Pos as Place};
    ghost use Rattle.graphql_grammar.specs.reading.ErrorPlaces.{places_of};

    ghost Value = { List Place };

    ghost view = { λ it. places_of it.left };
}

impl ErrorPositions {
    pub(crate) fn none() -> ErrorPositions
        ensures { result ≡ [] }
    {
        ErrorPositions { left: Left::Zero }
    }

    pub(crate) fn one(only: Pos) -> ErrorPositions
        ensures { result ≡ only ∷ [] }
    {
        ErrorPositions {
            left: Left::One(only),
        }
    }

    pub(crate) fn two(first: Pos, last: Pos) -> ErrorPositions
        ensures { result ≡ first ∷ last ∷ [] }
    {
        ErrorPositions {
            left: Left::Two(first, last),
        }
    }

    // Takes the last of the places that are left, or the first.
    fn take_one(&mut self, from_back: bool) -> Option<Pos>
        ensures first { from_back ≡ false → YieldsFirst (λ left. left) self.old result self.new }
        ensures last { from_back ≡ true → YieldsLast (λ left. left) self.old result self.new }
    {
        match self.left {
            Left::Two(first, last) if from_back => {
                self.left = Left::One(first);
                Some(last)
            }
            Left::Two(first, last) => {
                self.left = Left::One(last);
                Some(first)
            }
            Left::One(only) => {
                self.left = Left::Zero;
                Some(only)
            }
            Left::Zero => None,
        }
    }
}

impl Clone for ErrorPositions {
    ghost is_clone = { λ it copy. copy ≡ it };

    ghost is_infallible = { λ _. ⊤ };

    fn clone(&self) -> std::result::Result<ErrorPositions, AllocError> {
        Ok(ErrorPositions { left: self.left })
    }
}

impl Iterator for ErrorPositions {
    type Item = Pos;

    ghost next_gives = { YieldsFirst (λ left. left) };

    ghost remaining = { item_count (λ left. left) };

    fn next(&mut self) -> Option<Pos> {
        self.take_one(false)
    }

    fn size_hint(&self) -> (usize, Option<usize>)
        ensures exact { result ≡ (length self.now, Some (length self.now)) }
        ensures lower { IsWithinCount result.0 (item_count (λ left. left) self.now) }
        ensures upper { IfSome result.1 (UpTo (item_count (λ left. left) self.now)) }
    {
        let len = self.len();
        (len, Some(len))
    }
}

impl DoubleEndedIterator for ErrorPositions {
    ghost next_back_gives = { YieldsLast (λ left. left) };

    fn next_back(&mut self) -> Option<Pos> {
        self.take_one(true)
    }
}

impl FusedIterator for ErrorPositions {}

impl ExactSizeIterator for ErrorPositions {
    fn len(&self) -> usize {
        match self.left {
            Left::Two(..) => 2,
            Left::One(_) => 1,
            Left::Zero => 0,
        }
    }
}

impl Described for ErrorPositions {}

impl Serialize for ErrorPositions {
    fn serialize<S: Serializer>(&self, out: &mut S) -> std::result::Result<(), S::Error> {
        out.begin_seq(Some(self.len()))?;
        match self.left {
            Left::Two(first, last) => {
                first.serialize(out)?;
                last.serialize(out)?;
            }
            Left::One(only) => only.serialize(out)?,
            Left::Zero => {}
        }
        out.end_seq()
    }
}

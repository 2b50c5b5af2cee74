//! How an answer is reported: its status and its places.
ghost use Rattle.std.specs.Prelude.{◌≡◌, MatchResult};
ghost use Rattle.std.specs.Str.{IsUtf8};
ghost use Rattle.graphql_parser.specs.notation.Limits.{IsAllowed};
ghost use Rattle.graphql_parser_c.specs.Statuses.{status_of};
ghost use Rattle.graphql_parser_c.specs.Telling.{IsUnread, limits_of, nowhere, place_of, places_of};

use crate::status::{Status, status_of_error};
use graphql_parser::{Limits, Pos, Result};

/// A place in a text: the line and the column, both counted from 1, the column in characters (Unicode scalar values).
/// 0:0 stands where there is no place.
#[repr(C)]
#[derive(Clone, Copy, Debug, PartialEq, Eq)]
pub struct Place {
    /// The line, counted from 1.
    pub line: usize,
    /// The column in its line, in characters, counted from 1.
    pub column: usize,
}

/// The places that a status is about, the most important first.
#[repr(C)]
#[derive(Clone, Copy, Debug, PartialEq, Eq)]
pub struct Places {
    /// The most important place.
    pub first: Place,
    /// The other place, where an error names two.
    pub second: Place,
}

impl Place {
    const NONE: Place = Place { line: 0, column: 0 };

    fn of(place: Option<Pos>) -> Place
        ensures { result ≡ place_of place }
    {
        match place {
            Some(Pos { line, column }) => Place { line, column },
            None => Place::NONE,
        }
    }
}

impl Places {
    /// No place at all.
    pub fn none() -> Places
        ensures { result ≡ nowhere }
    {
        Places {
            first: Place::NONE,
            second: Place::NONE,
        }
    }
}

/// What a call within a budget of memory leaves of it.
#[repr(C)]
#[derive(Drop)]
pub struct Left {
    /// How many bytes of the budget are left, by the count of `Memory`.
    pub bytes: usize,
    /// 1 if memory ran out and not only by the budget, since the heap denied a request; else 0.
    pub heap_denied: u8,
}

impl Left {
    /// What is left of these bytes before any is taken.
    pub fn all_of(bytes: usize) -> Left
        ensures { (result.bytes ≡ bytes) × (result.heap_denied ≡ 0) }
    {
        Left {
            bytes,
            heap_denied: 0,
        }
    }
}

/// What bounds a call: how deep selection sets, values and types may nest, in this order, and how many bytes of memory the
/// parser may take.
#[derive(Clone, Copy)]
pub struct Bounds(pub usize, pub usize, pub usize, pub usize);

/// What a caller asks: the bytes of a text, and what bounds the call.
#[derive(Clone, Copy)]
pub struct Question<'a> {
    pub text: &'a [u8],
    pub bounds: Bounds,
}

/// A text that can be read, and the limits to read it within.
#[derive(Clone, Copy)]
pub struct ReadableText<'a> {
    pub text: &'a str,
    pub limits: Limits,
}

impl<'a> Question<'a> {
    /// The text and the limits, or the status that says why the text can't be read. The limits are looked at first.
    pub fn readable(&self) -> std::result::Result<ReadableText<'a>, Status>
        ensures { let limits = limits_of self.now.bounds.0 self.now.bounds.1 self.now.bounds.2 in
            MatchResult result
            (λ r. (r.text.now ≡ self.now.text.now) × (r.limits ≡ limits) × IsAllowed limits ×
            IsUtf8 self.now.text.now) (λ status. IsUnread limits self.now.text.now status) }
    {
        let Bounds(selections, values, types, _) = self.bounds;
        let Some(limits) = Limits::new(selections, values, types) else {
            return Err(Status::LimitTooLarge);
        };
        let Ok(text) = std::str::from_utf8(self.text) else {
            return Err(Status::NotUtf8);
        };
        Ok(ReadableText { text, limits })
    }
}

/// Reports an answer: returns its status, and writes its places.
pub fn tell<D>(answer: &Result<D>, places: &mut Places) -> Status
    ensures status { result ≡ status_of answer.now }
    ensures places { places.new ≡ places_of answer.now }
{
    match answer {
        Ok(_) => {
            *places = Places::none();
            Status::Accepted
        }
        Err(error) => {
            let mut positions = error.positions();
            let first = Place::of(positions.next());
            let second = Place::of(positions.next());
            *places = Places { first, second };
            status_of_error(error)
        }
    }
}

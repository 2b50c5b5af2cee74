//! The place of a position calculator: one that nobody can copy.

ghost use Rattle.std.specs.Prelude.{◌≡◌, ◌≢◌, ◌<◌, ◌≤◌, ◌+◌, ℕ, ◌∷◌, [], length, take};
ghost use Rattle.std.specs.Str.{IsCharBoundary, chars};
ghost use Rattle.graphql_tokens.specs.tokens.Place.{place};
ghost use Rattle.graphql_tokens.specs.inner.Running.{ahead};
ghost use Rattle.graphql_tokens.specs.inner.Counting.{IsCounting};

use super::running::{CountedRunning, RunningPlace};
use super::{Pos, shown};
use std::fmt;
use std::marker::Model;

// Which walk over a text it is: a number for clauses alone, which takes no memory. `CountedPlace::new` says
// nothing of it, so nobody can show that two walks are the same one, or that a walk which began anew is the old
// one.
#[derive(Debug, Drop)]
struct WalkNumber;

impl Model for WalkNumber {
    ghost use Rattle.std.specs.Prelude.{ℕ};

    ghost Value = { ℕ };

    ghost view = { λ _. 0 };
}

// A running place that is neither `Copy` nor `Clone`. It holds the only text that a calculator has, and hands it
// out nowhere. Its one changing call passes one character and counts it. So whoever holds a counted place can't
// pass a character without a count, and can't go back in the text.
#[derive(Drop)]
pub struct CountedPlace<'a> {
    place: RunningPlace<'a>,
    // How many characters were passed.
    passed: usize,
    number: WalkNumber,
}

impl<'a> CountedPlace<'a> {
    // The start of `text`, and of a new walk over it.
    pub fn new(text: &'a str) -> CountedPlace<'a>
        ensures text { result.place.walk.text.now ≡ text.entry.now }
        ensures start { result.place.walk.offset ≡ 0 }
        ensures counting { IsCounting result }
    {
        CountedPlace {
            place: RunningPlace::new(text),
            passed: 0,
            number: WalkNumber,
        }
    }

    // The next character, which is passed and counted.
    #[inline(always)]
    pub fn pass(&mut self) -> char
        requires counting { IsCounting self.old }
        requires more { ahead self.old.place ≢ [] }
        ensures counting { IsCounting self.new }
        ensures same { self.new.place.walk.text.now ≡ self.old.place.walk.text.now }
        ensures walk { self.new.number ≡ self.old.number }
        ensures passed { ahead self.old.place ≡ result ∷ ahead self.new.place }
        ensures counted { self.new.passed ≡ self.old.passed + 1 }
        // No place where a character begins is gone over.
        ensures one { (at : ℕ) → IsCharBoundary self.old.place.walk.text.now at →
            self.old.place.walk.offset < at → self.new.place.walk.offset ≤ at }
        ensures forward { self.old.place.walk.offset < self.new.place.walk.offset }
    {
        self.passed += 1;
        self.place.pass()
    }

    #[inline(always)]
    pub fn offset(&self) -> usize
        ensures { result ≡ self.now.place.walk.offset }
    {
        self.place.offset()
    }

    // How many characters were passed: those before the offset, each once.
    #[inline(always)]
    pub fn count(&self) -> usize
        requires { IsCounting self.now }
        ensures count { result ≡ self.now.passed }
        ensures once { result ≡ length
            (chars (take self.now.place.walk.offset self.now.place.walk.text.now)) }
    {
        self.passed
    }

    #[inline(always)]
    pub fn pos(&self) -> Pos
        requires { IsCounting self.now }
        ensures { result ≡ place self.now.place.walk.text.now self.now.place.walk.offset }
    {
        self.place.pos()
    }
}

impl fmt::Debug for CountedPlace<'_> {
    fn fmt<W: fmt::Write>(&self, f: &mut fmt::Formatter<W>) -> fmt::Result {
        let place = CountedRunning {
            place: &self.place,
            count: self.passed,
        };
        let shown = shown::CountedPlace {
            place: &place,
            number: &self.number,
        };
        shown.fmt(f)
    }
}

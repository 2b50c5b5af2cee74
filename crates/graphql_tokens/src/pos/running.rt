//! A place that moves through a text with the characters passed.

ghost use Rattle.std.specs.Prelude.{◌≡◌, ◌≢◌, ◌<◌, ◌≤◌, ◌+◌, ◌-◌, ◌^◌, ℕ, ◌∷◌, [], true, if◌then◌else◌, length, drop, get_or};
ghost use Rattle.std.specs.List.{prefix_len};
ghost use Rattle.std.specs.Str.{IsCharBoundary};
ghost use Rattle.graphql_tokens.specs.tokens.Place.{place, is_in_line, is_line_end, is_line_feed};
ghost use Rattle.graphql_tokens.specs.inner.ByteClasses.{begins_mark};
ghost use Rattle.graphql_tokens.specs.inner.Reading.{past_line};
ghost use Rattle.graphql_tokens.specs.inner.Running.{ahead, IsRunning, BeginsInAscii, IsRunOfAscii};
ghost use Rattle.graphql_tokens.specs.inner.Lexing.{IsFirstByte};
ghost use Rattle.graphql_tokens.specs.inner.TextWalk.{Passes};

use super::text_walk::{CountedWalk, TextWalk};
use super::{Pos, shown};
use std::fmt;

// A walk over a text, with its line, and with the offset at which the columns would begin if each character since then
// took one byte: the column needs no number of its own, so passing an ASCII character within a line costs no more than
// passing it.
#[derive(Clone, Copy)]
pub struct RunningPlace<'a> {
    walk: TextWalk<'a>,
    line: usize,
    origin: usize,
}

impl<'a> RunningPlace<'a> {
    pub fn new(text: &'a str) -> RunningPlace<'a>
        ensures text { result.walk.text.now ≡ text.entry.now }
        ensures start { result.walk.offset ≡ 0 }
        ensures running { IsRunning result }
    {
        RunningPlace {
            walk: TextWalk::new(text),
            line: 1,
            origin: 0,
        }
    }

    // Goes to where another place in the same text is. The text isn't written again.
    #[inline(always)]
    pub fn go_to(&mut self, other: &RunningPlace)
        requires running { IsRunning other.now }
        requires same { self.old.walk.text.now ≡ other.now.walk.text.now }
        ensures same { self.new.walk.text.now ≡ self.old.walk.text.now }
        ensures running { IsRunning self.new }
        ensures offset { self.new.walk.offset ≡ other.now.walk.offset }
    {
        self.walk.go_to(&other.walk);
        self.line = other.line;
        self.origin = other.origin;
    }

    #[inline(always)]
    pub fn offset(&self) -> usize
        ensures { result ≡ self.now.walk.offset }
    {
        self.walk.offset()
    }

    #[inline(always)]
    pub fn text(&self) -> &'a str
        ensures { result.now ≡ self.now.walk.text.now }
    {
        self.walk.text()
    }

    #[inline(always)]
    pub fn pos(&self) -> Pos
        requires { IsRunning self.now }
        ensures { result ≡ place self.now.walk.text.now self.now.walk.offset }
    {
        Pos {
            line: self.line,
            column: self.walk.offset() - self.origin + 1,
        }
    }

    // Begins the columns at the offset, and a line too if it was a line feed that ended the one before.
    #[inline(always)]
    fn begin_columns(&mut self, b: u8)
        requires { self.old.line < 2 ^ 64 - 1 }
        ensures { self.new ≡ record self.old {
          line = self.old.line + (if is_line_feed b then 1 else 0);
          origin = self.old.walk.offset;
        } }
    {
        if b == b'\n' {
            self.line += 1;
        }
        self.origin = self.walk.offset();
    }

    // The next character, which is passed.
    #[inline(always)]
    pub fn pass(&mut self) -> char
        requires running { IsRunning self.old }
        requires more { ahead self.old ≢ [] }
        ensures running { IsRunning self.new }
        ensures same { self.new.walk.text.now ≡ self.old.walk.text.now }
        ensures passed { ahead self.old ≡ result ∷ ahead self.new }
        ensures passes { Passes result self.old.walk self.new.walk }
        // No place where a character begins is gone over.
        ensures one { (at : ℕ) → IsCharBoundary self.old.walk.text.now at →
            self.old.walk.offset < at → self.new.walk.offset ≤ at }
        ensures forward { self.old.walk.offset < self.new.walk.offset }
    {
        let start = self.walk.offset();
        let c = self.walk.pass();
        let end = self.walk.offset();
        if c == '\n' {
            self.line += 1;
            self.origin = end;
        } else if c == '\r' {
            self.origin = end;
        } else {
            self.origin += end - start - 1;
        }
        c
    }

    // The same where the next character is an ASCII one that ends no line, without a look at it.
    #[inline(always)]
    pub fn pass_ascii(&mut self)
        requires running { IsRunning self.old }
        requires ascii { BeginsInAscii (ahead self.old) }
        ensures running { IsRunning self.new }
        ensures same { self.new.walk.text.now ≡ self.old.walk.text.now }
        ensures passed { (c : ℕ) × (ahead self.old ≡ c ∷ ahead self.new) }
        ensures forward { self.old.walk.offset < self.new.walk.offset }
    {
        self.walk.pass_ascii();
    }

    // Passes a line feed or a carriage return, which is next.
    #[inline(always)]
    pub fn pass_line_end(&mut self, b: u8)
        requires running { IsRunning self.old }
        requires first { IsFirstByte b (ahead self.old) }
        requires ends { is_line_end b ≡ true }
        ensures running { IsRunning self.new }
        ensures same { self.new.walk.text.now ≡ self.old.walk.text.now }
        ensures passed { ahead self.old ≡ b ∷ ahead self.new }
        ensures forward { self.old.walk.offset < self.new.walk.offset }
    {
        self.walk.pass_ascii();
        self.begin_columns(b);
    }

    // Passes the rest of a line, up to `end`, and the character `b` there, which ends it. The columns begin anew after it, so
    // nothing needs to be known of what stands before.
    #[inline(always)]
    pub fn pass_line(&mut self, end: usize, b: u8)
        requires running { IsRunning self.old }
        requires line { end ≡ self.old.walk.offset + prefix_len is_in_line
            (drop self.old.walk.offset self.old.walk.text.now) }
        requires within { end < length self.old.walk.text.now }
        requires last { b ≡ get_or self.old.walk.text.now end 0 }
        ensures running { IsRunning self.new }
        ensures same { self.new.walk.text.now ≡ self.old.walk.text.now }
        ensures rest { ahead self.new ≡ past_line (ahead self.old) }
        ensures forward { self.old.walk.offset < self.new.walk.offset }
    {
        let len = end - self.walk.offset() + 1;
        self.walk.pass_run(len);
        self.begin_columns(b);
    }

    // Passes U+FEFF, which is next.
    #[inline(always)]
    pub fn pass_mark(&mut self)
        requires running { IsRunning self.old }
        requires mark { begins_mark (drop self.old.walk.offset self.old.walk.text.now) ≡ true }
        ensures running { IsRunning self.new }
        ensures same { self.new.walk.text.now ≡ self.old.walk.text.now }
        ensures passed { ahead self.old ≡ 0xFEFF ∷ ahead self.new }
        ensures forward { self.old.walk.offset < self.new.walk.offset }
    {
        self.walk.pass_run(3);
        self.origin += 2;
    }

    // Passes so many ASCII characters that end no line, without a look at them.
    #[inline(always)]
    pub fn pass_run(&mut self, len: usize)
        requires running { IsRunning self.old }
        requires within { self.old.walk.offset + len ≤ length self.old.walk.text.now }
        requires ascii { IsRunOfAscii self.old.walk.text.now self.old.walk.offset len }
        ensures running { IsRunning self.new }
        ensures same { self.new.walk.text.now ≡ self.old.walk.text.now }
        ensures passed { self.new.walk.offset ≡ self.old.walk.offset + len }
    {
        self.walk.pass_run(len);
    }

    // The next character, of which the caller has the first byte: as `pass`, without a second look at a
    // common one.
    #[inline(always)]
    pub fn pass_first(&mut self, b: u8) -> char
        requires running { IsRunning self.old }
        requires first { IsFirstByte b (ahead self.old) }
        ensures running { IsRunning self.new }
        ensures same { self.new.walk.text.now ≡ self.old.walk.text.now }
        ensures passed { ahead self.old ≡ result ∷ ahead self.new }
        ensures forward { self.old.walk.offset < self.new.walk.offset }
    {
        if b > b'\r' && b < 0x80 {
            self.pass_ascii();
            return b as char;
        }
        self.pass()
    }
}

impl fmt::Debug for RunningPlace<'_> {
    fn fmt<W: fmt::Write>(&self, f: &mut fmt::Formatter<W>) -> fmt::Result {
        let shown = CountedRunning {
            place: self,
            count: self.walk.shown_count(),
        };
        shown.fmt(f)
    }
}

// A place as `Debug` shows it, where it is known how many characters it has passed.
#[derive(Drop)]
pub struct CountedRunning<'p, 'a> {
    pub place: &'p RunningPlace<'a>,
    pub count: usize,
}

impl fmt::Debug for CountedRunning<'_, '_> {
    fn fmt<W: fmt::Write>(&self, f: &mut fmt::Formatter<W>) -> fmt::Result {
        let in_line = self.place.walk.offset().wrapping_sub(self.place.origin);
        let walk = CountedWalk {
            walk: &self.place.walk,
            count: self.count,
        };
        let shown = shown::RunningPlace {
            walk: &walk,
            line: self.place.line,
            before: self.count.wrapping_sub(in_line),
        };
        shown.fmt(f)
    }
}

//! A walk over a text, a character at a time.

ghost use Rattle.std.specs.Prelude.{◌≡◌, ◌<◌, ◌≤◌, ◌+◌, ◌++◌, ℕ, List, length, drop, get_or};
ghost use Rattle.std.specs.Char.{encode_utf8};
ghost use Rattle.std.specs.Str.{IsCharBoundary};
ghost use Rattle.graphql_tokens.specs.inner.TextWalk.{IsWalking, Passes};

use super::shown;
use std::fmt;

// The text, and how many of its bytes were passed. A copy of it goes on by itself.
#[derive(Clone, Copy)]
pub struct TextWalk<'a> {
    text: &'a str,
    offset: usize,
}

impl<'a> TextWalk<'a> {
    pub fn new(text: &'a str) -> TextWalk<'a>
        ensures text { result.text.now ≡ text.entry.now }
        ensures start { result.offset ≡ 0 }
        ensures walking { IsWalking result }
    {
        TextWalk { text, offset: 0 }
    }

    // The character at the offset, which is passed.
    #[inline(always)]
    pub fn pass(&mut self) -> char
        requires walking { IsWalking self.old }
        requires more { self.old.offset < length self.old.text.now }
        ensures same { self.new.text.now ≡ self.old.text.now }
        ensures walking { IsWalking self.new }
        ensures passes { Passes result self.old self.new }
    {
        let first = self.text.as_bytes()[self.offset];
        if first < 0x80 {
            self.offset += 1;
            return first as char;
        }
        let c = char_at(self.text, self.offset);
        self.offset += c.len_utf8();
        c
    }

    // Passes an ASCII character, without a look at it.
    #[inline(always)]
    pub fn pass_ascii(&mut self)
        requires walking { IsWalking self.old }
        requires more { self.old.offset < length self.old.text.now }
        requires ascii { get_or self.old.text.now self.old.offset 0 < 128 }
        ensures same { self.new.text.now ≡ self.old.text.now }
        ensures walking { IsWalking self.new }
        ensures passes { Passes (get_or self.old.text.now self.old.offset 0) self.old self.new }
    {
        self.offset += 1;
    }

    // Passes so many ASCII characters, without a look at them.
    #[inline(always)]
    pub fn pass_run(&mut self, len: usize)
        requires walking { IsWalking self.old }
        requires within { self.old.offset + len ≤ length self.old.text.now }
        ensures same { self.new.text.now ≡ self.old.text.now }
        ensures passed { self.new.offset ≡ self.old.offset + len }
    {
        self.offset += len;
    }

    // How many characters begin before the offset: for `Debug`, which alone counts them.
    pub fn shown_count(&self) -> usize {
        let mut count = 0usize;
        for byte in self.text.as_bytes().iter().take(self.offset) {
            if byte & 0xC0 != 0x80 {
                count = count.saturating_add(1);
            }
        }
        count
    }

    // Goes to where another walk over the same text is, which isn't written again.
    #[inline(always)]
    pub fn go_to(&mut self, other: &TextWalk)
        requires walking { IsWalking other.now }
        requires same { self.old.text.now ≡ other.now.text.now }
        ensures same { self.new.text.now ≡ self.old.text.now }
        ensures walking { IsWalking self.new }
        ensures offset { self.new.offset ≡ other.now.offset }
    {
        self.offset = other.offset;
    }

    #[inline(always)]
    pub fn offset(&self) -> usize
        ensures { result ≡ self.now.offset }
    {
        self.offset
    }

    #[inline(always)]
    pub fn text(&self) -> &'a str
        ensures { result.now ≡ self.now.text.now }
    {
        self.text
    }
}

// A walk as `Debug` shows it, where it is known how many characters it has passed.
#[derive(Drop)]
pub struct CountedWalk<'w, 'a> {
    pub walk: &'w TextWalk<'a>,
    pub count: usize,
}

impl fmt::Debug for CountedWalk<'_, '_> {
    fn fmt<W: fmt::Write>(&self, f: &mut fmt::Formatter<W>) -> fmt::Result {
        let shown = shown::TextWalk {
            text: self.walk.text,
            offset: self.walk.offset,
            count: self.count,
        };
        shown.fmt(f)
    }
}

// The character at `offset`. It is handed no walk's address, so that a walk can stay in registers.
#[cold]
#[inline(never)]
fn char_at(text: &str, offset: usize) -> char
    requires boundary { IsCharBoundary text.now offset }
    requires more { offset < length text.now }
    ensures { (rest : List ℕ) × (drop offset text.now ≡ encode_utf8 result ++ rest) }
{
    match text[offset..].chars().next() {
        Some(c) => c,
        None => unreachable!(),
    }
}

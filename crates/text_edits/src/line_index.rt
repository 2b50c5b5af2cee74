//! Where the lines of a text begin, found once and then looked up.

ghost use Rattle.std.specs.List.Sorted.{IsNonDecreasing};
ghost use Rattle.std.specs.Prelude.{◌≡◌, ◌+◌, ◌≤◌, IfOk, List, OnErr, OnOk, length, nat_le, string_bytes, ℕ};
ghost use Rattle.std.specs.Str.{chars, IsCharBoundary};
ghost use Rattle.text_edits.specs.Edits.{replaced};
ghost use Rattle.text_edits.specs.Indexes.{starts_of};
ghost use Rattle.text_edits.specs.Lines.{lines};
ghost use Rattle.text_edits.specs.Positions.{lines_passed, offset_of, position_of, IsPosition, IsInLineEnd};
ghost use Rattle.text_edits.specs.Starts.{IsBegun, IsLineStart};

use crate::parts::{push_starts, shift, starts_from};
use crate::positions::{Line, offset_on, position_on};
use crate::{Encoding, Position};
use std::alloc::{AllocError, Global};
use std::marker::Model;

/// The offsets in bytes at which the lines of one text begin.
///
/// To find a position it goes over that position's line alone. It doesn't hold the text, so each call is given the text that the
/// index was made of; a [`Document`](crate::Document) holds both. (This project's choice.)
#[derive(Drop)]
pub struct LineIndex {
    starts: Vec<usize>,
}

impl Model for LineIndex {
    ghost Value = { List ℕ };

    ghost view = { λ index. index.starts.items };
}

impl LineIndex {
    /// The index of a text, in one pass over it.
    ///
    /// It fails only where memory runs out.
    pub fn new(alloc: Global, text: &str) -> Result<LineIndex, AllocError>
        ensures { IfOk result (λ index. index ≡ starts_of text.now) }
    {
        let mut starts = Vec::new(alloc);
        starts.push(0)?;
        push_starts(&mut starts, 0, text.as_bytes(), &[])?;
        Ok(LineIndex { starts })
    }

    /// How many lines the text has.
    pub(crate) fn lines(&self) -> usize
        ensures { result ≡ length self.now }
    {
        self.starts.len()
    }

    // The byte at which a line of the text begins, or the text's end if it has no such line.
    fn line_start(&self, text: &str, line: usize) -> usize
        requires { self.now ≡ starts_of text.now }
        ensures { IsLineStart text.now line result }
    {
        match self.starts.get(line) {
            Some(start) => *start,
            None => text.len(),
        }
    }

    // How many lines begin at or before a byte offset.
    fn begun(&self, offset: usize) -> usize
        ensures bound { result ≤ length self.now }
        ensures parted { IsNonDecreasing self.now → IsBegun self.now offset result }
    {
        self.starts.partition_point(
            |start| -> bool
                ensures { result ≡ nat_le start.now offset }
            { *start <= offset },
        )
    }

    // The line of the text that a byte offset is on: the last one that begins at or before it.
    fn line_of(&self, text: &str, offset: usize) -> Line
        requires { self.now ≡ starts_of text.now }
        ensures start { IsLineStart text.now result.number result.start }
        ensures on { result.number ≡ lines_passed (lines (chars text.now)) offset }
        ensures low { result.start ≤ offset }
    {
        let number = self.begun(offset) - 1;
        Line {
            number,
            start: self.starts[number],
        }
    }

    /// Puts `new` in the place of a part of the text of the index. What begins after it is moved, so it takes the time of moving bytes
    /// and numbers, and of going over `new`.
    ///
    /// It fails only where memory runs out, and then both are as they were.
    pub(crate) fn replace(
        &mut self,
        alloc: Global,
        text: &mut String,
        start: usize,
        end: usize,
        new: &str,
    ) -> Result<(), AllocError>
        requires same { self.old ≡ starts_of (string_bytes text.old) }
        requires order { start ≤ end }
        requires start { IsCharBoundary (string_bytes text.old) start }
        requires end { IsCharBoundary (string_bytes text.old) end }
        ensures text { OnOk result (chars (string_bytes text.new)
            ≡ replaced (chars (string_bytes text.old)) start end (chars new.now)) }
        ensures index { OnOk result (self.new ≡ starts_of (string_bytes text.new)) }
        ensures err { OnErr result ((self.new ≡ self.old) × (string_bytes text.new ≡ string_bytes text.old)) }
    {
        let bytes = text.as_str().as_bytes();
        let (front, back) = (&bytes[..start], &bytes[end..]);
        let begun = starts_from(alloc, front, new.as_bytes(), back)?;
        let kept = self.begun(start.saturating_sub(1));
        let passed = self.begun(end);
        let first = kept + begun.len();
        text.reserve(new.len())?;
        self.starts.splice(kept..passed, begun)?;
        text.replace_range(start..end, new)?;
        shift(self.starts.as_mut_slice(), first, end, start + new.len());
        Ok(())
    }

    /// The byte offset of a position in the text of the index: what [`offset_of`](crate::offset_of) gives.
    pub fn offset_of(&self, text: &str, encoding: Encoding, position: Position) -> usize
        requires { self.now ≡ starts_of text.now }
        ensures value { result ≡ offset_of encoding text.now position }
        ensures boundary { IsCharBoundary text.now result }
        ensures back { IsPosition encoding text.now position → position_of encoding text.now result ≡ position }
    {
        let number = position.line;
        let start = self.line_start(text, number);
        offset_on(text, encoding, Line { number, start }, position.character)
    }

    /// The position of a byte offset in the text of the index: what [`position_of`](crate::position_of) gives.
    pub fn position_of(&self, text: &str, encoding: Encoding, offset: usize) -> Position
        requires { self.now ≡ starts_of text.now }
        ensures value { result ≡ position_of encoding text.now offset }
        ensures is { IsPosition encoding text.now result }
        ensures back { IsCharBoundary text.now offset → ¬ (IsInLineEnd text.now offset) →
            offset_of encoding text.now result ≡ offset }
        ensures in_line_end { IsInLineEnd text.now offset → offset_of encoding text.now result + 1 ≡ offset }
    {
        position_on(text, encoding, self.line_of(text, offset), offset)
    }
}

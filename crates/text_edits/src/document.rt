//! A text with the index of its lines.

ghost use Rattle.std.specs.Prelude.{◌≡◌, ◌+◌, IfOk, OnOk, OnErr, List, ℕ, string_bytes};
ghost use Rattle.std.specs.Str.{chars, IsCharBoundary, IsUtf8};
ghost use Rattle.text_edits.specs.Edits.{replaced};
ghost use Rattle.text_edits.specs.Indexes.{starts_of};
ghost use Rattle.text_edits.specs.Pieces.{lines_ended};
ghost use Rattle.text_edits.specs.Positions.{offset_of, position_of, IsPosition, IsInLineEnd};

use crate::edits::later;
use crate::{Encoding, LineIndex, Position, Range};
use std::alloc::{AllocError, Global};
use std::marker::Model;

/// A text that an editor changes, with the index of its lines.
#[derive(Drop)]
pub struct Document {
    text: String,
    index: LineIndex,
}

impl Model for Document {
    ghost Value = { List ℕ };

    ghost view = { λ document. string_bytes document.text };

    ghost invariant = { λ document. document.index ≡ starts_of (string_bytes document.text) };
}

impl Document {
    /// The document that has this text.
    ///
    /// It fails only where memory runs out, and then the text is gone too.
    pub fn new(alloc: Global, text: String) -> Result<Document, AllocError>
        ensures { IfOk result (λ document. document ≡ string_bytes text) }
    {
        let index = LineIndex::new(alloc, &text)?;
        Ok(Document { text, index })
    }

    /// Its text.
    pub fn text(&self) -> &str
        ensures { result.now ≡ self.now }
    {
        self.text.as_str()
    }

    /// How many of its lines have an end: all but the last.
    pub(crate) fn lines_ended(&self) -> usize
        ensures { result ≡ lines_ended self.now }
    {
        self.index.lines().saturating_sub(1)
    }

    /// The byte offset of a position: what [`offset_of`](crate::offset_of) gives.
    pub fn offset_of(&self, encoding: Encoding, position: Position) -> usize
        ensures value { result ≡ offset_of encoding self.now position }
        ensures boundary { IsCharBoundary self.now result }
        ensures back { IsPosition encoding self.now position → position_of encoding self.now result ≡ position }
    {
        self.index.offset_of(&self.text, encoding, position)
    }

    /// The position of a byte offset: what [`position_of`](crate::position_of) gives.
    pub fn position_of(&self, encoding: Encoding, offset: usize) -> Position
        ensures value { result ≡ position_of encoding self.now offset }
        ensures is { IsPosition encoding self.now result }
        ensures back { IsCharBoundary self.now offset → ¬ (IsInLineEnd self.now offset) →
            offset_of encoding self.now result ≡ offset }
        ensures in_line_end { IsInLineEnd self.now offset → offset_of encoding self.now result + 1 ≡ offset }
    {
        self.index.position_of(&self.text, encoding, offset)
    }

    /// Puts `new` in the place of what is in the range, as [`apply`](crate::apply) does, but in place: only what comes after the range is
    /// moved, and only `new` is gone over.
    ///
    /// It fails only where memory runs out, and then the document is as it was.
    pub fn apply(
        &mut self,
        alloc: Global,
        encoding: Encoding,
        range: Range,
        new: &str,
    ) -> Result<(), AllocError>
        ensures ok { OnOk result (chars self.new ≡ replaced (chars self.old)
            (offset_of encoding self.old range.start) (offset_of encoding self.old range.end) (chars new.now)) }
        ensures err { OnErr result (self.new ≡ self.old) }
        ensures valid { IsUtf8 self.new }
    {
        let start = self.offset_of(encoding, range.start);
        let end = later(start, self.offset_of(encoding, range.end));
        self.index.replace(alloc, &mut self.text, start, end, new)
    }
}

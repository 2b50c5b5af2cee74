//! A text in pieces, for many changes one after another.

ghost use Rattle.std.specs.List.{concat};
ghost use Rattle.std.specs.Prelude.{◌≡◌, ◌++◌, ◌-◌, ◌≤◌, All, IfOk, IfSome, OnOk, string_bytes};
ghost use Rattle.std.specs.Str.{chars};
ghost use Rattle.text_edits.specs.Edits.{replaced};
ghost use Rattle.text_edits.specs.Pieces.{IsFoundAt, IsPiece, IsPieceEnd};
ghost use Rattle.text_edits.specs.Positions.{offset_of};

use crate::{Document, Encoding, Position, Range};
use memchr::memchr;
use std::alloc::{AllocError, Global};
use std::marker::Model;

// A piece is no shorter than this, in bytes, unless it is the last one.
const SIZE: usize = 4096;

/// A text that an editor changes many times at once, in pieces of whole lines: a change goes over its piece, and counts those before it.
/// (This project's own type.)
#[derive(Drop)]
pub struct Pieces {
    // Each ends with a line feed.
    front: Vec<Document>,
    // What comes after them.
    last: Document,
}

impl Model for Pieces {
    ghost use Rattle.std.specs.List.{concat};
    ghost use Rattle.std.specs.Prelude.{List, ℕ, ◌++◌, All};
    ghost use Rattle.text_edits.specs.Pieces.{IsPiece};

    ghost Value = { List ℕ };

    ghost view = { λ pieces. concat pieces.front.items ++ pieces.last };

    ghost invariant = { λ pieces. All IsPiece pieces.front.items };
}

// A piece of a text: the one of this index, after so many lines.
#[derive(Clone, Copy)]
struct Place {
    index: usize,
    passed: usize,
}

impl Pieces {
    /// A text in pieces.
    ///
    /// It fails only where memory runs out.
    pub fn new(alloc: Global, text: &str) -> Result<Pieces, AllocError>
        ensures { IfOk result (λ pieces. pieces ≡ text.now) }
    {
        let mut front = Vec::new(alloc);
        let last = cut(alloc, &mut front, text)?;
        Ok(Pieces { front, last })
    }

    /// The text as a document.
    ///
    /// It fails only where memory runs out.
    pub fn into_document(self, alloc: Global) -> Result<Document, AllocError>
        ensures { IfOk result (λ document. document ≡ self) }
    {
        Document::new(alloc, joined(alloc, self.front.as_slice(), &self.last)?)
    }

    /// The piece that a line is in, and how many lines are before it.
    pub fn around(&self, line: usize) -> (&Document, usize) {
        let Place { index, passed } = place_of(&self.front, line);
        match self.front.get(index) {
            Some(piece) => (piece, passed),
            None => (&self.last, passed),
        }
    }

    /// Puts `new` in the place of what is in the range, as [`apply`](crate::apply) does.
    ///
    /// It fails only where memory runs out, and then the text is gone.
    pub fn apply(
        &mut self,
        alloc: Global,
        encoding: Encoding,
        range: Range,
        new: &str,
    ) -> Result<(), AllocError>
        ensures { OnOk result (chars self.new ≡ replaced (chars self.old)
            (offset_of encoding self.old range.start) (offset_of encoding self.old range.end) (chars new.now)) }
    {
        let lines = (range.start.line, range.end.line);
        let first = place_of(&self.front, lines.0.min(lines.1));
        let last = place_of(&self.front, lines.0.max(lines.1));
        let range = after_lines(range, first.passed);
        if first.index != last.index {
            let text = joined(alloc, &self.front[first.index..], &self.last)?;
            let mut rest = Document::new(alloc, text)?;
            rest.apply(alloc, encoding, range, new)?;
            self.front.truncate(first.index);
            self.last = cut(alloc, &mut self.front, rest.text())?;
            Ok(())
        } else if first.index < self.front.len() {
            self.front[first.index].apply(alloc, encoding, range, new)
        } else {
            self.last.apply(alloc, encoding, range, new)
        }
    }
}

// A range of a text in what comes after so many of its lines.
fn after_lines(range: Range, passed: usize) -> Range
    requires { passed ≤ range.start.line × passed ≤ range.end.line }
    ensures start { result.start ≡ (record { line = range.start.line - passed; character = range.start.character }) }
    ensures end { result.end ≡ (record { line = range.end.line - passed; character = range.end.character }) }
{
    let Range { start, end } = range;
    Range {
        start: Position {
            line: start.line - passed,
            ..start
        },
        end: Position {
            line: end.line - passed,
            ..end
        },
    }
}

// Where among these pieces a line is.
fn place_of(front: &[Document], line: usize) -> Place
    requires { All IsPiece front.now }
    ensures { IsFoundAt front.now line result.index result.passed }
{
    let mut passed = 0;
    for index in 0..front.len() {
        let ended = front[index].lines_ended();
        if line - passed < ended {
            return Place { index, passed };
        }
        passed += ended;
    }
    Place {
        index: front.len(),
        passed,
    }
}

// The text of these pieces and the last one.
fn joined(alloc: Global, front: &[Document], last: &Document) -> Result<String, AllocError>
    ensures { IfOk result (λ text. string_bytes text ≡ concat front.now ++ last.now) }
{
    let mut text = String::new(alloc);
    for index in 0..front.len() {
        text.push_str(front[index].text())?;
    }
    text.push_str(last.text())?;
    Ok(text)
}

// Adds the pieces of a text, and returns the last one.
fn cut(alloc: Global, front: &mut Vec<Document>, text: &str) -> Result<Document, AllocError>
    requires { All IsPiece front.old.items }
    ensures pieces { All IsPiece front.new.items }
    ensures whole { IfOk result (λ last. concat front.new.items ++ last ≡ concat front.old.items ++ text.now) }
{
    let mut rest = text;
    while let Some(end) = end_of_piece(rest) {
        let (piece, after) = rest.split_at(end);
        front.push(Document::new(alloc, String::from_str(alloc, piece)?)?)?;
        rest = after;
    }
    Document::new(alloc, String::from_str(alloc, rest)?)
}

// Where the first piece of a text ends, if it isn't all of it: after a line feed.
fn end_of_piece(text: &str) -> Option<usize>
    ensures { IfSome result (IsPieceEnd text.now) }
{
    if text.len() < SIZE {
        return None;
    }
    let found = memchr(b'\n', &text.as_bytes()[SIZE..])?;
    Some(SIZE + found + 1)
}

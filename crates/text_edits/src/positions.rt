//! Byte offsets and positions.

ghost use Rattle.std.specs.Prelude.{◌≡◌, ◌≤◌, ◌+◌};
ghost use Rattle.std.specs.Str.{chars, IsCharBoundary};
ghost use Rattle.text_edits.specs.Lines.{lines};
ghost use Rattle.text_edits.specs.Positions.{lines_passed, offset_of, position_of, IsPosition, IsInLineEnd};
ghost use Rattle.text_edits.specs.Starts.{IsLineStart};

use crate::columns::converted;
use crate::lines::{first_line, line_start, next_line};
use crate::{Encoding, Position};

/// A line of a text.
#[derive(Clone, Copy)]
pub(crate) struct Line {
    /// Which line, counted from 0.
    pub number: usize,
    /// The byte at which it begins.
    pub start: usize,
}

/// The byte offset of a position on this line of the text.
pub(crate) fn offset_on(text: &str, encoding: Encoding, line: Line, character: usize) -> usize
    requires { IsLineStart text.now line.number line.start }
    ensures value { result ≡ offset_of encoding text.now (record { line = line.number; character = character }) }
    ensures boundary { IsCharBoundary text.now result }
{
    let content = first_line(&text[line.start..]);
    line.start + converted(content, encoding, character, Encoding::Utf8)
}

/// The position of a byte offset on this line of the text.
pub(crate) fn position_on(text: &str, encoding: Encoding, line: Line, offset: usize) -> Position
    requires start { IsLineStart text.now line.number line.start }
    requires on { line.number ≡ lines_passed (lines (chars text.now)) offset }
    requires low { line.start ≤ offset }
    ensures { result ≡ position_of encoding text.now offset }
{
    let content = first_line(&text[line.start..]);
    let character = converted(content, Encoding::Utf8, offset - line.start, encoding);
    Position {
        line: line.number,
        character,
    }
}

// The line that a byte offset is on: the last one that begins at or before it.
fn line_of(text: &str, offset: usize) -> Line
    ensures start { IsLineStart text.now result.number result.start }
    ensures on { result.number ≡ lines_passed (lines (chars text.now)) offset }
    ensures low { result.start ≤ offset }
{
    let mut number = 0;
    let mut start = 0;
    while let Some(length) = next_line(&text[start..]) {
        if offset - start < length {
            return Line { number, start };
        }
        start += length;
        number += 1;
    }
    Line { number, start }
}

/// The byte offset of a position, whose column is in units of the encoding.
///
/// A column beyond the end of its line is the line's end, before its line end (Language Server Protocol 3.17, "Position"). A line
/// beyond the last one is the end of the text, and a column in the middle of a character, as between the two surrogates of a pair,
/// is where the character begins (this project's choice).
///
/// It goes over the text up to the position; [`LineIndex`](crate::LineIndex) goes over its line alone.
pub fn offset_of(text: &str, encoding: Encoding, position: Position) -> usize
    ensures value { result ≡ offset_of encoding text.now position }
    ensures boundary { IsCharBoundary text.now result }
    ensures back { IsPosition encoding text.now position → position_of encoding text.now result ≡ position }
{
    let number = position.line;
    let start = line_start(text, number);
    offset_on(text, encoding, Line { number, start }, position.character)
}

/// The position of an offset in bytes, with its column in units of the encoding.
///
/// An offset beyond the end of the text is its end, one in the middle of a character is where the character begins, and one in the
/// middle of a `\r\n` is where that begins, which is the end of its line (this project's choice).
///
/// It goes over the text up to the offset; [`LineIndex`](crate::LineIndex) goes over its line alone.
pub fn position_of(text: &str, encoding: Encoding, offset: usize) -> Position
    ensures value { result ≡ position_of encoding text.now offset }
    ensures is { IsPosition encoding text.now result }
    ensures back { IsCharBoundary text.now offset → ¬ (IsInLineEnd text.now offset) →
        offset_of encoding text.now result ≡ offset }
    ensures in_line_end { IsInLineEnd text.now offset → offset_of encoding text.now result + 1 ≡ offset }
{
    position_on(text, encoding, line_of(text, offset), offset)
}

//! Positions in texts as editors count them, and changes of texts, as the base of a language server.
//!
//! An editor names a place in a text by a line and a column ([`Position`]), a program by an offset in bytes. [`offset_of`] and
//! [`position_of`] go from one to the other, [`apply`] replaces what is between two positions, and [`replace`] what is between
//! two offsets. A [`Document`] is a text that does all of this in less time, by the index of its lines ([`LineIndex`]), and [`Pieces`] are
//! one that takes many changes at once.
//!
//! A line ends at `\n`, `\r\n` or `\r`, and the last line has no end, so a text has a line more than line ends (Language Server
//! Protocol 3.17, "Text Documents"). Columns are counted in bytes of UTF-8, code units of UTF-16 or code points ([`Encoding`]).
//!
//! Every position and every offset is allowed, and means a place in the text, as each function says. The functions that make a
//! text or an index fail only where memory runs out.
//!
//! Proved: each function gives what `specs/` says. From a position of the text to its offset and back is the same position, and
//! from an offset between two characters to its position and back is the same offset, unless it is inside of a `\r\n`.
#![tactic(auto)]

mod columns;
mod document;
mod edits;
mod line_index;
mod lines;
mod parts;
mod pieces;
mod positions;

pub use document::Document;
pub use edits::{apply, replace};
pub use line_index::LineIndex;
pub use pieces::Pieces;
pub use positions::{offset_of, position_of};

/// In what units the columns of a line are counted (Language Server Protocol 3.17, "PositionEncodingKind").
#[derive(Debug, Clone, Copy, PartialEq, Eq)]
pub enum Encoding {
    /// Bytes of UTF-8: a character takes 1 to 4 (`utf-8`).
    Utf8,
    /// Code units of UTF-16: a character takes 1, or 2 from U+10000 on (`utf-16`, what a client speaks that names no other).
    Utf16,
    /// Code points: each character takes 1 (`utf-32`).
    Utf32,
}

/// A place in a text, between two characters (Language Server Protocol 3.17, "Position").
#[derive(Debug, Clone, Copy, PartialEq, Eq, PartialOrd, Ord)]
pub struct Position {
    /// The line, counted from 0.
    pub line: usize,
    /// How many units of the line are before the place, in the [`Encoding`] that goes with the position.
    pub character: usize,
}

/// A part of a text, from one position up to another (Language Server Protocol 3.17, "Range").
#[derive(Debug, Clone, Copy, PartialEq, Eq)]
pub struct Range {
    /// Where it begins.
    pub start: Position,
    /// Where it ends: the first position that is no longer in it.
    pub end: Position,
}

//! Many offsets of one text as positions.

use memchr::memchr2_iter;
use std::alloc::{AllocError, Global};
use text_edits::{Encoding, Position, Range};

// How many units are before a byte is kept of each so many bytes.
const STEP: usize = 8;

// The bits of this many bytes that none of them has if each is a character.
const NOT_ASCII: u64 = 0x8080_8080_8080_8080;

// So many lines are looked at before any other.
const NEAR: usize = 3;

/// The positions of a text's offsets, each found in the same time however long its line is. (A `text_edits::Document` goes over the
/// line; the positions are the same.)
#[derive(Drop)]
pub struct Places<'a> {
    text: &'a str,
    encoding: Encoding,
    lines: Vec<Line>,
    // How many units of the encoding are before the bytes 0, STEP, 2 * STEP ..
    marks: Vec<usize>,
    // The line on which the last range began.
    near: usize,
}

#[derive(Clone, Copy)]
struct Line {
    start: usize,
    // Whether each of its bytes is one unit, and it doesn't end by a `\r\n`.
    is_plain: bool,
}

impl<'a> Places<'a> {
    /// Goes over the text.
    ///
    /// It fails only if memory runs out.
    pub fn new(alloc: Global, encoding: Encoding, text: &'a str) -> Result<Places<'a>, AllocError> {
        let mut places = Places {
            text,
            encoding,
            lines: Vec::new(alloc),
            marks: marks_of(alloc, encoding, text.as_bytes())?,
            near: 0,
        };
        places.find_lines()?;
        Ok(places)
    }

    // Finds where lines begin.
    fn find_lines(&mut self) -> Result<(), AllocError> {
        let bytes = self.text.as_bytes();
        let mut start = 0usize;
        let mut before = 0usize;
        for at in memchr2_iter(b'\n', b'\r', bytes) {
            let next = at.saturating_add(1);
            let is_feed = bytes.get(at) == Some(&b'\n');
            if is_feed || bytes.get(next) != Some(&b'\n') {
                let units = self.units_before(next);
                let is_even = units.saturating_sub(before) == next.saturating_sub(start);
                let is_plain = is_even && !(is_feed && at > 0 && bytes.get(at - 1) == Some(&b'\r'));
                self.lines.push(Line { start, is_plain })?;
                start = next;
                before = units;
            }
        }
        let is_plain = false;
        self.lines.push(Line { start, is_plain })?;
        Ok(())
    }

    /// The position of an offset in bytes. One beyond the end of the text is its end, one inside of a character is where the character
    /// begins, and one inside of a `\r\n` is where that begins.
    pub fn position_of(&self, offset: usize) -> Position {
        let offset = self.text.floor_char_boundary(offset);
        let line = self.line_of(offset);
        let character = match self.lines.get(line) {
            Some(Line { start, is_plain }) if *is_plain => offset.saturating_sub(*start),
            Some(Line { start, .. }) => self.units_between(*start, offset),
            None => 0,
        };
        Position { line, character }
    }

    /// The range between two offsets, found soonest if it begins where the last one did, or soon after that.
    pub fn range_of(&mut self, start: usize, end: usize) -> Range {
        let start = self.position_of(start);
        self.near = start.line;
        Range {
            start,
            end: self.position_of(end),
        }
    }

    // How many units are between a line's start and an offset, or a `\r\n` that it is inside of.
    fn units_between(&self, start: usize, offset: usize) -> usize {
        let bytes = self.text.as_bytes();
        let is_inside = offset > start
            && bytes.get(offset) == Some(&b'\n')
            && bytes.get(offset - 1) == Some(&b'\r');
        let offset = offset.saturating_sub(usize::from(is_inside));
        self.units_before(offset)
            .saturating_sub(self.units_before(start))
    }

    // The line that an offset is on.
    fn line_of(&self, offset: usize) -> usize {
        for line in self.near..self.near.saturating_add(NEAR) {
            if self.is_on(line, offset) {
                return line;
            }
        }
        self.lines
            .partition_point(|line| line.start <= offset)
            .saturating_sub(1)
    }

    // Whether an offset is on this line.
    fn is_on(&self, line: usize, offset: usize) -> bool {
        let next = self.lines.get(line.saturating_add(1));
        match (self.lines.get(line), next) {
            (Some(line), Some(next)) => line.start <= offset && offset < next.start,
            _ => false,
        }
    }

    // How many units are before an offset.
    fn units_before(&self, offset: usize) -> usize {
        let bytes = self.text.as_bytes();
        let (parts, _) = bytes.as_chunks::<STEP>();
        let index = offset / STEP;
        let passed = offset % STEP;
        let units = match parts.get(index) {
            Some(part) if is_ascii(part) => passed,
            _ => units_in(
                self.encoding,
                bytes.get(offset - passed..offset).unwrap_or(&[]),
            ),
        };
        let before = self.marks.get(index).copied().unwrap_or(0);
        before.saturating_add(units)
    }
}

/// Where a text begins.
pub const START: Position = Position {
    line: 0,
    character: 0,
};

// How many units are before each STEPth byte of a text.
fn marks_of(alloc: Global, encoding: Encoding, bytes: &[u8]) -> Result<Vec<usize>, AllocError> {
    let (parts, _) = bytes.as_chunks::<STEP>();
    let mut marks = Vec::with_capacity(alloc, bytes.len() / STEP + 1)?;
    let mut before = 0usize;
    for part in parts {
        marks.push(before)?;
        let units = if is_ascii(part) {
            STEP
        } else {
            units_in(encoding, part)
        };
        before = before.saturating_add(units);
    }
    marks.push(before)?;
    Ok(marks)
}

// Whether each of these bytes is a character.
fn is_ascii(part: &[u8; STEP]) -> bool {
    u64::from_le_bytes(*part) & NOT_ASCII == 0
}

// How many units a part of a text has. Those of a character are counted with its first byte, unless bytes are counted.
fn units_in(encoding: Encoding, part: &[u8]) -> usize {
    let mut count = 0usize;
    for byte in part {
        let units = match (encoding, *byte) {
            (Encoding::Utf8, _) => 1,
            (_, 0x80..=0xbf) => 0,
            (Encoding::Utf16, 0xf0..=0xff) => 2,
            _ => 1,
        };
        count = count.saturating_add(units);
    }
    count
}

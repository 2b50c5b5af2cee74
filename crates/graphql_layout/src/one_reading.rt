//! Block strings whose value the specification and this parser agree on. They differ on a line that is shorter than the common
//! indent: the specification (GraphQL October 2021, section 2.9.4) leaves nothing of it, and this parser leaves it as it is.

ghost use Rattle.std.specs.Prelude.{◌≡◌, ◌-◌, ◌&&◌, false, true, length, slice_index};
ghost use Rattle.std.specs.Str.{chars};
ghost use Rattle.graphql_tokens.specs.tokens.BlockText.{is_blank, is_blank_char};
ghost use Rattle.graphql_layout.specs.inner.Scans as scans;
ghost use Rattle.graphql_layout.specs.texts.OneReading as spec;

use crate::comments::{ends_in_blank, split_line};

// What is known of a block string's lines up to a character.
#[derive(Clone, Copy)]
struct Scan {
    // The least indent of the lines after the first, up to there.
    indent: usize,
    // How many blanks the line has fewer than that; 0 in the first line, and in one that has a text.
    left: usize,
    // Whether a line has a text.
    has_text: bool,
    // Whether, since the last text, a line had a blank and fewer than the indent.
    is_pending: bool,
    // Whether a text came after such a line.
    is_cut: bool,
}

impl Scan {
    // At the end of a line.
    fn at_line_end(self) -> Scan
        ensures { result ≡ scans.at_line_end self }
    {
        let is_short = self.has_text && 0 < self.left && self.left < self.indent;
        Scan {
            left: self.indent,
            is_pending: self.is_pending || is_short,
            ..self
        }
    }

    // After one more character.
    fn after(self, c: char) -> Scan
        ensures { result ≡ scans.step self c }
    {
        match c {
            '\n' | '\r' => self.at_line_end(),
            '\t' | ' ' => Scan {
                left: self.left.saturating_sub(1),
                ..self
            },
            _ => Scan {
                indent: self.indent.saturating_sub(self.left),
                left: 0,
                has_text: true,
                is_pending: false,
                is_cut: self.is_cut || self.is_pending,
            },
        }
    }
}

// All of it. No line after the first has a larger indent than this.
fn scan_lines(raw: &str, most: usize) -> Scan
    ensures { result ≡ scans.scan most (chars raw.now) }
{
    let mut scan = Scan {
        indent: most,
        left: 0,
        has_text: false,
        is_pending: false,
        is_cut: false,
    };
    for c in raw.chars() {
        scan = scan.after(c);
    }
    scan
}

fn is_blank(line: &str) -> bool
    ensures { result ≡ is_blank (chars line.now) }
{
    line.chars().all(|c| c == '\t' || c == ' ')
}

// Whether it is tabs and spaces alone, and one at least. Most lines don't end in one.
fn holds_blanks(line: &str) -> bool
    ensures { result ≡ (is_blank_char (slice_index line.now (length line.now - 1)) && is_blank (chars line.now)) }
{
    ends_in_blank(line) && is_blank(line)
}

// Whether a line is blank that isn't empty, but for the last.
fn has_blank_line(raw: &str) -> bool
    ensures { result ≡ false → scans.has_blank_line true false (chars raw.now) ≡ false }
{
    let mut text = raw;
    'lines: loop {
        let (line, rest) = split_line(text);
        if rest.is_empty() {
            return false;
        }
        if holds_blanks(line) {
            return true;
        }
        text = &rest[1..];
    }
}

/// Whether a block string with this text between its quotes has one value, by this parser and by the specification: between two
/// lines that have a text stands none after the first that has a blank, but fewer than the common indent. Most have no blank line
/// but empty ones.
pub fn has_one_reading(raw: &str) -> bool
    ensures { result ≡ spec.has_one_reading raw.now }
{
    !has_blank_line(raw) || !scan_lines(raw, scan_lines(raw, raw.len()).indent).is_cut
}

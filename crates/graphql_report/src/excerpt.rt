//! The line of a place, with a caret under it.
ghost use Rattle.std.specs.Prelude.{◌≡◌, ◌++◌, map, OnOk, string_bytes};
ghost use Rattle.std.specs.Str.{chars, encode_utf8_all};
ghost use Rattle.graphql_tokens.specs.tokens.Place.{is_line_end as ends_line};
ghost use Rattle.graphql_report.specs.reports.Words.{shown_for, turns_text as turns_its_text};

use crate::refused::{after, before};
use crate::style::{Part, Style};
use std::alloc::{AllocError, Global};
use unicode_width::UnicodeWidthChar;

// A longer line is cut: so many columns of it are shown before the place, and so many from the place on.
const COLUMNS_BEFORE: usize = 72;

const COLUMNS_AFTER: usize = 48;

// What stands where a line is cut.
const CUT: &str = "...";

/// Whether a line ends with the character.
pub fn is_line_end(c: char) -> bool
    ensures { result ≡ ends_line c }
{
    c == '\n' || c == '\r'
}

// Whether a terminal takes the character as an order to write the other way round.
fn turns_text(c: char) -> bool
    ensures { result ≡ turns_its_text c }
{
    matches!(c, '\u{61c}' | '\u{200e}' | '\u{200f}')
        || ('\u{202a}'..='\u{202e}').contains(&c)
        || ('\u{2066}'..='\u{2069}').contains(&c)
}

/// What is shown for a character: a control character other than a tab would upset a terminal, as would one that turns
/// the direction of the text.
pub fn shown(c: char) -> char
    ensures { result ≡ shown_for c }
{
    if c.is_control() && c != '\t' || turns_text(c) {
        char::REPLACEMENT_CHARACTER
    } else {
        c
    }
}

// The columns that a character takes. A tab counts one; it is copied and not counted where a caret is put.
fn columns(c: char) -> usize {
    shown(c).width().unwrap_or(1)
}

// Where the last part of the text begins that takes at most so many columns.
fn last_part(text: &str, most: usize) -> usize {
    let mut width = 0usize;
    let mut start = text.len();
    for c in text.chars().rev() {
        width = width.saturating_add(columns(c));
        if width > most {
            break;
        }
        start = start.saturating_sub(c.len_utf8());
    }
    start
}

// Where the first part of the text ends that takes at most so many columns.
fn first_part(text: &str, most: usize) -> usize {
    let mut width = 0usize;
    for (offset, c) in text.char_indices() {
        width = width.saturating_add(columns(c));
        if width > most {
            return offset;
        }
    }
    text.len()
}

/// The line in which this offset lies, after its number, and below it a caret under the offset.
pub fn excerpt_of(
    alloc: Global,
    style: Style,
    text: &str,
    line: usize,
    offset: usize,
) -> Result<String, AllocError> {
    let front = before(text, offset);
    let back = after(text, offset);
    let front = front.rsplit(is_line_end).next().unwrap_or(front);
    let back = back.split(is_line_end).next().unwrap_or(back);
    let start = last_part(front, COLUMNS_BEFORE);
    let end = first_part(back, COLUMNS_AFTER);
    let left = after(front, start);
    let right = before(back, end);
    let mut out = format!(in alloc; " {line} | ")?;
    let width = out.len();
    if start > 0 {
        out.push_str(CUT)?;
    }
    push_shown(&mut out, left)?;
    push_shown(&mut out, right)?;
    if end < back.len() {
        out.push_str(CUT)?;
    }
    out.push('\n')?;
    for _ in 2..width {
        out.push(' ')?;
    }
    out.push_str("| ")?;
    if start > 0 {
        out.push_str("   ")?;
    }
    push_padding(&mut out, left)?;
    style.push(&mut out, Part::Caret, "^")?;
    out.push('\n')?;
    Ok(out)
}

/// Adds a text as it is shown.
pub fn push_shown(out: &mut String, text: &str) -> Result<(), AllocError>
    ensures { OnOk result (string_bytes out.new ≡
        string_bytes out.old ++ encode_utf8_all (map shown_for (chars text.now))) }
{
    for c in text.chars() {
        out.push(shown(c))?;
    }
    Ok(())
}

// Blanks as wide as the text; a tab stays a tab.
fn push_padding(out: &mut String, text: &str) -> Result<(), AllocError> {
    for c in text.chars() {
        if c == '\t' {
            out.push(c)?;
        } else {
            for _ in 0..columns(c) {
                out.push(' ')?;
            }
        }
    }
    Ok(())
}

//! The lines of a block string.

ghost use Rattle.std.specs.Prelude.{◌≡◌, ◌≤◌, ◌<◌, ◌+◌, ◌-◌, ◌++◌, ◌∷◌, [], false, true, nat_lt, min, if◌then◌else◌, take, drop, length, slice_index, IfSome, MatchOption, OnOk, OnErr, string_bytes};
ghost use Rattle.graphql_memory.specs.Memory.{Refused};
ghost use Rattle.std.specs.String.{string_capacity};
ghost use Rattle.std.specs.List.{prefix_len};
ghost use Rattle.std.specs.Str.{IsUtf8, IsCharBoundary};
ghost use Rattle.graphql_tokens.specs.tokens.Place as place;
ghost use Rattle.graphql_tokens.specs.tokens.BlockText as spec;
ghost use Rattle.graphql_tokens.specs.inner.Blocks.{is_space as is_space_char, end_len, counted, indent_with, trimmed, written, first_line, StartsText, EndsText, IsPlainBetween, IsUnquotedBetween, IsOneLine};

use super::byte;
use super::runs::{Blanks, ByteClass, LineBytes, UnquotedBytes, past_run};
use graphql_memory::Memory;
use memchr::{memchr, memchr2};
use std::alloc::AllocError;

#[inline(always)]
fn is_space(b: u8) -> bool
    ensures { result ≡ is_space_char b }
{
    Blanks::has(b) || !LineBytes::has(b)
}

// Whether `\"""` begins at `at`.
#[inline(always)]
fn begins_quotes(bytes: &[u8], at: usize) -> bool
    requires { at < length bytes.now }
    ensures { result ≡ spec.begins_quotes (drop at bytes.now) }
{
    bytes[at] == b'\\'
        && byte(bytes, at + 1) == b'"'
        && byte(bytes, at + 2) == b'"'
        && byte(bytes, at + 3) == b'"'
}

// Where the line ends.
fn past_line(bytes: &[u8], start: usize) -> usize
    requires { start ≤ length bytes.now }
    ensures value { result ≡ start + prefix_len place.is_in_line (drop start bytes.now) }
    ensures within { result ≤ length bytes.now }
{
    past_run::<LineBytes>(bytes, start)
}

// Where the tabs and spaces end.
fn past_blanks(bytes: &[u8], start: usize) -> usize
    requires { start ≤ length bytes.now }
    ensures value { result ≡ start + prefix_len spec.is_blank_char (drop start bytes.now) }
    ensures within { result ≤ length bytes.now }
{
    past_run::<Blanks>(bytes, start)
}

// Where the next line begins, if a line ends at `end`.
fn next_line(bytes: &[u8], end: usize) -> usize
    requires { end < length bytes.now }
    ensures value { result ≡ end + end_len (drop end bytes.now) }
    ensures after { end < result }
    ensures within { result ≤ length bytes.now }
{
    if bytes[end] == b'\r' && byte(bytes, end + 1) == b'\n' {
        end + 2
    } else {
        end + 1
    }
}

// Where the first line begins that isn't blank.
pub fn first_text(bytes: &[u8]) -> Option<usize>
    requires { IsUtf8 bytes.now }
    ensures { MatchOption result (spec.from_text (spec.lines_of bytes.now) ≡ [])
        (λ at. StartsText bytes.now at) }
{
    let mut start = 0;
    loop {
        let text = past_blanks(bytes, start);
        if text == bytes.len() {
            return None;
        }
        if LineBytes::has(bytes[text]) {
            return Some(start);
        }
        start = next_line(bytes, text);
    }
}

// Where the last line ends that isn't blank. The first is none of these.
pub fn last_text(bytes: &[u8]) -> usize
    requires utf8 { IsUtf8 bytes.now }
    requires text { spec.is_blank (first_line (spec.lines_of bytes.now)) ≡ false }
    ensures { EndsText bytes.now result }
{
    let mut end = bytes.len();
    while end > 0 && is_space(bytes[end - 1]) {
        end -= 1;
    }
    past_line(bytes, end)
}

// The least indent, with one line more: it counts where it isn't blank, and `counts` says so.
fn next_indent(found: Option<usize>, counts: bool, blanks: usize, len: usize) -> Option<usize>
    ensures { result ≡ indent_with found counts blanks len }
{
    if !counts || blanks == len {
        return found;
    }
    match found {
        None => Some(blanks),
        Some(least) => Some(least.min(blanks)),
    }
}

// The common indent of the lines that count: the first line does only where `counts_first` says so.
pub fn common_indent(bytes: &[u8], counts_first: bool) -> usize
    ensures { result ≡ spec.common_indent (counted counts_first (spec.lines_of bytes.now)) }
{
    let mut found = None;
    let mut counts = counts_first;
    let mut start = 0;
    'lines: loop {
        let text = past_blanks(bytes, start);
        let end = past_line(bytes, text);
        found = next_indent(found, counts, text - start, end - start);
        if end == bytes.len() {
            return found.unwrap_or(0);
        }
        start = next_line(bytes, end);
        counts = true;
    }
}

// Whether the text is its own value but for its indent: neither a carriage return nor a backslash is there.
pub fn is_plain(bytes: &[u8]) -> bool
    ensures { result ≡ true → IsPlainBetween bytes.now 0 (length bytes.now) }
{
    memchr2(b'\\', b'\r', bytes).is_none()
}

// Where the next `\"""` begins, or the end.
fn next_quotes(bytes: &[u8], start: usize) -> usize
    requires { start ≤ length bytes.now }
    ensures from { start ≤ result }
    ensures within { result ≤ length bytes.now }
    ensures none { IsUnquotedBetween bytes.now start result }
    ensures here { result < length bytes.now → spec.begins_quotes (drop result bytes.now) ≡ true }
{
    let mut at = start;
    while let Some(len) = memchr(b'\\', &bytes[at..]) {
        at += len;
        if begins_quotes(bytes, at) {
            return at;
        }
        at += 1;
    }
    bytes.len()
}

// Adds the text, with each `\"""` as `"""`.
fn push_unquoted(memory: &mut Memory, value: &mut String, text: &str) -> Result<(), AllocError>
    requires { length (string_bytes value.old) + length text.now ≤ string_capacity value.old }
    ensures value { OnOk result (string_bytes value.new ≡ string_bytes value.old ++
        spec.unquoted text.now) }
    ensures capacity { string_capacity value.old ≤ string_capacity value.new }
    ensures free { memory.new ≡ memory.old }
    ensures refused { OnErr result (Refused memory.new) }
{
    let bytes = text.as_bytes();
    let mut at = 0;
    loop {
        let end = next_quotes(bytes, at);
        memory.push_text(value, &text[at..end])?;
        if end == bytes.len() {
            return Ok(());
        }
        at = end + 1;
    }
}

// The line without its indent: at most so many tabs and spaces. A shorter line stays as it is.
fn dedented(line: &str, indent: usize) -> &str
    ensures trimmed { result.now ≡ trimmed indent line.now }
    ensures fits { length result.now ≤ length line.now }
{
    if line.len() < indent {
        return line;
    }
    &line[past_blanks(line.as_bytes(), 0).min(indent)..]
}

// The value of the text, if it is one line in which no backslash stands, and not blank. Its indent goes where
// `loses_indent` says so.
pub fn one_line(text: &str, loses_indent: bool) -> Option<&str>
    ensures line { IfSome result (λ line.
        IsOneLine loses_indent text.now line.now) }
    ensures fits { IfSome result (λ line. length line.now ≤ length text.now) }
{
    let bytes = text.as_bytes();
    let blanks = past_blanks(bytes, 0);
    if blanks == bytes.len() || past_run::<UnquotedBytes>(bytes, 0) < bytes.len() {
        return None;
    }
    Some(dedented(text, if loses_indent { blanks } else { 0 }))
}

// Where the line from `at` to `end` goes on after its indent, if it has tabs and spaces up to `blanks`. A shorter line keeps
// them.
#[inline(always)]
fn past_indent(at: usize, blanks: usize, end: usize, indent: usize) -> usize
    requires { at ≤ end }
    ensures { result ≡ (if nat_lt (end - at) indent then at else min blanks (at + indent)) }
{
    if end - at < indent {
        return at;
    }
    blanks.min(at + indent)
}

// Adds the line from `from` to `end`, and a line feed if another line comes. In a plain text it goes as it stands, with the line
// feed that ends it.
#[inline(always)]
fn push_line(
    memory: &mut Memory,
    value: &mut String,
    text: &str,
    from: usize,
    end: usize,
    is_plain: bool,
) -> Result<(), AllocError>
    requires order { from ≤ end }
    requires within { end ≤ length text.now }
    requires starts { IsCharBoundary text.now from }
    requires ends { end < length text.now → place.is_in_line (slice_index text.now end) ≡ false }
    requires plain { is_plain ≡ true → IsPlainBetween text.now 0 (length text.now) }
    requires room { length (string_bytes value.old) + (length text.now - from) ≤ string_capacity value.old }
    ensures value { OnOk result (string_bytes value.new ≡ string_bytes value.old ++
        (spec.unquoted (take (end - from) (drop from text.now)) ++
        (if nat_lt end (length text.now) then 10 ∷ [] else []))) }
    ensures capacity { string_capacity value.old ≤ string_capacity value.new }
    ensures free { memory.new ≡ memory.old }
    ensures refused { OnErr result (Refused memory.new) }
{
    let bytes = text.as_bytes();
    if is_plain {
        if end < bytes.len() {
            return memory.push_text(value, &text[from..end + 1]);
        }
        return memory.push_text(value, &text[from..end]);
    }
    push_unquoted(memory, value, &text[from..end])?;
    if end < bytes.len() {
        return memory.push_char(value, '\n');
    }
    Ok(())
}

// Adds the lines of the text, joined by line feeds and without their indent, which is `first_indent` for
// the first of them. In a text that `is_plain` neither a carriage return nor `\"""` stands.
pub fn push_lines(
    memory: &mut Memory,
    value: &mut String,
    text: &str,
    first_indent: usize,
    indent: usize,
    is_plain: bool,
) -> Result<(), AllocError>
    requires plain { is_plain ≡ true → IsPlainBetween text.now 0 (length text.now) }
    requires room { length (string_bytes value.old) + length text.now ≤ string_capacity value.old }
    ensures value { OnOk result (string_bytes value.new ≡ string_bytes value.old ++
        written first_indent indent (spec.lines_of text.now)) }
    ensures free { memory.new ≡ memory.old }
    ensures refused { OnErr result (Refused memory.new) }
{
    let bytes = text.as_bytes();
    let mut at = 0;
    let mut here = first_indent;
    'lines: loop {
        let blanks = past_blanks(bytes, at);
        let end = past_line(bytes, blanks);
        let from = past_indent(at, blanks, end, here);
        push_line(memory, value, text, from, end, is_plain)?;
        if end == bytes.len() {
            return Ok(());
        }
        at = next_line(bytes, end);
        here = indent;
    }
}

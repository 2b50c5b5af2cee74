//! Block strings that are written from their values.

ghost use Rattle.std.specs.Prelude.{◌≡◌, ◌≢◌, ◌++◌, [], ◌∷◌, ◌<◌, List, false, true, nat_lt, length, replicate, IfOk, OnOk, string_bytes};
ghost use Rattle.std.specs.Str.{chars, encode_utf8_all};
ghost use Rattle.graphql_tokens.specs.tokens.Alike.{inside, value_of_block};
ghost use Rattle.graphql_tokens.specs.tokens.BlockText.{is_blank_char};
ghost use Rattle.graphql_tokens.specs.tokens.Proper.{Spells};
ghost use Rattle.graphql_tokens.specs.declared.lexer.TokenKind.TheVariants as kinds;
ghost use Rattle.graphql_layout.specs.declared.line_ends.LineBreak.{LineBreak};
ghost use Rattle.graphql_layout.specs.texts.Blocks as spec;
ghost use Rattle.graphql_layout.specs.inner.Marks.{BeginsWithMark, IsMarked};
ghost use Rattle.graphql_layout.specs.texts.Shortened as short;
ghost use Rattle.graphql_layout.specs.texts.Specified.{HasSpecifiedValue};

use crate::line_ends::LineBreak;
use crate::one_reading::has_one_reading;
use graphql_tokens::text::block_string_value;
use memchr::memchr3;
use std::alloc::{AllocError, Global};

// How many characters may stand right between the quotes. GraphQL.js counts those past U+FFFF twice.
const INLINE_LENGTH: usize = 70;

fn is_blank(c: char) -> bool
    ensures { result ≡ is_blank_char c }
{
    c == '\t' || c == ' '
}

fn has(value: &str, wanted: char) -> bool
    ensures { result ≡ short.has wanted (chars value.now) }
{
    value.chars().any(|c| c == wanted)
}

fn begins_blank(value: &str) -> bool
    ensures { result ≡ spec.begins_blank (chars value.now) }
{
    match value.chars().next() {
        Some(c) => is_blank(c),
        None => false,
    }
}

// Whether it is a quote or a backslash.
fn is_mark(c: char) -> bool
    ensures { result ≡ short.is_mark c }
{
    c == '"' || c == '\\'
}

// Whether the last character is a quote or a backslash.
fn ends_in_mark(value: &str) -> bool
    ensures { result ≡ spec.ends_in_mark false (chars value.now) }
{
    let mut ends = false;
    for c in value.chars() {
        ends = is_mark(c);
    }
    ends
}

fn is_long(value: &str) -> bool
    ensures { result ≡ nat_lt 70 (length (chars value.now)) }
{
    value.chars().count() > INLINE_LENGTH
}

// Whether a value of one line is longer than the line of its quotes may be, or closing quotes may not come right after it.
fn is_wide(value: &str) -> bool
    ensures { result ≡ spec.is_wide (chars value.now) }
{
    is_long(value) || ends_in_mark(value)
}

// Whether the value begins on a line below the opening quotes, and whether the closing ones are on a line of their own.
fn places(value: &str) -> (bool, bool)
    ensures { result ≡ (spec.leads (chars value.now), spec.trails (chars value.now)) }
{
    if has(value, '\n') {
        (true, true)
    } else if !is_wide(value) {
        (false, false)
    } else {
        (!begins_blank(value), true)
    }
}

// Whether it is neither a blank nor a line feed.
fn is_text(c: char) -> bool
    ensures { result ≡ short.is_text c }
{
    !(is_blank(c) || c == '\n')
}

// Whether the first line isn't blank.
fn begins_in_text(value: &str) -> bool
    ensures { result ≡ spec.begins_in_text (chars value.now) }
{
    for c in value.chars() {
        if !is_blank(c) {
            return c != '\n';
        }
    }
    false
}

// Whether the line has a text after one more character, if it had one before or not.
fn text_after(before: bool, c: char) -> bool
    ensures { result ≡ spec.text_after before c }
{
    c != '\n' && (before || !is_blank(c))
}

// Whether the last line isn't blank.
fn ends_in_text(value: &str) -> bool
    ensures { result ≡ spec.ends_in_text false (chars value.now) }
{
    let mut has_text = false;
    for c in value.chars() {
        has_text = text_after(has_text, c);
    }
    has_text
}

// Whether a line begins with a text: the first too, if the value begins a line.
fn has_margin(value: &str, begins_line: bool) -> bool
    ensures { result ≡ short.has_margin begins_line (chars value.now) }
{
    let mut begins = begins_line;
    for c in value.chars() {
        if begins && is_text(c) {
            return true;
        }
        begins = c == '\n';
    }
    false
}

// Whether its lines are also those of a block string's value: none ends in a carriage return, the first and the last aren't
// blank, and where there are more than one, they have no indent in common.
fn keeps_lines(value: &str) -> bool
    ensures { result ≡ spec.may_be_block (chars value.now) }
{
    !has(value, '\r')
        && begins_in_text(value)
        && ends_in_text(value)
        && (!has(value, '\n') || has_margin(value, true))
}

/// Whether the block string that [`push_block`] writes has this value (GraphQL October 2021, section 2.9.4). Of the empty value it
/// says no, since `""` is as good.
pub fn may_be_block(value: &str) -> bool
    // The block string means the value,
    ensures means { result ≡ true → (line_break : LineBreak) →
        spec.HasValue (spec.spelled line_break value.now) value.now }
    // by the specification too,
    ensures as_specified { result ≡ true → (line_break : LineBreak) →
        HasSpecifiedValue (spec.spelled line_break value.now) value.now }
    // and that of a value that isn't empty does so only then.
    ensures only { (line_break : LineBreak) → value.now ≢ [] →
        spec.HasValue (spec.spelled line_break value.now) value.now → result ≡ true }
{
    keeps_lines(value)
}

// Writes a character so many times.
fn push_times(out: &mut String, c: char, count: usize) -> Result<(), AllocError>
    requires { c < 128 }
    ensures { OnOk result (string_bytes out.new ≡ string_bytes out.old ++ replicate count c) }
{
    for _ in 0..count {
        out.push(c)?;
    }
    Ok(())
}

// Ends a line, and indents the next.
fn push_break(out: &mut String, line_break: LineBreak) -> Result<(), AllocError>
    ensures { OnOk result (string_bytes out.new ≡ string_bytes out.old ++ spec.line_break line_break) }
{
    line_break.line_end.push(out)?;
    push_times(out, ' ', line_break.indent)
}

// Writes what stands for the line feed, the quotes or the backslash at the front of the text. It gives what is left of the text,
// and whether that is a quote or a backslash that closing quotes would be read with.
fn push_mark<'a>(
    out: &mut String,
    text: &'a str,
    line_break: LineBreak,
) -> Result<(&'a str, bool), AllocError>
    requires { BeginsWithMark text.now }
    ensures { IfOk result (λ r. IsMarked line_break text.now r.0.now r.1 (string_bytes out.old) (string_bytes out.new)) }
{
    if text.as_bytes().starts_with(b"\"\"\"") {
        out.push_str("\\\"\"\"")?;
        return Ok((&text[3..], false));
    }
    let (mark, rest) = text.split_at(1);
    if mark.as_bytes()[0] == b'\n' {
        push_break(out, line_break)?;
        return Ok((rest, false));
    }
    out.push_str(mark)?;
    Ok((rest, true))
}

// Writes the lines of a value, with a backslash before each `"""`. It gives whether closing quotes would be read with its last
// character.
fn push_body(out: &mut String, value: &str, line_break: LineBreak) -> Result<bool, AllocError>
    ensures written { OnOk result (string_bytes out.new ≡ string_bytes out.old
        ++ encode_utf8_all (spec.body line_break 0 (chars value.now))) }
    ensures ends { IfOk result (λ b. b ≡ short.is_open 0 false (chars value.now)) }
{
    let mut rest = value;
    let mut is_open = false;
    while let Some(at) = memchr3(b'\n', b'"', b'\\', rest.as_bytes()) {
        let (plain, marked) = rest.split_at(at);
        out.push_str(plain)?;
        let (after, opens) = push_mark(out, marked, line_break)?;
        rest = after;
        is_open = opens;
    }
    out.push_str(rest)?;
    Ok(is_open && rest.is_empty())
}

// Writes the quotes of a block string and the value. It gives whether closing quotes would be read with the value's last character.
fn push_front(
    out: &mut String,
    value: &str,
    leads: bool,
    line_break: LineBreak,
) -> Result<bool, AllocError>
    ensures written { OnOk result (string_bytes out.new ≡ string_bytes out.old ++ (spec.quotes 3
        ++ (spec.break_if leads line_break ++ encode_utf8_all (spec.body line_break 0 (chars value.now))))) }
    ensures ends { IfOk result (λ b. b ≡ short.is_open 0 false (chars value.now)) }
{
    out.push_str("\"\"\"")?;
    if leads {
        push_break(out, line_break)?;
    }
    push_body(out, value, line_break)
}

// Writes the quotes after the value.
fn push_back(out: &mut String, trails: bool, line_break: LineBreak) -> Result<(), AllocError>
    ensures { OnOk result (string_bytes out.new ≡ string_bytes out.old
        ++ (spec.break_if trails line_break ++ spec.quotes 3)) }
{
    if trails {
        push_break(out, line_break)?;
    }
    out.push_str("\"\"\"")
}

/// Writes a block string of the value, with this between each two of its lines.
///
/// It is laid out as GraphQL.js 16 prints a value that has no carriage return: on lines of its own, blank ones indented too. But
/// a value of one line and at most 70 characters, which ends in neither a quote nor a backslash, stands right between the quotes;
/// and any other of one line that begins with a blank, right after the first three. Each `"""` in it gets a backslash.
///
/// It fails only where memory runs out.
pub fn push_block(out: &mut String, value: &str, line_break: LineBreak) -> Result<(), AllocError>
    ensures written { OnOk result (string_bytes out.new ≡ string_bytes out.old
        ++ spec.spelled line_break value.now) }
    // It is a block string, whatever the value.
    ensures token { OnOk result (Spells kinds.Block (spec.spelled line_break value.now)) }
{
    let (leads, trails) = places(value);
    push_front(out, value, leads, line_break)?;
    push_back(out, trails, line_break)
}

// Whether the lines after the first would lose an indent, if the value stood right after the opening quotes.
fn is_hung(value: &str) -> bool
    ensures { result ≡ short.is_hung (chars value.now) }
{
    has(value, '\n') && !has_margin(value, false)
}

// Writes a block string of the value in few characters.
fn push_compact(out: &mut String, value: &str) -> Result<(), AllocError>
    ensures { OnOk result (string_bytes out.new ≡ string_bytes out.old ++ short.compact (chars value.now)) }
{
    let line_break = LineBreak::feed(0);
    let is_open = push_front(out, value, is_hung(value), line_break)?;
    push_back(out, is_open, line_break)
}

/// What stands between three quotes and three quotes.
pub fn inside_quotes(spelling: &str) -> &str
    requires { Spells kinds.Block spelling.now }
    ensures { result.now ≡ inside 3 spelling.now }
{
    let front = &spelling[..spelling.len() - 3];
    &front[3..]
}

/// Writes a block string that is spelled so in few characters, if these aren't more than it has: a line feed before the value only
/// where its lines would lose an indent without it, and one after it only where closing quotes would be read with its last
/// character (this project's choice: as GraphQL.js 16 does where it strips a text of ignored characters). One whose value the
/// specification and this parser don't agree on is written as it is spelled.
///
/// It fails only where memory runs out.
pub fn push_shortened(alloc: Global, out: &mut String, spelling: &str) -> Result<(), AllocError>
    requires { Spells kinds.Block spelling.now }
    ensures { OnOk result (string_bytes out.new ≡ string_bytes out.old
        ++ short.shortened_by kinds.Block spelling.now) }
{
    let raw = inside_quotes(spelling);
    if !has_one_reading(raw) {
        return out.push_str(spelling);
    }
    let value = block_string_value(alloc, raw)?;
    let mut written = String::with_capacity(alloc, spelling.len())?;
    push_compact(&mut written, &value)?;
    if written.len() > spelling.len() {
        out.push_str(spelling)
    } else {
        out.push_str(&written)
    }
}

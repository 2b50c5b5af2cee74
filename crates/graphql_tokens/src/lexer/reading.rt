//! Parts of tokens, and what stands between tokens. Each function moves the place past its part. One that gives a
//! `bool` says whether the part was there.

ghost use Rattle.std.specs.Prelude.{◌≡◌, ◌≢◌, ◌≤◌, ◌<◌, ◌+◌, true, false, [], MatchOption, drop, length};
ghost use Rattle.graphql_tokens.specs.inner.ByteClasses.{IsWithinLines, past_class, begins_mark};
ghost use Rattle.graphql_tokens.specs.inner.Reading.{skip, past_line, past_char, past_dots};
ghost use Rattle.graphql_tokens.specs.inner.Running.{ahead};
ghost use Rattle.graphql_tokens.specs.inner.Lexing.{RunsOver, IsFirstByte, Reads, rest_if};

use super::class::CharClass;
use crate::pos::running::RunningPlace;
use crate::text::byte as byte_at;
use crate::text::runs::{Blanks, ByteClass, InLine, LineBytes, past_run};

// The first byte of what is ahead, where the text goes on.
#[inline(always)]
pub fn peek(bytes: &[u8], places: &RunningPlace) -> Option<u8>
    requires { RunsOver bytes.now places.now }
    ensures { MatchOption result (ahead places.now ≡ []) (λ b. IsFirstByte b (ahead places.now)) }
{
    let at = places.offset();
    if at < bytes.len() {
        Some(bytes[at])
    } else {
        None
    }
}

// Whether a character is ahead.
#[inline(always)]
pub fn has_more(bytes: &[u8], places: &RunningPlace) -> bool
    requires { RunsOver bytes.now places.now }
    ensures more { result ≡ true → ahead places.now ≢ [] }
    ensures end { result ≡ false → ahead places.now ≡ [] }
{
    places.offset() < bytes.len()
}

// Goes past the characters of a class of ASCII characters that end no line.
#[inline(always)]
pub fn pass_class<C: ByteClass>(bytes: &[u8], places: &mut RunningPlace)
    requires runs { RunsOver bytes.now places.old }
    requires within { IsWithinLines C.has }
    ensures runs { RunsOver bytes.now places.new }
    ensures rest { ahead places.new ≡ past_class C.has (ahead places.old) }
    ensures no_more { length (ahead places.new) ≤ length (ahead places.old) }
    ensures forward { places.old.walk.offset ≤ places.new.walk.offset }
{
    let start = places.offset();
    let end = past_run::<C>(bytes, start);
    places.pass_run(end - start);
}

// Goes past a `Comment`, or what is left of it, and the character that ends its line, wherever the text ends. It is for a
// comment at the end of the text, whose characters count for the place of the end, and never inlined. Within it the place
// has no address, and so it stays in registers.
#[inline(never)]
fn pass_last_line(bytes: &[u8], places: &mut RunningPlace)
    requires { RunsOver bytes.now places.old }
    ensures runs { RunsOver bytes.now places.new }
    ensures rest { ahead places.new ≡ past_line (ahead places.old) }
    ensures forward { places.old.walk.offset ≤ places.new.walk.offset }
{
    let mut own = *places;
    while has_more(bytes, &own) {
        let c = own.pass();
        if c == '\n' || c == '\r' {
            break;
        }
        pass_class::<InLine>(bytes, &mut own);
    }
    *places = own;
}

// Goes past a `Comment`, and the character that ends its line.
#[inline(always)]
fn pass_comment(bytes: &[u8], places: &mut RunningPlace)
    requires { RunsOver bytes.now places.old }
    ensures runs { RunsOver bytes.now places.new }
    ensures rest { ahead places.new ≡ past_line (ahead places.old) }
    ensures forward { places.old.walk.offset ≤ places.new.walk.offset }
{
    let end = past_run::<LineBytes>(bytes, places.offset());
    if end < bytes.len() {
        places.pass_line(end, bytes[end]);
        return;
    }
    // A copy is handed over, so that the caller's own place has no address and stays in registers.
    let mut after = *places;
    pass_last_line(bytes, &mut after);
    *places = after;
}

// Goes past the tabs and spaces with which a line begins. Many lines have none.
#[inline(always)]
fn pass_indent(bytes: &[u8], places: &mut RunningPlace)
    requires { RunsOver bytes.now places.old }
    ensures runs { RunsOver bytes.now places.new }
    ensures skipped { skip (ahead places.new) ≡ skip (ahead places.old) }
    ensures no_more { length (ahead places.new) ≤ length (ahead places.old) }
    ensures forward { places.old.walk.offset ≤ places.new.walk.offset }
{
    if let Some(b) = peek(bytes, places)
        && Blanks::has(b)
    {
        pass_class::<Blanks>(bytes, places);
    }
}

// Whether U+FEFF begins at `at`. Never inlined: it is rare.
#[inline(never)]
fn is_mark(bytes: &[u8], at: usize) -> bool
    requires { at < length bytes.now }
    ensures { result ≡ begins_mark (drop at bytes.now) }
{
    bytes[at] == 0xEF && byte_at(bytes, at + 1) == 0xBB && byte_at(bytes, at + 2) == 0xBF
}

// Goes past `Ignored*`, where `Ignored : UnicodeBOM | WhiteSpace | LineTerminator | Comment | Comma`.
#[inline(always)]
pub fn pass_ignored(bytes: &[u8], places: &mut RunningPlace)
    requires { RunsOver bytes.now places.old }
    ensures runs { RunsOver bytes.now places.new }
    ensures rest { ahead places.new ≡ skip (ahead places.old) }
    ensures forward { places.old.walk.offset ≤ places.new.walk.offset }
{
    while let Some(b) = peek(bytes, places) {
        if b == b' ' {
            places.pass_ascii();
        } else if CharClass::EndsIgnored.has(b) {
            break;
        } else if b == b'\n' {
            places.pass_line_end(b'\n');
            pass_indent(bytes, places);
        } else if b == b'\r' {
            // Lines are counted at line feeds: this begins the columns anew.
            places.pass_line_end(b'\r');
        } else if b == b'#' {
            // The blanks of the next line are passed one by one: where a run of sixteen bytes begins is known only
            // after the run before it, so two in a row take longer than a few predicted branches.
            pass_comment(bytes, places);
        } else if b < 0x80 {
            // A tab or a comma.
            places.pass_ascii();
        } else if is_mark(bytes, places.offset()) {
            places.pass_mark();
        } else {
            break;
        }
    }
}

// Goes past this character, an ASCII one that ends no line, where it is next, and returns whether it was.
#[inline(always)]
pub fn pass_char(bytes: &[u8], places: &mut RunningPlace, c: u8) -> bool
    requires runs { RunsOver bytes.now places.old }
    requires ascii { c < 128 }
    requires in_line { 13 < c }
    ensures runs { RunsOver bytes.now places.new }
    ensures rest { past_char c (ahead places.old) ≡ rest_if result (ahead places.new) }
    ensures stays { result ≡ false → ahead places.new ≡ ahead places.old }
    ensures forward { places.old.walk.offset ≤ places.new.walk.offset }
{
    let Some(b) = peek(bytes, places) else {
        return false;
    };
    if b != c {
        return false;
    }
    places.pass_ascii();
    true
}

// Goes past the second and the third dot of `...`.
#[inline(always)]
pub fn pass_dots(bytes: &[u8], places: &mut RunningPlace) -> bool
    requires { RunsOver bytes.now places.old }
    ensures { Reads past_dots bytes.now places.old result places.new }
{
    pass_char(bytes, places, b'.') && pass_char(bytes, places, b'.')
}

//! Strings and block strings, after their opening quotes.

ghost use Rattle.std.specs.Prelude.{◌≡◌, ◌≤◌, length};
ghost use Rattle.graphql_tokens.specs.inner.Quoted.{past_string, past_block, IsRunOfQuotes};
ghost use Rattle.graphql_tokens.specs.inner.Running.{ahead};
ghost use Rattle.graphql_tokens.specs.inner.Lexing.{RunsOver, Reads};

use super::class::CharClass;
use super::reading::{pass_char, pass_class, peek};
use crate::pos::running::RunningPlace;
use crate::text::escape::escape_at;
use crate::text::runs::PlainAscii;

// Passes the plain ASCII characters that follow.
#[inline(always)]
fn pass_plain_ascii(bytes: &[u8], places: &mut RunningPlace)
    requires { RunsOver bytes.now places.old }
    ensures runs { RunsOver bytes.now places.new }
    ensures string { past_string (ahead places.new) ≡ past_string (ahead places.old) }
    ensures block { past_block (ahead places.new) ≡ past_block (ahead places.old) }
    ensures no_more { length (ahead places.new) ≤ length (ahead places.old) }
    ensures forward { places.old.walk.offset ≤ places.new.walk.offset }
{
    pass_class::<PlainAscii>(bytes, places);
}

// Passes the content of a string and its closing quote, and returns whether both were there. No line end stands in it.
#[inline(always)]
pub fn pass_string(bytes: &[u8], places: &mut RunningPlace) -> bool
    requires { RunsOver bytes.now places.old }
    ensures { Reads past_string bytes.now places.old result places.new }
{
    while let Some(b) = peek(bytes, places) {
        if CharClass::PlainAscii.has(b) {
            places.pass_ascii();
            pass_plain_ascii(bytes, places);
        } else if CharClass::Plain.has(b) {
            places.pass_first(b);
        } else if b == b'"' {
            places.pass_ascii();
            return true;
        } else {
            let Some((_, len)) = escape_at(&bytes[places.offset()..]) else {
                return false;
            };
            places.pass_run(len);
        }
    }
    false
}

// Passes up to three quotes, and returns how many there were.
#[inline(always)]
fn pass_quotes(bytes: &[u8], places: &mut RunningPlace) -> usize
    requires { RunsOver bytes.now places.old }
    ensures runs { RunsOver bytes.now places.new }
    ensures quotes { IsRunOfQuotes result (ahead places.old) (ahead places.new) }
    ensures forward { places.old.walk.offset ≤ places.new.walk.offset }
{
    if !pass_char(bytes, places, b'"') {
        return 0;
    }
    if !pass_char(bytes, places, b'"') {
        return 1;
    }
    if !pass_char(bytes, places, b'"') {
        return 2;
    }
    3
}

// Passes the raw text of a block string and its closing quotes, and returns whether both were there. Quotes after a
// backslash are text, whether they are three, as in `\"""`, or fewer.
#[inline(always)]
pub fn pass_block(bytes: &[u8], places: &mut RunningPlace) -> bool
    requires { RunsOver bytes.now places.old }
    ensures { Reads past_block bytes.now places.old result places.new }
{
    while let Some(b) = peek(bytes, places) {
        if CharClass::PlainAscii.has(b) {
            places.pass_ascii();
            pass_plain_ascii(bytes, places);
        } else if b == b'"' {
            if pass_quotes(bytes, places) == 3 {
                return true;
            }
        } else if b == b'\n' {
            places.pass_line_end(b);
        } else {
            places.pass_first(b);
            if b == b'\\' {
                pass_quotes(bytes, places);
            }
        }
    }
    false
}

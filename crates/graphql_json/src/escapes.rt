//! Strings with escapes.
ghost use Rattle.std.specs.Prelude.{◌≡◌, ◌+◌, ◌<◌, ◌≤◌, [], ◌∷◌, ◌++◌, cond, length, take, OnOk};
ghost use Rattle.std.specs.Char.{digit_char};
ghost use Rattle.graphql_json.specs.buffer.Buffered.{Appends};
ghost use Rattle.json.specs.Print.{escape, escape_byte, escape_letter};

use crate::buffer::Buffer;
use crate::plain::plain_run;
use std::alloc::AllocError;

/// Writes a text in quotes, after a comma where one is wanted. Where memory is refused, nothing is written.
pub fn put_escaped(buffer: &mut Buffer, comma: bool, text: &[u8]) -> Result<(), AllocError>
    ensures { Appends result buffer.old.items buffer.new.items
        (cond comma (44 ∷ []) [] ++ 34 ∷ (escape text.now ++ 34 ∷ [])) }
{
    let start = buffer.len();
    buffer.make_room(text.len() + text.len() / 8)?;
    let written = put_runs(buffer, comma, text);
    if written.is_err() {
        buffer.cut(start);
    }
    written
}

// Each run of bytes that need no escape goes with what comes before it and the escape after it. Where memory is refused, some
// of it may be written.
fn put_runs(buffer: &mut Buffer, comma: bool, text: &[u8]) -> Result<(), AllocError>
    ensures ok { OnOk result (buffer.new.items
        ≡ buffer.old.items ++ (cond comma (44 ∷ []) [] ++ 34 ∷ (escape text.now ++ 34 ∷ []))) }
    ensures front { take (length buffer.old.items) buffer.new.items ≡ buffer.old.items }
{
    let mut comma = comma;
    let mut front: &[u8] = b"\"";
    let mut at = 0;
    loop {
        let end = at + plain_run(text, at);
        let run = &text[at..end];
        if end == text.len() {
            return buffer.put_run(comma, front, run, b"\"");
        }
        put_stopped(buffer, comma, front, run, text[end])?;
        comma = false;
        front = b"";
        at = end + 1;
    }
}

// A run, and a byte after it with its escape if it needs one.
#[tactic(auto, unfolding(json::specs::Print::escape_byte))]
fn put_stopped(
    buffer: &mut Buffer,
    comma: bool,
    front: &[u8],
    run: &[u8],
    byte: u8,
) -> Result<(), AllocError>
    requires { length front.now ≤ 64 }
    ensures { Appends result buffer.old.items buffer.new.items
        (cond comma (44 ∷ []) [] ++ (front.now ++ (run.now ++ escape_byte byte))) }
{
    let letter = letter(byte);
    if letter > 0 {
        return buffer.put_run(comma, front, run, &[b'\\', letter]);
    }
    if byte < 0x20 {
        let digits = [b'\\', b'u', b'0', b'0', hex(byte / 16), hex(byte % 16)];
        return buffer.put_run(comma, front, run, &digits);
    }
    buffer.put_run(comma, front, run, &[byte])
}

// The letter that stands for a byte after a backslash, or 0 for none.
fn letter(byte: u8) -> u8
    ensures { result ≡ escape_letter byte }
{
    match byte {
        b'"' => b'"',
        b'\\' => b'\\',
        8 => b'b',
        b'\t' => b't',
        b'\n' => b'n',
        12 => b'f',
        b'\r' => b'r',
        _ => 0,
    }
}

// A hexadecimal digit, in lower case.
fn hex(digit: u8) -> u8
    requires { digit < 16 }
    ensures { result ≡ digit_char digit }
{
    if digit < 10 {
        digit + b'0'
    } else {
        digit - 10 + b'a'
    }
}

//! Writing whole texts, and words as a terminal shows them.
ghost use Rattle.std.specs.Prelude.{◌≡◌, length, take};

use std::alloc::{AllocError, Global};
use std::io;
use std::io::{ErrorKind, Write};

/// Writes all of the bytes, and returns whether it could. That nobody reads them any more, as when `head` has its
/// lines, is no failure: what is left is then written to nobody.
pub fn put<W: Write>(to: &mut W, bytes: &[u8]) -> bool {
    match write_whole(to, bytes) {
        Ok(()) => true,
        Err(error) => error.kind() == ErrorKind::BrokenPipe,
    }
}

fn write_whole<W: Write>(to: &mut W, bytes: &[u8]) -> io::Result<()> {
    to.write_all(bytes)?;
    to.flush()
}

/// The whole lines with which a text begins: all of it, if its last line has an end.
pub fn whole_lines(text: &str) -> &str
    ensures { result.now ≡ take (length result.now) text.now }
{
    text.trim_end_matches(|c: char| c != '\n')
}

/// The name by which a file is reported.
pub fn reported_name(name: &str) -> &str {
    if name == "-" {
        "(standard input)"
    } else {
        name
    }
}

/// The same as a terminal shows it.
pub fn shown_name(alloc: Global, name: &str) -> Result<String, AllocError> {
    let mut shown = String::new(alloc);
    push_shown(&mut shown, reported_name(name))?;
    Ok(shown)
}

/// Adds a word from the command line, as a terminal shows it.
pub fn push_shown(out: &mut String, word: &str) -> Result<(), AllocError> {
    for c in word.chars() {
        push_visible(out, c)?;
    }
    Ok(())
}

/// Adds a character; one that a terminal obeys instead of showing it is written as its number, as `\u{1b}`.
pub fn push_visible(out: &mut String, c: char) -> Result<(), AllocError> {
    if is_shown(c) {
        return out.push(c);
    }
    for c in c.escape_unicode() {
        out.push(c)?;
    }
    Ok(())
}

// Whether a terminal shows the character: it is no control character, ends no line, and turns no direction of writing.
fn is_shown(c: char) -> bool {
    !c.is_control()
        && !matches!(
            c,
            '\u{61c}' | '\u{200e}' | '\u{200f}' | '\u{2028}'..='\u{202e}' | '\u{2066}'..='\u{2069}'
        )
}

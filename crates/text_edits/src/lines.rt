//! The lines of a text: where each begins, and what it contains.

ghost use Rattle.std.specs.Prelude.{◌≡◌, ◌==◌, MatchOption, slice_index};
ghost use Rattle.std.specs.Str.{chars};
ghost use Rattle.text_edits.specs.Lines.{content};
ghost use Rattle.text_edits.specs.Starts.{IsLastLine, IsNextLine, IsLineStart};

use memchr::memchr2;

/// Whether this byte is there, and is a line feed.
pub fn is_line_feed(bytes: &[u8], at: usize) -> bool
    ensures { result ≡ (slice_index bytes.now at == 10) }
{
    at < bytes.len() && bytes[at] == b'\n'
}

/// How many bytes the first line of the text has with its end, or `None` if it is the only one.
pub fn next_line(text: &str) -> Option<usize>
    ensures { MatchOption result (IsLastLine text.now) (λ n. IsNextLine text.now n) }
{
    let bytes = text.as_bytes();
    match memchr2(b'\n', b'\r', bytes) {
        None => None,
        Some(end) => {
            if bytes[end] == b'\n' {
                Some(end + 1)
            } else if is_line_feed(bytes, end + 1) {
                Some(end + 2)
            } else {
                Some(end + 1)
            }
        }
    }
}

/// The first line of the text, without its end.
pub fn first_line(text: &str) -> &str
    ensures { chars result.now ≡ content (chars text.now) }
{
    match memchr2(b'\n', b'\r', text.as_bytes()) {
        None => text,
        Some(end) => &text[..end],
    }
}

/// The byte at which a line begins, lines counted from 0, or the text's end if it has no such line.
pub fn line_start(text: &str, line: usize) -> usize
    ensures { IsLineStart text.now line result }
{
    let mut start = 0;
    for passed in 0..line {
        match next_line(&text[start..]) {
            None => return text.len(),
            Some(length) => start += length,
        }
    }
    start
}

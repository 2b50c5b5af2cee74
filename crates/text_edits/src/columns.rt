//! How many units the characters of a line take.

ghost use Rattle.std.specs.Prelude.{◌≡◌, ◌≤◌, length};
ghost use Rattle.std.specs.Str.{chars};
ghost use Rattle.text_edits.specs.Units.{units, width, fitting};

use crate::Encoding;

// How many units a character takes.
fn units(encoding: Encoding, c: char) -> usize
    ensures { result ≡ units encoding c }
{
    match encoding {
        Encoding::Utf8 => c.len_utf8(),
        Encoding::Utf16 => c.len_utf16(),
        Encoding::Utf32 => 1,
    }
}

/// How many units of `to` those characters take that fit in `count` units of `from`.
pub fn converted(text: &str, from: Encoding, count: usize, to: Encoding) -> usize
    ensures { result ≡ width to (fitting from count (chars text.now)) }
{
    let mut left = count;
    let mut converted = 0;
    for c in text.chars() {
        let wanted = units(from, c);
        if left < wanted {
            return converted;
        }
        left -= wanted;
        converted += units(to, c);
    }
    converted
}

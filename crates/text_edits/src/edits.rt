//! A text after a part of it is replaced.

ghost use Rattle.std.specs.Prelude.{◌≡◌, IfOk, max, string_bytes};
ghost use Rattle.std.specs.Str.{chars};
ghost use Rattle.text_edits.specs.Edits.{replaced};
ghost use Rattle.text_edits.specs.Positions.{offset_of};

use crate::positions::offset_of;
use crate::{Encoding, Range};
use std::alloc::{AllocError, Global};

/// The greater one.
pub(crate) fn later(start: usize, end: usize) -> usize
    ensures { result ≡ max start end }
{
    if start < end { end } else { start }
}

/// The text with `new` in the place of what is between two offsets in bytes: from `start` up to `end`.
///
/// An offset beyond the end of the text is its end, and one in the middle of a character is where the character begins. If the end
/// is before the start, nothing is taken out, and `new` is put in at the start (this project's choice).
///
/// It fails only where memory runs out.
pub fn replace(
    alloc: Global,
    text: &str,
    start: usize,
    end: usize,
    new: &str,
) -> Result<String, AllocError>
    ensures { IfOk result (λ s. chars (string_bytes s) ≡ replaced (chars text.now) start end (chars new.now)) }
{
    let (front, _) = text.split_at(text.floor_char_boundary(start));
    let (_, back) = text.split_at(text.floor_char_boundary(later(start, end)));
    let mut replaced = String::with_capacity(alloc, front.len() + new.len() + back.len())?;
    replaced.push_str(front)?;
    replaced.push_str(new)?;
    replaced.push_str(back)?;
    Ok(replaced)
}

/// The text with `new` in the place of what is in the range, whose columns are in units of the encoding (Language Server Protocol
/// 3.17, "TextDocumentContentChangeEvent").
///
/// Where the range begins and where it ends are as [`offset_of`] says. If the end is before the start, nothing is taken out, and
/// `new` is put in at the start (this project's choice).
///
/// It fails only where memory runs out.
pub fn apply(
    alloc: Global,
    text: &str,
    encoding: Encoding,
    range: Range,
    new: &str,
) -> Result<String, AllocError>
    ensures { IfOk result (λ s. chars (string_bytes s) ≡ replaced (chars text.now)
        (offset_of encoding text.now range.start) (offset_of encoding text.now range.end) (chars new.now)) }
{
    let start = offset_of(text, encoding, range.start);
    let end = offset_of(text, encoding, range.end);
    replace(alloc, text, start, end, new)
}

//! Where lines begin in a part of a text, in bytes.

ghost use Rattle.std.specs.Prelude.{◌≡◌, ℕ, ◌+◌, ◌-◌, ◌<◌, ◌≤◌, ◌^◌, ◌++◌, IfOk, OnOk, drop, length, map, slice_index, take};
ghost use Rattle.text_edits.specs.Lines.{ends_line};
ghost use Rattle.text_edits.specs.Starts.{starts_within, starts_from};

use crate::lines::is_line_feed;
use memchr::memchr2;
use std::alloc::{AllocError, Global};

// Whether a line ends with this byte, if these two parts come after it.
fn ends_line(byte: u8, part: &[u8], rest: &[u8]) -> bool
    ensures { result ≡ ends_line byte (part.now ++ rest.now) }
{
    let after = if part.is_empty() { rest } else { part };
    byte == b'\n' || (byte == b'\r' && !is_line_feed(after, 0))
}

/// Adds where lines begin after the line ends of a part of a text. The part begins at `start`, and `rest` comes after it.
pub fn push_starts(
    starts: &mut Vec<usize>,
    start: usize,
    part: &[u8],
    rest: &[u8],
) -> Result<(), AllocError>
    requires { start + length part.now < 2 ^ 64 }
    ensures { OnOk result (starts.new.items ≡ starts.old.items ++ starts_within start part.now rest.now) }
{
    let mut at = 0;
    while let Some(found) = memchr2(b'\n', b'\r', &part[at..]) {
        let end = at + found;
        at = end + 1;
        if ends_line(part[end], &part[at..], rest) {
            starts.push(start + at)?;
        }
    }
    Ok(())
}

/// Where lines begin from the end of `front` up to the end of `new`, in a text of these three parts.
pub fn starts_from(
    alloc: Global,
    front: &[u8],
    new: &[u8],
    back: &[u8],
) -> Result<Vec<usize>, AllocError>
    requires { length front.now + length new.now < 2 ^ 64 }
    ensures { IfOk result (λ starts. starts.items ≡ starts_from front.now new.now back.now) }
{
    let mut starts = Vec::new(alloc);
    let at = front.len();
    if at > 0 && ends_line(front[at - 1], new, back) {
        starts.push(at)?;
    }
    push_starts(&mut starts, at, new, back)?;
    Ok(starts)
}

/// Moves the starts of lines from the `first`th on, which are in what comes after a part of a text that was replaced: it ended at
/// `from`, and what stands there ends at `to`.
pub fn shift(starts: &mut [usize], first: usize, from: usize, to: usize)
    requires low { (k : ℕ) → first ≤ k → k < length starts.old → from ≤ slice_index starts.old k }
    requires high { (k : ℕ) → first ≤ k → k < length starts.old → to + (slice_index starts.old k - from) < 2 ^ 64 }
    ensures { starts.new ≡ take first starts.old ++ map (λ start. to + (start - from)) (drop first starts.old) }
{
    for at in first..starts.len() {
        starts[at] = to + (starts[at] - from);
    }
}

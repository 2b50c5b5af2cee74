//! A front with samples after it, of which the parsers are asked.
ghost use Rattle.std.specs.Prelude.{◌≡◌, [], ◌∷◌, ◌++◌, IfOk, IfSome, string_bytes};
ghost use Rattle.std.specs.Str.{chars};
ghost use Rattle.graphql_report.specs.fronts.Front.{LastIsLineFeed};
ghost use Rattle.graphql_report.specs.inner.Left.{IsLeftOf};
ghost use Rattle.graphql_report.specs.reports.Expected.{TellsFrontOf, TellsTreeOf, with_sample};

use crate::fronts::{Language, is_front, is_whole};
use crate::left::{can_end, can_go_on};
use crate::phrases::Phrase;
use graphql_parser::Limits;
use std::alloc::{AllocError, Global};

// How many bytes at least a text has room for after its line feed: no sample is longer, with a line feed after it.
const ROOM: usize = 16;

/// The front, and a line feed after it, since a comment may stand last.
pub fn line_of(alloc: Global, front: &str) -> Result<String, AllocError>
    ensures { IfOk result (λ line. string_bytes line ≡ front.now ++ 10 ∷ []) }
{
    let mut line = String::with_capacity(alloc, front.len().saturating_add(ROOM))?;
    line.push_str(front)?;
    line.push('\n')?;
    Ok(line)
}

/// Whether some document within the limits begins with this line and the sample after it. That is decided by what is
/// left after the line, if it is known, and else by a check.
pub fn takes(
    alloc: Global,
    language: Language,
    limits: Limits,
    line: &str,
    left: &Option<Vec<Phrase>>,
    sample: &str,
) -> Result<bool, AllocError>
    requires line { LastIsLineFeed (chars line.now) }
    requires left { IfSome left.now (λ left. IsLeftOf language limits line.now left.items) }
    ensures { IfOk result (TellsFrontOf language limits (with_sample line.now sample.now)) }
{
    if let Some(left) = left {
        if let Some(answer) = can_go_on(alloc, left.as_slice(), limits, sample)? {
            return Ok(answer);
        }
    }
    passes(alloc, language, limits, line, sample)
}

/// The same by a check.
pub fn passes(
    alloc: Global,
    language: Language,
    limits: Limits,
    line: &str,
    sample: &str,
) -> Result<bool, AllocError>
    requires { LastIsLineFeed (chars line.now) }
    ensures { IfOk result (TellsFrontOf language limits (with_sample line.now sample.now)) }
{
    let room = line.len().saturating_add(ROOM);
    let mut text = String::with_capacity(alloc, room)?;
    text.push_str(line)?;
    text.push_str(sample)?;
    text.push('\n')?;
    is_front(alloc, language, text.as_str(), limits)
}

/// Whether this line is a whole document within the limits, or one but for a rule; decided likewise.
pub fn ends(
    alloc: Global,
    language: Language,
    limits: Limits,
    line: &str,
    left: &Option<Vec<Phrase>>,
) -> Result<bool, AllocError>
    requires { IfSome left.now (λ left. IsLeftOf language limits line.now left.items) }
    ensures { IfOk result (TellsTreeOf language limits line.now) }
{
    if let Some(left) = left {
        if let Some(answer) = can_end(alloc, left.as_slice(), limits)? {
            return Ok(answer);
        }
    }
    is_whole(alloc, language, line, limits)
}

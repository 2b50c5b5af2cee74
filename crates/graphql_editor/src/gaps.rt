//! What stands between tokens: line ends, and comments.
ghost use Rattle.std.specs.Prelude.{◌≡◌, ◌≤◌, ◌<◌, length};

use crate::FoldKind;
use crate::structure::Structure;
use std::alloc::AllocError;

// The bytes of a text between two offsets, or none if there are no such.
fn bytes_between(text: &str, from: usize, to: usize) -> &[u8] {
    text.as_bytes().get(from..to).unwrap_or(b"")
}

fn is_line_end(b: u8) -> bool {
    b == b'\n' || b == b'\r'
}

/// Where the last line begins that begins between two offsets of the text, behind the first one.
pub(crate) fn last_line(text: &str, from: usize, to: usize) -> Option<usize> {
    let last = bytes_between(text, from, to)
        .iter()
        .rposition(|b| is_line_end(*b))?;
    Some(from.saturating_add(last).saturating_add(1))
}

/// How long the line is that these bytes begin with, without its end.
pub(crate) fn line_length(bytes: &[u8]) -> usize
    ensures { result ≤ length bytes.now }
{
    bytes
        .iter()
        .position(|b| is_line_end(*b))
        .unwrap_or(bytes.len())
}

// How long the line end is that these bytes begin with.
fn line_end_length(bytes: &[u8]) -> usize
    ensures some { 0 < result }
    ensures few { result ≤ 2 }
{
    if bytes.first() == Some(&b'\r') && bytes.get(1) == Some(&b'\n') {
        2
    } else {
        1
    }
}

/// How long the first line of a text is, with its line end.
pub(crate) fn first_line(text: &str) -> usize {
    let length = line_length(text.as_bytes());
    length.saturating_add(1).min(text.len())
}

// Where in a line its comment begins, if it has nothing else.
fn comment_of(line: &[u8]) -> Option<usize> {
    let at = line.iter().position(|b| *b != b' ' && *b != b'\t')?;
    if line.get(at) == Some(&b'#') {
        Some(at)
    } else {
        None
    }
}

// Lines of comments that follow one another.
#[derive(Clone, Copy)]
struct Run {
    start: usize,
    end: usize,
    lines: usize,
}

impl Run {
    // The run with one line more.
    fn with(run: Option<Run>, start: usize, end: usize) -> Run {
        match run {
            None => Run {
                start,
                end,
                lines: 1,
            },
            Some(run) => Run {
                start: run.start,
                end,
                lines: 2,
            },
        }
    }
}

fn add_run(structure: &mut Structure, run: Option<Run>) -> Result<(), AllocError>
    ensures { structure.new ≡ structure.old }
{
    match run {
        Some(run) if run.lines > 1 => { structure.add_fold(FoldKind::Comments, run.start, run.end) }
        _ => Ok(()),
    }
}

/// Adds the comments between two tokens that can be folded. What is before the first line end belongs to the token before, unless
/// there is none.
pub(crate) fn add_comments(
    structure: &mut Structure,
    text: &str,
    from: usize,
    to: usize,
) -> Result<(), AllocError>
    ensures { structure.new ≡ structure.old }
{
    let gap = bytes_between(text, from, to);
    if !gap.contains(&b'#') {
        return Ok(());
    }
    let mut run = None;
    let mut at = 0;
    let mut is_line = from == 0;
    while at < gap.len() {
        let rest = &gap[at..];
        let length = line_length(rest);
        let line = &rest[..length];
        match comment_of(line) {
            Some(start) if is_line => {
                let start = from.saturating_add(at).saturating_add(start);
                let end = from.saturating_add(at).saturating_add(length);
                run = Some(Run::with(run, start, end));
            }
            _ => {
                add_run(structure, run)?;
                run = None;
            }
        }
        at += length;
        at += line_end_length(&gap[at..]);
        is_line = true;
    }
    add_run(structure, run)
}

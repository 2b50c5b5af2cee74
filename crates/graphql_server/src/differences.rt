//! How one text differs from another, line by line.

ghost use Rattle.std.specs.Prelude.{IfOk, IsTrue};
ghost use Rattle.graphql_server.specs.Edited.{IsEdited, IsSamePart};

use std::alloc::{AllocError, Global};

/// A part of a new text that is put in the place of a part of an old one, each from one offset in bytes up to another.
#[derive(Clone, Copy)]
pub struct Edit {
    pub start: usize,
    pub end: usize,
    pub new_start: usize,
    pub new_end: usize,
}

/// The edits that make a new text of an old one, in the order of the text: one for each run of lines that change.
///
/// It fails only if memory runs out.
pub fn edits_between(alloc: Global, old: &str, new: &str) -> Result<Vec<Edit>, AllocError>
    ensures { IfOk result (λ edits. IsEdited old.now new.now edits.items new.now) }
{
    let edits = line_edits(alloc, old, new)?;
    if are_edits(old, new, edits.as_slice()) {
        return Ok(edits);
    }
    whole_edit(alloc, old, new)
}

// The edit that puts all of a new text in the place of an old one.
fn whole_edit(alloc: Global, old: &str, new: &str) -> Result<Vec<Edit>, AllocError>
    ensures { IfOk result (λ edits. IsEdited old.now new.now edits.items new.now) }
{
    let mut edits = Vec::new(alloc);
    edits.push(Edit {
        start: 0,
        end: old.len(),
        new_start: 0,
        new_end: new.len(),
    })?;
    Ok(edits)
}

// Whether these edits make the new text of the old one, and are in the order of the text.
fn are_edits(old: &str, new: &str, edits: &[Edit]) -> bool
    ensures { IsTrue result → IsEdited old.now new.now edits.now new.now }
{
    let mut passed = 0usize;
    let mut made = 0usize;
    for edit in edits {
        if !is_same(old, passed, edit.start, new, made, edit.new_start) {
            return false;
        }
        if edit.end < edit.start || edit.new_end < edit.new_start {
            return false;
        }
        passed = edit.end;
        made = edit.new_end;
    }
    is_same(old, passed, old.len(), new, made, new.len())
}

// Whether the old text has the same between two offsets as the new one between two others.
fn is_same(old: &str, start: usize, end: usize, new: &str, new_start: usize, new_end: usize) -> bool
    ensures { IsTrue result → IsSamePart old.now start end new.now new_start new_end }
{
    match (old.get(start..end), new.get(new_start..new_end)) {
        (Some(old), Some(new)) => old == new,
        _ => false,
    }
}

// ---- lines

// The lines of a text, each with its line feed.
#[derive(Drop)]
struct Lines<'a> {
    text: &'a str,
    // Where each begins, and where the last one ends.
    starts: Vec<usize>,
}

impl<'a> Lines<'a> {
    fn new(alloc: Global, text: &'a str) -> Result<Lines<'a>, AllocError> {
        let mut starts = Vec::new(alloc);
        starts.push(0)?;
        for (at, byte) in text.as_bytes().iter().enumerate() {
            let end = at.saturating_add(1);
            if *byte == b'\n' || end == text.len() {
                starts.push(end)?;
            }
        }
        Ok(Lines { text, starts })
    }

    fn count(&self) -> usize {
        self.starts.len().saturating_sub(1)
    }

    // Where a line begins; where the last one ends if there is no such line.
    fn start(&self, line: usize) -> usize {
        self.starts.get(line).copied().unwrap_or(self.text.len())
    }

    fn line(&self, line: usize) -> Option<&'a str> {
        if line >= self.count() {
            return None;
        }
        self.text
            .get(self.start(line)..self.start(line.saturating_add(1)))
    }
}

// A line of the old text and one of the new text.
#[derive(Clone, Copy)]
struct Pair {
    old: usize,
    new: usize,
}

// After a line that differs, the next one that is the same is looked for among so many, of both texts together.
const MOST_CHANGED: usize = 500;

// The edits by which the lines of one text become those of another.
fn line_edits(alloc: Global, old: &str, new: &str) -> Result<Vec<Edit>, AllocError> {
    let texts = Texts {
        old: Lines::new(alloc, old)?,
        new: Lines::new(alloc, new)?,
    };
    let mut edits = Vec::new(alloc);
    let mut here = Pair { old: 0, new: 0 };
    for _ in 0..u64::MAX {
        if texts.is_same(here) {
            here = moved(here, 1, 1);
        } else if texts.have_ended(here) {
            break;
        } else {
            let next = texts.next_same(here);
            edits.push(texts.edit(here, next))?;
            here = next;
        }
    }
    Ok(edits)
}

fn moved(pair: Pair, old: usize, new: usize) -> Pair {
    Pair {
        old: pair.old.saturating_add(old),
        new: pair.new.saturating_add(new),
    }
}

// The lines of both texts.
#[derive(Drop)]
struct Texts<'a> {
    old: Lines<'a>,
    new: Lines<'a>,
}

impl Texts<'_> {
    // Whether these lines are there and the same.
    fn is_same(&self, pair: Pair) -> bool {
        match (self.old.line(pair.old), self.new.line(pair.new)) {
            (Some(old), Some(new)) => old == new,
            _ => false,
        }
    }

    // Whether both texts have ended before these lines.
    fn have_ended(&self, pair: Pair) -> bool {
        pair.old >= self.old.count() && pair.new >= self.new.count()
    }

    // The next lines that are the same after these, which differ: the nearest, or else those with which both texts end.
    fn next_same(&self, here: Pair) -> Pair {
        for distance in 1..MOST_CHANGED {
            for old in 0..distance {
                let next = moved(here, old, distance.saturating_sub(old));
                if self.is_same(next) {
                    return next;
                }
            }
            let next = moved(here, distance, 0);
            if self.is_same(next) {
                return next;
            }
        }
        self.same_ends(here)
    }

    // Where the lines begin, after these, that both texts end with.
    fn same_ends(&self, here: Pair) -> Pair {
        let mut ends = Pair {
            old: self.old.count(),
            new: self.new.count(),
        };
        for _ in 0..self.old.count() {
            let before = Pair {
                old: ends.old.saturating_sub(1),
                new: ends.new.saturating_sub(1),
            };
            if ends.old <= here.old || ends.new <= here.new || !self.is_same(before) {
                break;
            }
            ends = before;
        }
        ends
    }

    // The edit of the lines between these and those.
    fn edit(&self, from: Pair, to: Pair) -> Edit {
        Edit {
            start: self.old.start(from.old),
            end: self.old.start(to.old),
            new_start: self.new.start(from.new),
            new_end: self.new.start(to.new),
        }
    }
}

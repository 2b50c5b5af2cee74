//! Writes comments, and what stands before tokens.
ghost use Rattle.std.specs.Prelude.{◌≡◌, ◌++◌, OnOk};
ghost use Rattle.std.specs.List.{AllByRecursion};
ghost use Rattle.graphql_layout.specs.inner.Standing.{comments_in, IsCommentPassed};
ghost use Rattle.graphql_layout.specs.inner.Tidied.{tidied};

use crate::comments::{Passed, without_blanks};
use crate::layout::gaps::{Gap, Place};
use crate::sheet::Sheet;
use std::alloc::AllocError;

/// What was written of the ignored text before a token.
#[derive(Clone, Copy)]
pub struct Before {
    // Whether there is a comment, and whether one is on a line of its own.
    is_commented: bool,
    has_own_line: bool,
    // How many lines ended since the last comment, or since the token before.
    line_ends: usize,
}

impl Before {
    /// Nothing.
    pub fn nothing() -> Before {
        Before {
            is_commented: false,
            has_own_line: false,
            line_ends: 0,
        }
    }

    /// Comments, the last of which has not ended its line.
    pub fn comments(has_own_line: bool) -> Before {
        Before {
            is_commented: true,
            has_own_line,
            line_ends: 0,
        }
    }

    /// With ignored text after it in which so many lines end, and in which no comment is.
    pub fn with_line_ends(self, line_ends: usize) -> Before {
        Before { line_ends, ..self }
    }

    // With a comment after it, before a token after this gap.
    fn with_comment(self, gap: Gap) -> Before {
        Before::comments(self.has_own_line || self.line_ends > 0 || self.begins_text(gap))
    }

    // Whether nothing is written of the text.
    fn begins_text(self, gap: Gap) -> bool {
        gap == Gap::Start && !self.is_commented
    }

    // Whether a blank line is kept here, where the token may be the first in its bracket.
    fn keeps_line(self, is_first: bool) -> bool {
        self.line_ends > 1 && (self.is_commented || !is_first)
    }
}

// Writes what stands before a comment, so deep, before a token after this gap: nothing or a blank on the line of the token before
// it, or else a line's end, and the blank line that was there.
fn begin_comment(
    sheet: &mut Sheet,
    gap: Gap,
    is_first: bool,
    depth: usize,
    before: Before,
) -> Result<(), AllocError>
    ensures { sheet.new ≡ sheet.old }
{
    if before.begins_text(gap) {
        return Ok(());
    }
    if before.line_ends == 0 {
        return sheet.blank();
    }
    let parts_definitions = gap == Gap::BlankLine && !before.has_own_line;
    if parts_definitions || before.keeps_line(is_first) {
        sheet.line()?;
    }
    sheet.begin_line(depth)
}

/// Writes comments, less the blanks at their ends, so deep, before a token after this gap, which may be the first in its bracket.
/// Gives whether one is on a line of its own. Never inlined: before most tokens there is none. What it takes and gives fits into
/// registers, so that what its caller knows of the token needn't be in memory.
#[inline(never)]
pub fn push_comments(
    sheet: &mut Sheet,
    gap: Gap,
    is_first: bool,
    depth: usize,
    passed: &[Passed<'_>],
) -> Result<bool, AllocError>
    requires { AllByRecursion IsCommentPassed passed.now }
    ensures { OnOk result (sheet.new ≡ sheet.old ++ tidied (comments_in passed.now)) }
{
    let mut before = Before::nothing();
    let mut at = 0;
    while at < passed.len() {
        let comment = passed[at];
        before = before.with_line_ends(comment.line_ends);
        begin_comment(sheet, gap, is_first, depth, before)?;
        sheet.comment(without_blanks(comment.text))?;
        before = before.with_comment(gap);
        at += 1;
    }
    Ok(before.has_own_line)
}

/// Writes what stands before a token.
pub fn begin_token(sheet: &mut Sheet, place: &Place, before: Before) -> Result<(), AllocError>
    ensures { sheet.new ≡ sheet.old }
{
    match place.gap {
        Gap::Start if before.is_commented => begin_spread(sheet, place, before),
        Gap::Nothing | Gap::Blank | Gap::Comma if before.is_commented => {
            sheet.begin_line(place.depth)
        }
        Gap::Start | Gap::Nothing => Ok(()),
        Gap::Blank => sheet.blank(),
        Gap::Comma => {
            sheet.comma()?;
            sheet.blank()
        }
        Gap::Line => sheet.begin_line(place.depth),
        Gap::Spread => begin_spread(sheet, place, before),
        Gap::BlankLine if before.has_own_line => begin_spread(sheet, place, before),
        Gap::BlankLine => {
            sheet.line()?;
            sheet.begin_line(place.depth)
        }
    }
}

// Begins a line, after the blank line that was there.
fn begin_spread(sheet: &mut Sheet, place: &Place, before: Before) -> Result<(), AllocError>
    ensures { sheet.new ≡ sheet.old }
{
    if before.keeps_line(place.is_first) {
        sheet.line()?;
    }
    sheet.begin_line(place.depth)
}

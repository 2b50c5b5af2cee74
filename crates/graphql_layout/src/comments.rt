//! The comments between two tokens.
ghost use Rattle.std.specs.Prelude.{◌≡◌, ◌<◌, ◌≤◌, ◌-◌, [], ◌∷◌, ◌++◌, List, None, IfOk, IfSome, OnOk, MatchOption, length, take, drop, slice_index};
ghost use Rattle.std.specs.List.{AllByRecursion};
ghost use Rattle.std.specs.Str.{byte, chars, IsCharBoundary};
ghost use Rattle.std.specs.Str.Pattern.{FindsChar};
ghost use Rattle.graphql_tokens.specs.tokens.BlockText.{is_blank_char};
ghost use Rattle.graphql_layout.specs.inner.FirstLine.{IsFirstLine, IsFirstHash};
ghost use Rattle.graphql_layout.specs.texts.Items.{Item, IsItems, words};
ghost use Rattle.graphql_layout.specs.inner.Standing.{begins_with_hash, comments_in, AreAdded, IsCommentPassed, IsPassed, IsClear};
ghost use Rattle.graphql_layout.specs.inner.Tidied.{tidied};
ghost use Rattle.graphql_layout.specs.texts.LaidOut.{trimmed};

use crate::layout::ahead::Ahead;
use crate::layout::gaps::Place;
use crate::layout::lines::{Before, push_comments};
use crate::scans::{blanks_of, line_ends, line_length};
use crate::sheet::Sheet;
use memchr::memchr;
use std::alloc::AllocError;

/// A comment that was passed.
#[derive(Clone, Copy)]
pub struct Passed<'a> {
    /// It, up to the end of its line.
    pub text: &'a str,
    /// How many lines end before it, since the last comment or the token before; two at least, where more do.
    pub line_ends: usize,
}

// The text before its first `#`, and the text from there on.
fn split_hash(text: &str) -> Option<(&str, &str)>
    ensures { MatchOption result (FindsChar (byte "#") text.now None) (λ parts. IsFirstHash text.now parts.0.now parts.1.now) }
{
    match memchr(b'#', text.as_bytes()) {
        None => None,
        Some(start) => Some(text.split_at(start)),
    }
}

/// The first line of the text, without its end, and the rest.
#[inline(always)]
pub fn split_line(text: &str) -> (&str, &str)
    ensures { IsFirstLine text.now result.0.now result.1.now }
{
    text.split_at(line_length(text.as_bytes()))
}

/// Whether the last character is a blank.
pub fn ends_in_blank(text: &str) -> bool
    ensures { result ≡ is_blank_char (slice_index text.now (length text.now - 1)) }
{
    match text.as_bytes().last() {
        Some(last) => *last == b'\t' || *last == b' ',
        None => false,
    }
}

/// A comment without the blanks at its end. Most have none.
#[inline(always)]
pub fn without_blanks(comment: &str) -> &str
    ensures { chars result.now ≡ trimmed (chars comment.now) }
{
    if ends_in_blank(comment) {
        return comment.trim_end_matches(['\t', ' ']);
    }
    comment
}

fn begins_with_hash(text: &str) -> bool
    ensures { result ≡ begins_with_hash text.now }
{
    match text.as_bytes().first() {
        Some(first) => *first == b'#',
        None => false,
    }
}

// The first comment, where nothing but blanks stands before it, and the text after it.
#[inline(always)]
fn first_comment(text: &str) -> Option<(Passed<'_>, &str)>
    ensures { IfSome result (λ r. IsPassed text.now (r.0 ∷ []) r.1.now × (length r.1.now < length text.now)) }
{
    let blanks = blanks_of(text.as_bytes());
    let (_, from) = text.split_at(blanks);
    if !begins_with_hash(from) {
        return None;
    }
    let (comment, after) = split_line(from);
    let passed = Passed {
        text: comment,
        line_ends: line_ends(text.as_bytes(), blanks),
    };
    Some((passed, after))
}

/// Passes the comments that come before all else but blanks, and gives how long they are together. They are put into the list. It
/// fails only where memory runs out. Never inlined: most tokens are far from comments.
#[inline(never)]
pub fn pass_comments<'a>(passed: &mut Vec<Passed<'a>>, text: &'a str) -> Result<usize, AllocError>
    requires { passed.old.items ≡ [] }
    ensures passed { IfOk result (λ n. IsPassed text.now passed.new.items (drop n text.now)) }
    ensures boundary { IfOk result (λ n. IsCharBoundary text.now n) }
{
    let mut rest = text;
    while let Some((comment, after)) = first_comment(rest) {
        passed.push(comment)?;
        rest = after;
    }
    Ok(text.len() - rest.len())
}

// The text from the rest of the gap on, of the text that begins with the gap.
fn from_rest<'a>(text: &'a str, gap: &str, rest: &str) -> &'a [u8] {
    let passed = gap.len().saturating_sub(rest.len());
    text.as_bytes().get(passed..).unwrap_or(b"")
}

// Puts the comments of ignored text, with which the text begins, after those in the list, and gives how much of it comes after them.
// Never inlined: most are passed before.
#[inline(never)]
fn pass_gap<'a>(
    passed: &mut Vec<Passed<'a>>,
    gap: &'a str,
    text: &'a str,
) -> Result<usize, AllocError>
    ensures { IfOk result (λ n. AreAdded gap.now passed.old.items passed.new.items) }
{
    let mut rest = gap;
    while let Some((blanks, from)) = split_hash(rest) {
        let (comment, after) = split_line(from);
        passed.push(Passed {
            text: comment,
            line_ends: line_ends(from_rest(text, gap, rest), blanks.len()),
        })?;
        rest = after;
    }
    Ok(rest.len())
}

// Puts the comments of ignored text, with which what is ahead begins, after those in the list, and gives how much of it comes after
// them. From its end on so much is left.
#[inline(always)]
fn pass_ignored<'a>(
    passed: &mut Vec<Passed<'a>>,
    ahead: Ahead<'a>,
    gap: &'a str,
    left: usize,
) -> Result<usize, AllocError>
    requires clear { IsClear ahead.hash ahead.rest.now }
    requires gap { gap.now ≡ take (length ahead.rest.now - left) ahead.rest.now }
    requires within { left ≤ length ahead.rest.now }
    ensures { IfOk result (λ n. AreAdded gap.entry.now passed.old.items passed.new.items) }
{
    if left >= ahead.hash {
        return Ok(gap.len());
    }
    pass_gap(passed, gap, ahead.rest)
}

// Writes the comments in the list, which is empty then, before a token that stands there.
#[inline(always)]
fn push_passed(
    sheet: &mut Sheet,
    place: &Place,
    passed: &mut Vec<Passed<'_>>,
) -> Result<Before, AllocError>
    requires { AllByRecursion IsCommentPassed passed.old.items }
    ensures written { OnOk result (sheet.new ≡ sheet.old ++ tidied (comments_in passed.old.items)) }
    ensures none { OnOk result (passed.new.items ≡ []) }
{
    if passed.is_empty() {
        return Ok(Before::nothing());
    }
    let has_own_line = push_comments(sheet, place.gap, place.is_first, place.comments, passed)?;
    passed.clear();
    Ok(Before::comments(has_own_line))
}

/// Writes what is ignored before a token that stands there: the comments in the list, which is empty then, and those of the gap,
/// each less the blanks at its end. The gap is what is ahead up to the token, from which on so much is left.
#[inline(always)]
pub fn push_ignored<'a>(
    sheet: &mut Sheet,
    place: &Place,
    passed: &mut Vec<Passed<'a>>,
    ahead: Ahead<'a>,
    gap: &'a str,
    left: usize,
) -> Result<Before, AllocError>
    requires passed { AllByRecursion IsCommentPassed passed.old.items }
    requires clear { IsClear ahead.hash ahead.rest.now }
    requires gap { gap.now ≡ take (length ahead.rest.now - left) ahead.rest.now }
    requires within { left ≤ length ahead.rest.now }
    ensures written { (items : List Item) → IsItems (chars gap.entry.now) items → words items ≡ [] →
        OnOk result (sheet.new ≡ sheet.old ++ (tidied (comments_in passed.old.items) ++ tidied items)) }
    ensures none { OnOk result (passed.new.items ≡ []) }
{
    let length = pass_ignored(passed, ahead, gap, left)?;
    let before = push_passed(sheet, place, passed)?;
    if length == 0 || gap == " " {
        return Ok(before);
    }
    let start = gap.len().saturating_sub(length);
    let blanks = ahead.rest.as_bytes().get(start..).unwrap_or(b"");
    Ok(before.with_line_ends(line_ends(blanks, length)))
}

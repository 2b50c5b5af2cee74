//! What is wrong with a text, in parts: for a report, and for those who show it in a way of their own.
ghost use Rattle.std.specs.Prelude.{◌≡◌, ◌++◌, ℕ, List, [], Option, None, true, false, IfOk, OnOk, MatchOption, String, string_bytes};
ghost use Rattle.std.specs.Str.{IsCharBoundary, chars};
ghost use Rattle.graphql_tokens.specs.tokens.Place.{place, place_after};
ghost use Rattle.graphql_tokens.specs.tokens.Seen.{seen};
ghost use Rattle.graphql_grammar.specs.declared.error.Error.TheVariants.{Syntax, RecursionLimitExceeded};
ghost use Rattle.graphql_report.specs.inner.Called.{texts};
ghost use Rattle.graphql_report.specs.inner.Carets.{IsWrongAfter};
ghost use Rattle.graphql_report.specs.inner.Told.{AddsHintFor, IsWrong, TellsBreach};
ghost use Rattle.graphql_report.specs.reports.Findings.{IsFinding, IsPlaceIn, status_of as status_text};
ghost use Rattle.graphql_report.specs.reports.Hints.{word_of};
ghost use Rattle.graphql_report.specs.reports.Offsets.{first_remark};
ghost use Rattle.graphql_report.specs.reports.Refused.{IsKnown, IsRefusedFrom};
ghost use Rattle.graphql_report.specs.reports.Rests.{AreCounted, BeginsAt, top};

use crate::expected::expected_after;
use crate::faults::fault_of;
use crate::fronts::{Language, end_of};
use crate::hints::{expects_value, push_hint, push_unclosed};
use crate::refused::{Depth, before, reached_limit, split};
use crate::rests::{ReadUpTo, read_before};
use crate::words::{push_expected, push_found};
use graphql_parser::lexer::{Token, TokenKind};
use graphql_parser::pos::PositionCalculator;
use graphql_parser::{Error, Limits, Pos};
use std::alloc::{AllocError, Global};

/// What is wrong with a text, in parts.
#[derive(Drop)]
pub struct Finding {
    /// The first place of the report; None of an error that names none.
    pub place: Option<Pos>,
    /// Where the rejected token ends, before its next character; None if the error is about no one token.
    pub end: Option<Pos>,
    /// The name of the error's status, as C has it, without `GRAPHQL_PARSER_`.
    pub status: &'static str,
    /// What the first line of the report says after the place.
    pub message: String,
    /// The word that may have been meant in place of the rejected token, if the message asks for it.
    pub meant: Option<&'static str>,
    // Where the caret of the report stands, as a byte offset; None of an error about definitions.
    pub(crate) caret: Option<usize>,
}

/// What [`explain`](crate::explain) reports of an error, in parts and without the line of the place. (This project's
/// own call.)
///
/// It takes what `explain` takes, and as long. An error says that memory was refused.
pub fn finding_of(
    alloc: Global,
    language: Language,
    text: &str,
    limits: Limits,
    error: &Error,
) -> Result<Finding, AllocError>
    ensures { IfOk result (IsFinding (IsRefusedFrom language limits text.now top) language limits text.now
        top None error.now) }
{
    let read = ReadUpTo::refused(alloc, language, text, limits, error)?;
    finding_from(alloc, language, text, &read, limits, error)
}

/// What [`finding_of`] returns, of a text that was read from a later line on, up to a token that is known. The caller
/// owes that the line begins where `read` says, and that the token is the rejected one. What stands before isn't read,
/// unless a place is counted: that of an escape in a string, and of a token that nests too deep. The places of `error`
/// are those in the whole text. (This project's own call.)
pub fn finding_from(
    alloc: Global,
    language: Language,
    text: &str,
    read: &ReadUpTo<'_>,
    limits: Limits,
    error: &Error,
) -> Result<Finding, AllocError>
    requires { BeginsAt text.now read.now.from }
    ensures { IfOk result (IsFinding (IsKnown language limits text.now read.now) language limits text.now
        read.now.from read.now.unclosed error.now) }
{
    match error {
        Error::Syntax { start, .. } => {
            syntax_finding(alloc, language, text, read, limits, *start)
        }
        Error::RecursionLimitExceeded => limit_finding(alloc, language, text, read, limits),
        Error::MultipleRoots { .. }
        | Error::MissingQueryRoot { .. }
        | Error::MultipleOperations { .. }
        | Error::OperationDuplicated { .. }
        | Error::FragmentDuplicated { .. }
        | Error::MissingOperation
        | Error::OutOfMemory => breach_finding(alloc, error),
    }
}

// A rejected token.
fn syntax_finding(
    alloc: Global,
    language: Language,
    text: &str,
    read: &ReadUpTo<'_>,
    limits: Limits,
    start: Pos,
) -> Result<Finding, AllocError>
    requires { BeginsAt text.now read.now.from }
    ensures { IfOk result (λ finding. (message : String Global) (stop : Option Pos) →
        IsFinding (IsKnown language limits text.now read.now) language limits text.now read.now.from
        read.now.unclosed (Syntax message start stop) finding) }
{
    let status = "SYNTAX";
    let Some(token) = read.token else {
        return Ok(Finding {
            place: Some(start),
            end: None,
            status,
            message: String::from_str(alloc, "syntax error: the text is refused")?,
            meant: None,
            caret: Some(text.len()),
        });
    };
    let front = read_before(text, read.from, token.start);
    let expected = expected_after(alloc, language, front, limits)?;
    let expected = expected.as_slice();
    let mut message = String::from_str(alloc, "syntax error: ")?;
    let passed = push_wrong(alloc, &mut message, text, &token, expected)?;
    push_expected(&mut message, language, &token, expected)?;
    let meant = push_more(alloc, &mut message, language, text, read, &token, expected)?;
    let caret = token.start.saturating_add(passed);
    Ok(Finding {
        place: Some(place_told(text, start, caret, passed > 0)),
        end: end_of_token(&token),
        status,
        message,
        meant,
        caret: Some(caret),
    })
}

// The place where the caret stands: this one, that of the error, or inside the token the one at this offset.
fn place_told(text: &str, start: Pos, offset: usize, is_inside: bool) -> Pos
    ensures start { is_inside ≡ false → result ≡ start }
    ensures inside { is_inside ≡ true → IsCharBoundary text.now offset → result ≡ place text.now offset }
{
    if is_inside {
        return end_of(before(text, offset));
    }
    start
}

// Adds what was found, or what is wrong where no token begins, and returns how many bytes after the place that shows.
fn push_wrong(
    alloc: Global,
    out: &mut String,
    text: &str,
    token: &Token<'_>,
    expected: &[&'static str],
) -> Result<usize, AllocError>
    ensures told { OnOk result (IsWrong text.now (texts expected.now) (seen token.now)
        (string_bytes out.old) (string_bytes out.new)) }
    ensures caret { IfOk result (λ passed. IsWrongAfter text.now (seen token.now) passed) }
{
    if matches!(token.kind, TokenKind::Fault) {
        let (_, rest) = split(text, token.start);
        let fault = fault_of(alloc, rest, expects_value(expected))?;
        out.push_str(fault.message.as_str())?;
        return Ok(fault.offset);
    }
    out.push_str("found ")?;
    push_found(out, token)?;
    Ok(0)
}

// Adds what was meant, as far as that is known, and returns the word that may have been.
fn push_more(
    alloc: Global,
    out: &mut String,
    language: Language,
    text: &str,
    read: &ReadUpTo<'_>,
    token: &Token<'_>,
    expected: &[&'static str],
) -> Result<Option<&'static str>, AllocError>
    ensures { IfOk result (λ meant. AddsHintFor read.now.unclosed language (seen token.now).bare
        (texts expected.now) (string_bytes out.old) (string_bytes out.new) (word_of meant)) }
{
    if let Some(place) = read.unclosed {
        push_unclosed(out, place)?;
        return Ok(None);
    }
    push_hint(alloc, out, language, text, token, expected)
}

// A token that nests too deep.
fn limit_finding(
    alloc: Global,
    language: Language,
    text: &str,
    read: &ReadUpTo<'_>,
    limits: Limits,
) -> Result<Finding, AllocError>
    requires { BeginsAt text.now read.now.from }
    ensures { IfOk result (IsFinding (IsKnown language limits text.now read.now) language limits text.now
        read.now.from read.now.unclosed RecursionLimitExceeded) }
{
    let status = "RECURSION_LIMIT_EXCEEDED";
    let Some(token) = read.token else {
        return Ok(Finding {
            place: Some(place_of(text, text.len())),
            end: None,
            status,
            message: String::from_str(alloc, "recursion limit exceeded at the end of the text")?,
            meant: None,
            caret: Some(text.len()),
        });
    };
    let depth = reached_limit(alloc, language, text, read.from, limits, &token)?;
    let Depth { what, most } = depth;
    let mut message = format!(in alloc; "recursion limit exceeded: {what} may nest {most} deep")?;
    if let Some(place) = read.unclosed {
        push_unclosed(&mut message, place)?;
    }
    Ok(Finding {
        place: Some(place_of(text, token.start)),
        end: end_of_token(&token),
        status,
        message,
        meant: None,
        caret: Some(token.start),
    })
}

// A tree that breaks a rule, or memory that was refused.
fn breach_finding(alloc: Global, error: &Error) -> Result<Finding, AllocError>
    ensures { IfOk result (TellsBreach error.now) }
{
    let remark = remark_of(error);
    Ok(Finding {
        place: error.positions().next(),
        end: None,
        status: status_of(error),
        message: format!(in alloc; "{error}{remark}")?,
        meant: None,
        caret: None,
    })
}

// What is said after the message of an error about definitions.
fn remark_of(error: &Error) -> &'static str
    ensures { result.now ≡ first_remark error.now }
{
    match error {
        Error::MultipleOperations { .. } => ", and this one has no name",
        _ => "",
    }
}

// Where the text stands from this offset on.
fn place_of(text: &str, offset: usize) -> Pos
    ensures inside { IsPlaceIn text.now result }
    ensures place { IsCharBoundary text.now offset → result ≡ place text.now offset }
{
    end_of(before(text, offset))
}

// Where a token ends, if it has any characters. A line may end in a block string.
fn end_of_token(token: &Token<'_>) -> Option<Pos>
    ensures { (front : List ℕ) → AreCounted (front ++ chars token.now.text.now) →
        token.now.pos ≡ place_after front →
        MatchOption result (token.now.text.now ≡ []) (λ end.
        end ≡ place_after (front ++ chars token.now.text.now)) }
{
    let (start, text) = (token.pos, token.text);
    if text.is_empty() {
        return None;
    }
    let mut places = PositionCalculator::new(text);
    let end = places.step(text.len());
    let is_one_line = end.column > places.stepped();
    let column = if is_one_line {
        start.column.saturating_add(end.column.saturating_sub(1))
    } else {
        end.column
    };
    Some(Pos {
        line: start.line.saturating_add(end.line.saturating_sub(1)),
        column,
    })
}

// The name of the status that the error has in C.
fn status_of(error: &Error) -> &'static str
    ensures { result.now ≡ status_text error.now }
{
    match error {
        Error::OutOfMemory => "OUT_OF_MEMORY",
        Error::Syntax { .. } => "SYNTAX",
        Error::RecursionLimitExceeded => "RECURSION_LIMIT_EXCEEDED",
        Error::MultipleOperations { .. } => "MULTIPLE_OPERATIONS",
        Error::OperationDuplicated { .. } => "OPERATION_DUPLICATED",
        Error::FragmentDuplicated { .. } => "FRAGMENT_DUPLICATED",
        Error::MissingOperation => "MISSING_OPERATION",
        Error::MultipleRoots { .. } => "MULTIPLE_ROOTS",
        Error::MissingQueryRoot { .. } => "MISSING_QUERY_ROOT",
    }
}

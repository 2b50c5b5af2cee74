//! What is wrong with a text, as data: for an editor, which shows it in the text and can mend it there.
ghost use Rattle.std.specs.Prelude.{◌≡◌, ◌<◌, [], true, All, IfOk, IfSome, length};
ghost use Rattle.graphql_texts.specs.checked.Diagnosed.{IsWithin, IsDiagnosisOf};
ghost use Rattle.graphql_texts.specs.checked.Good.{IsGoodText};
ghost use Rattle.graphql_report.specs.reports.Rests.{BeginsAt};

use crate::check::error_of;
use crate::closing::{Missing, missing_of};
use crate::errors::{MOST_FINDINGS, Mistake, Refused, Source, first_error, next_error};
use crate::recovery::end_of;
use graphql_parser::lexer::{Token, TokenKind, Tokens};
use graphql_parser::{Error, Limits, Memory, Pos};
use graphql_report::{Finding, Language, error_offsets, finding_from};
use std::alloc::{AllocError, Global};

/// The byte offsets between which a part of a text stands: the end is not before the start, and both are where a
/// character begins, or the end of the text.
#[derive(Clone, Copy, Debug, PartialEq, Eq)]
pub struct Span {
    pub start: usize,
    pub end: usize,
}

/// One thing that is wrong with a text. (This project's own type.)
#[derive(Drop)]
pub struct Diagnosis {
    /// Where it is: the rejected token, its bad escape, or the words with which a definition begins. It is empty at the
    /// end of the text.
    pub span: Span,
    /// The name of the error's status, as C has it, without `GRAPHQL_PARSER_`.
    pub status: &'static str,
    /// What the first line of a report says after the place.
    pub message: String,
    /// The other place, of an error about two definitions.
    pub other: Option<Other>,
    // What may mend it.
    repair: Repair,
}

/// The other place of an error.
#[derive(Clone, Copy)]
pub struct Other {
    /// Where it is.
    pub span: Span,
    /// What is said of it.
    pub message: &'static str,
}

/// An edit of a text by which a mistake is mended.
#[derive(Drop)]
pub struct Fix {
    /// What it does, for people.
    pub title: String,
    /// What it replaces; an insertion if that is empty.
    pub span: Span,
    /// What it puts there.
    pub new: String,
}

// What may mend a text.
#[derive(Clone, Copy)]
enum Repair {
    // Nothing is known.
    None,
    // This word in place of the rejected one.
    Word(&'static str),
    // Brackets, if some are missing before the rejected token, of a text that was read from this offset on.
    Brackets(usize),
}

// What is said of a bracket that isn't closed.
const NOT_CLOSED: &str = "this bracket is not closed";

/// All that is wrong with a text that is read as this language within these limits, as `gql check` reports it: in the
/// order of the text, [`MOST_FINDINGS`] at most. There is nothing only if the text is good; a request may lack an
/// operation. (This project's own call.)
///
/// An error says that memory was denied.
pub fn diagnoses_of(
    alloc: Global,
    language: Language,
    text: &str,
    limits: Limits,
) -> Result<Vec<Diagnosis>, AllocError>
    ensures good { IfOk result (λ found. found.items ≡ [] → IsGoodText true language limits text.now) }
    ensures within { IfOk result (λ found. All (IsDiagnosisOf text.now) found.items) }
{
    let source = source_of(language, text, limits);
    match error_of(&mut Memory::new(alloc), &source, true)? {
        Some(refused) => Ok(diagnoses_from(alloc, &source, refused)?),
        None => Ok(Vec::new(alloc)),
    }
}

/// The same of a text of which this is known to be wrong first.
pub fn diagnoses_from<'a>(
    alloc: Global,
    source: &Source<'a>,
    refused: Refused<'a>,
) -> Result<Vec<Diagnosis>, AllocError>
    ensures some { IfOk result (λ found. 0 < length found.items) }
    ensures within { IfOk result (λ found. All (IsDiagnosisOf source.now.text.now) found.items) }
{
    let mut found = Vec::new(alloc);
    let mut mistake = first_error(source, refused);
    found.push(diagnosis_of(alloc, source, &mistake)?)?;
    for _ in 1..MOST_FINDINGS {
        let Some(next) = next_error(alloc, source, &mistake)? else {
            break;
        };
        found.push(diagnosis_of(alloc, source, &next)?)?;
        mistake = next;
    }
    Ok(found)
}

// A text of no file.
fn source_of(language: Language, text: &str, limits: Limits) -> Source<'_>
    ensures text { result.text.now ≡ text.now }
    ensures language { (result.language ≡ language) × (result.limits ≡ limits) }
{
    Source {
        name: "",
        language,
        limits,
        text,
    }
}

impl Diagnosis {
    /// The brackets that aren't closed, if that is what is wrong with the text that this is a diagnosis of, which was
    /// read as this language within these limits.
    ///
    /// An error says that memory was denied.
    pub fn missing(
        &self,
        alloc: Global,
        language: Language,
        text: &str,
        limits: Limits,
    ) -> Result<Option<Missing>, AllocError> {
        let Repair::Brackets(from) = self.repair else {
            return Ok(None);
        };
        match token_at(text, self.span.start) {
            Some(token) => missing_of(alloc, &source_of(language, text, limits), from, &token),
            None => Ok(None),
        }
    }

    /// What mends the text that this is a diagnosis of, if it is known: the word that may have been meant, or what
    /// closes the brackets that [`missing`](Diagnosis::missing) returns.
    ///
    /// An error says that memory was denied.
    pub fn fix(
        &self,
        alloc: Global,
        text: &str,
        missing: Option<&Missing>,
    ) -> Result<Option<Fix>, AllocError>
        ensures { IfOk result (λ fix. IfSome fix (λ fix. IsWithin text.now fix.span)) }
    {
        if let Repair::Word(word) = self.repair {
            return Ok(Some(Fix {
                title: format!(in alloc; "Change to \"{word}\"")?,
                span: span_at(text, self.span.start, self.span.end),
                new: String::from_str(alloc, word)?,
            }));
        }
        match missing {
            Some(missing) => Ok(Some(insertion_of(alloc, text, missing)?)),
            None => Ok(None),
        }
    }
}

impl Missing {
    /// Where the inmost of them was opened, and what is said of it.
    pub fn opening(&self, text: &str) -> Other
        ensures { IsWithin text.now result.span }
    {
        let start = self.inmost();
        Other {
            span: span_at(text, start, start.saturating_add(1)),
            message: NOT_CLOSED,
        }
    }
}

// The token that begins at this offset of a text.
fn token_at(text: &str, start: usize) -> Option<Token<'_>> {
    let (_, rest) = text.split_at_checked(start)?;
    let token = Tokens::new(rest).next()?;
    Some(Token { start, ..token })
}

// What closes brackets.
fn insertion_of(alloc: Global, text: &str, missing: &Missing) -> Result<Fix, AllocError>
    ensures { IfOk result (λ fix. IsWithin text.now fix.span) }
{
    let closing = missing.closing(alloc, text)?;
    let brackets = closing.brackets.as_str();
    Ok(Fix {
        title: format!(in alloc; "Insert \"{brackets}\"")?,
        span: span_at(text, closing.offset, closing.offset),
        new: closing.new,
    })
}

// What is wrong by an error of a text.
fn diagnosis_of(
    alloc: Global,
    source: &Source<'_>,
    mistake: &Mistake<'_>,
) -> Result<Diagnosis, AllocError>
    requires { BeginsAt source.now.text.now mistake.now.known.from }
    ensures { IfOk result (IsDiagnosisOf source.now.text.now) }
{
    let (told, read) = mistake.told_in(source);
    let error = &mistake.error;
    let finding = finding_from(alloc, told.language, told.text, &read, told.limits, error)?;
    let marks = marks_of(alloc, source, &told, mistake, finding.place)?;
    let repair = repair_of(mistake, &finding);
    Ok(Diagnosis {
        span: marks.span,
        status: finding.status,
        message: finding.message,
        other: marks.other,
        repair,
    })
}

// What may mend an error.
fn repair_of(mistake: &Mistake<'_>, finding: &Finding) -> Repair {
    match (mistake.known.token, finding.meant) {
        (Some(_), Some(word)) => Repair::Word(word),
        (Some(token), None)
            if matches!(mistake.error, Error::Syntax { .. })
                && !matches!(token.kind, TokenKind::Fault) => {
            Repair::Brackets(mistake.known.from.offset)
        }
        _ => Repair::None,
    }
}

// Where an error is shown.
#[derive(Clone, Copy)]
struct Marks {
    span: Span,
    other: Option<Other>,
}

// Where an error of a text is shown whose report has this place.
fn marks_of(
    alloc: Global,
    source: &Source<'_>,
    told: &Source<'_>,
    mistake: &Mistake<'_>,
    place: Option<Pos>,
) -> Result<Marks, AllocError>
    ensures { IfOk result (λ marks. IsWithin source.now.text.now marks.span
        × IfSome marks.other (λ other. IsWithin source.now.text.now other.span)) }
{
    match mistake.known.token {
        Some(token) => Ok(Marks {
            span: span_of_token(source.text, &token, place),
            other: None,
        }),
        None => marks_of_definitions(alloc, source, told, mistake),
    }
}

/// What stands between these byte offsets of a text; its end if they are none of its.
pub fn span_at(text: &str, start: usize, end: usize) -> Span
    ensures { IsWithin text.now result }
{
    if start <= end && text.is_char_boundary(start) && text.is_char_boundary(end) {
        return Span { start, end };
    }
    Span {
        start: text.len(),
        end: text.len(),
    }
}

// ---- definitions

// Where an error about definitions is shown: at the first words of each that it names.
fn marks_of_definitions(
    alloc: Global,
    source: &Source<'_>,
    told: &Source<'_>,
    mistake: &Mistake<'_>,
) -> Result<Marks, AllocError>
    ensures { IfOk result (λ marks. IsWithin source.now.text.now marks.span
        × IfSome marks.other (λ other. IsWithin source.now.text.now other.span)) }
{
    let offsets = error_offsets(alloc, told.text, &mistake.error)?;
    let first = span_of_words(source.text, mistake.offset_in_text(offsets.first));
    let Some(second) = offsets.second else {
        return Ok(Marks {
            span: first,
            other: None,
        });
    };
    let span = span_of_words(source.text, mistake.offset_in_text(second.offset));
    Ok(Marks {
        span: first,
        other: Some(Other {
            span,
            message: second.remark,
        }),
    })
}

// The token at this offset, and the name after it, if both are names: as `query A`.
fn span_of_words(text: &str, start: usize) -> Span
    ensures { IsWithin text.now result }
{
    let Some((_, rest)) = text.split_at_checked(start) else {
        return span_at(text, text.len(), text.len());
    };
    let mut tokens = Tokens::new(rest);
    let mut length = 0usize;
    if let Some(first) = tokens.next() {
        length = end_of(&first);
        if first.kind.is_name()
            && let Some(second) = tokens.next()
            && second.kind.is_name()
        {
            length = end_of(&second);
        }
    }
    span_at(text, start, start.saturating_add(length))
}

// ---- tokens

// A rejected token, or its bad escape, if that is at the place of the report.
fn span_of_token(text: &str, token: &Token<'_>, place: Option<Pos>) -> Span
    ensures { IsWithin text.now result }
{
    if !matches!(token.kind, TokenKind::Fault) {
        return span_at(text, token.start, end_of(token));
    }
    let Some((_, rest)) = text.split_at_checked(token.start) else {
        return span_at(text, text.len(), text.len());
    };
    // Both stand in one line, since no bad escape is looked for after the end of the line in which a string begins.
    let column = place.map_or(0, |place| place.column);
    let passed = length_of_first(rest, column.saturating_sub(token.pos.column));
    let start = token.start.saturating_add(passed);
    let fault = match rest.split_at_checked(passed) {
        Some((_, fault)) => fault,
        None => "",
    };
    span_at(text, start, start.saturating_add(length_of_fault(fault)))
}

// How many bytes the first characters of a text take, so many of them.
fn length_of_first(text: &str, count: usize) -> usize {
    let mut rest = text.chars();
    for _ in 0..count {
        if rest.next().is_none() {
            break;
        }
    }
    text.len().saturating_sub(rest.as_str().len())
}

// How many bytes are shown of what begins no token: the quotes of a block string that isn't closed, the rest of the
// line of a string, an escape, what looks like a number or a spread, or one character.
fn length_of_fault(fault: &str) -> usize {
    if fault.starts_with("\"\"\"") {
        return 3;
    }
    if fault.starts_with('"') {
        return length_before(
            fault,
            fault.trim_start_matches(|c: char| c != '\n' && c != '\r'),
        );
    }
    if let Some(digits) = fault.strip_prefix("\\u") {
        return length_of_escape(digits).saturating_add(2);
    }
    if fault.starts_with('\\') {
        return length_of_first(fault, 2);
    }
    let is_in_number = |c: char| c.is_ascii_alphanumeric() || matches!(c, '-' | '+' | '.');
    length_before(fault, fault.trim_start_matches(is_in_number)).max(length_of_first(fault, 1))
}

// How many bytes are shown of an escape after its `u`: up to the brace that closes another one, or four digits.
fn length_of_escape(digits: &str) -> usize {
    if digits.starts_with('{') {
        let rest = digits.trim_start_matches(|c: char| c == '{' || c.is_ascii_hexdigit());
        return length_before(digits, rest).saturating_add(usize::from(rest.starts_with('}')));
    }
    length_before(
        digits,
        digits.trim_start_matches(|c: char| c.is_ascii_hexdigit()),
    )
    .min(4)
}

// How many bytes of a text stand before this rest of it.
fn length_before(text: &str, rest: &str) -> usize {
    text.len().saturating_sub(rest.len())
}

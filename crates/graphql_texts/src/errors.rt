//! The errors of a text that are reported, one after another: its first, and then the first of each definition after
//! it.
//!
//! A rejected text is read again from the next definition on, and so on. What is missing in the definitions before the
//! rejected one, or is there twice, is no matter then, and neither is that an operation without a name isn't alone: a
//! brace at the beginning of a line may belong to a definition that is rejected before it.
//!
//! If nothing closes a block string, an earlier one may be open that ends where that one was to begin, and what stands
//! in strings and between them may be taken for each other up to there. So the report says where the open one probably
//! begins, and no definition is looked for before the line after the one that nothing closes. What is read after a
//! later error was searched for such a string at the first.
ghost use Rattle.std.specs.Prelude.{◌≡◌, IfSome, IfOk};
ghost use Rattle.graphql_report.specs.reports.Rests.{BeginsAt};

use crate::check::error_of;
use crate::recovery::{next_definition, probable_opening, rest_at, unclosed_string};
use graphql_parser::lexer::{Token, TokenKind};
use graphql_parser::pos::PositionCalculator;
use graphql_parser::{Error, Limits, Memory, Pos};
use graphql_report::{Language, ReadFrom, ReadUpTo};
use std::alloc::{AllocError, Global};

/// So many errors of a text are reported at most.
pub const MOST_FINDINGS: usize = 100;

/// A text that is read: of a file of which name, as what, and how deep it may nest.
#[derive(Clone, Copy)]
pub struct Source<'a> {
    pub name: &'a str,
    pub language: Language,
    pub limits: Limits,
    pub text: &'a str,
}

/// What is wrong with a text: the error, and the token at which the text is rejected, if it is rejected at one.
#[derive(Drop)]
pub struct Refused<'a> {
    pub error: Error,
    pub token: Option<Token<'a>>,
}

/// An error of a text that is reported.
#[derive(Drop)]
pub struct Mistake<'a> {
    /// The error. Its places are those in the text.
    pub error: Error,
    /// What is known of the reading of the text that ended in it.
    pub known: ReadUpTo<'a>,
    /// No definition begins before this byte offset that was not read; None if no later one is read.
    pub passed: Option<usize>,
    /// If the report is one of a copy of the text: the text from where that reading began, after a line feed for each
    /// line before it.
    pub copy: Option<String>,
}

/// The first error of a text, which is what is wrong with it.
pub fn first_error<'a>(source: &Source<'a>, refused: Refused<'a>) -> Mistake<'a>
    ensures { BeginsAt source.now.text.now result.known.from }
{
    let Refused { error, token } = refused;
    let mut known = read_up_to(ReadFrom::top(source.text), token);
    let mut passed = token.map(|token| token.start);
    if let Some(token) = token
        && let Some(last) = unclosed_string(source.text, token.start)
    {
        known.unclosed = source.opening(&token, last);
        passed = Some(last);
    }
    Mistake {
        error,
        known,
        passed,
        copy: None,
    }
}

/// The error of a text after this one of its errors, if there is one. An error says that memory was denied.
pub fn next_error<'a>(
    alloc: Global,
    source: &Source<'a>,
    last: &Mistake<'_>,
) -> Result<Option<Mistake<'a>>, AllocError>
    requires { BeginsAt source.now.text.now last.now.known.from }
    ensures { IfOk result (λ found. IfSome found (λ mistake.
        BeginsAt source.now.text.now mistake.known.from)) }
{
    let Some(from) = source.next_after(last.known.from, last.passed) else {
        return Ok(None);
    };
    match source.refused_from(alloc, from)? {
        Some(refused) => Ok(Some(source.mistake(alloc, from, refused)?)),
        None => Ok(None),
    }
}

impl<'a> Mistake<'a> {
    /// The text of which the report of this error of a text is one, and what is known of its reading.
    pub fn told_in<'b>(&'b self, source: &Source<'b>) -> (Source<'b>, ReadUpTo<'b>)
        requires { BeginsAt source.now.text.now self.now.known.from }
        ensures { BeginsAt result.0.text.now result.1.from }
    {
        match &self.copy {
            Some(copy) => {
                let text = copy.as_str();
                (Source { text, ..*source }, in_copy(&self.known, text))
            }
            None => (
                Source {
                    text: source.text,
                    ..*source
                },
                self.known,
            ),
        }
    }

    /// Where in the text that stands which the report finds at this byte offset of what it is of.
    pub fn offset_in_text(&self, offset: usize) -> usize {
        let from = self.known.from;
        match &self.copy {
            Some(_) => offset
                .saturating_sub(from.line.saturating_sub(1))
                .saturating_add(from.offset),
            None => offset,
        }
    }
}

impl<'a> Source<'a> {
    // The error of the text from there on, in which this is wrong. Places are counted from the beginning of what a
    // report is of, and no more is counted than that: so it is one of a copy, unless it can be one of the text.
    fn mistake(
        &self,
        alloc: Global,
        from: ReadFrom,
        refused: Refused<'a>,
    ) -> Result<Mistake<'a>, AllocError>
        ensures { IfOk result (λ mistake. mistake.known.from ≡ from) }
    {
        let Refused { error, token } = refused;
        let mut mistake = Mistake {
            error,
            known: read_up_to(from, token),
            passed: token.map(|token| token.start),
            copy: None,
        };
        if !self.is_told_in_place(&mistake.error, token)
            && let Some(copy) = rest_at(alloc, self.text, from.offset)?
            && let Some(error) = self.error_of_copy(alloc, copy.as_str())?
        {
            mistake.error = error;
            mistake.copy = Some(copy);
        }
        Ok(mistake)
    }

    // What is wrong with a copy of a part of the text, if it is to be reported.
    fn error_of_copy(&self, alloc: Global, copy: &str) -> Result<Option<Error>, AllocError> {
        let source = Source {
            text: copy,
            ..*self
        };
        match source.refused_from(alloc, ReadFrom::top(copy))? {
            Some(refused) => Ok(Some(refused.error)),
            None => Ok(None),
        }
    }

    // What is wrong with the text from there on, if it is to be reported. The place of a rejected token, and its
    // offset, are those in the whole text.
    fn refused_from(
        &self,
        alloc: Global,
        from: ReadFrom,
    ) -> Result<Option<Refused<'a>>, AllocError> {
        let Some((_, rest)) = self.text.split_at_checked(from.offset) else {
            return Ok(None);
        };
        let source = Source {
            text: rest,
            ..*self
        };
        let Some(refused) = error_of(&mut Memory::new(alloc), &source, true)? else {
            return Ok(None);
        };
        let Refused { error, token } = refused;
        let error = match error {
            Error::MultipleOperations { .. } => return Ok(None),
            Error::Syntax { start, .. } => Error::Syntax {
                message: String::new(alloc),
                start: from.place_in_text(start),
                end: None,
            },
            other => other,
        };
        let token = token.map(|token| moved(token, from));
        Ok(Some(Refused { error, token }))
    }

    /// The reading of the text from its beginning on, up to the token that is rejected. An error says that memory was
    /// denied.
    pub fn refused_first(&self, alloc: Global, error: &Error) -> Result<ReadUpTo<'a>, AllocError>
        ensures { IfOk result (λ read. BeginsAt self.now.text.now read.from) }
    {
        ReadUpTo::refused(alloc, self.language, self.text, self.limits, error)
    }

    // Whether the error can be reported without a copy of the rest of the text, from whose beginning a report counts
    // its places: so can a rejected token, if it is no string in which a bad escape may stand.
    fn is_told_in_place(&self, error: &Error, token: Option<Token<'_>>) -> bool {
        let Some(token) = token else {
            return false;
        };
        let is_string = match self.text.split_at_checked(token.start) {
            Some((_, rest)) => rest.starts_with('"'),
            None => false,
        };
        let may_have_escape = is_string && matches!(token.kind, TokenKind::Fault);
        matches!(error, Error::Syntax { .. }) && !may_have_escape
    }

    // Where the block string probably begins that isn't closed, if that isn't the rejected token; `last` is the one
    // that nothing closes.
    fn opening(&self, token: &Token<'_>, last: usize) -> Option<Pos> {
        let start = probable_opening(self.language, self.text, token.start).unwrap_or(last);
        let (front, _) = self.text.split_at_checked(start)?;
        if start == token.start {
            return None;
        }
        Some(PositionCalculator::new(front).step(front.len()))
    }

    // Where a text is read next that was read from there on and passed up to this offset, if a token was rejected.
    fn next_after(&self, from: ReadFrom, passed: Option<usize>) -> Option<ReadFrom>
        requires { BeginsAt self.now.text.now from }
        ensures { IfSome result (λ from. BeginsAt self.now.text.now from) }
    {
        let offset = next_definition(self.language, self.text, passed?)?;
        from.later(self.text, offset)
    }
}

// The reading of a text from there on, up to the token at which it is rejected.
fn read_up_to<'a>(from: ReadFrom, token: Option<Token<'a>>) -> ReadUpTo<'a>
    ensures { result.from ≡ from }
{
    ReadUpTo {
        from,
        token,
        unclosed: None,
    }
}

// A token of the text from there on, with its offset and its place in the whole text.
fn moved<'a>(token: Token<'a>, from: ReadFrom) -> Token<'a> {
    Token {
        start: token.start.saturating_add(from.offset),
        pos: from.place_in_text(token.pos),
        ..token
    }
}

// The same of a copy of the text from there on, before which as many lines stand, each of a line feed alone.
fn in_copy<'a>(known: &ReadUpTo<'a>, copy: &str) -> ReadUpTo<'a>
    ensures { BeginsAt copy.now result.from }
{
    let from = known.from;
    let lines = from.line.saturating_sub(1);
    ReadUpTo {
        from: ReadFrom::top(copy),
        token: known.token.map(|token| Token {
            start: token
                .start
                .saturating_sub(from.offset)
                .saturating_add(lines),
            ..token
        }),
        unclosed: known.unclosed,
    }
}

//! Texts that are read from a later line on: where that line begins, and which place in the whole text a place in the
//! rest is.
ghost use Rattle.std.specs.Prelude.{◌≡◌, ◌+◌, ◌<◌, ◌^◌, ◌-◌, take, drop, IsTrue, IfSome};
ghost use Rattle.std.specs.List.{count_by};
ghost use Rattle.std.specs.Str.{chars, IsCharBoundary};
ghost use Rattle.graphql_tokens.specs.tokens.Place.{is_line_feed, place_after};
ghost use Rattle.graphql_report.specs.reports.Refused.{IsItsToken};
ghost use Rattle.graphql_report.specs.reports.Rests.{BeginsAt, IsMoved, top};

use crate::fronts::Language;
use crate::refused::{after, before, refused_token};
use graphql_parser::lexer::Token;
use graphql_parser::{Error, Limits, Pos};
use std::alloc::{AllocError, Global};

/// The line on which the reading of a text began. (This project's own type.)
#[derive(Clone, Copy, Debug, PartialEq, Eq)]
pub struct ReadFrom {
    /// The byte offset.
    pub offset: usize,
    /// The line that begins there, counted from 1.
    pub line: usize,
}

impl ReadFrom {
    /// The beginning of a text. (This project's own call.)
    pub fn top(text: &str) -> ReadFrom
        ensures begins { BeginsAt text.now result }
        ensures top { result ≡ top }
    {
        let _ = text;
        ReadFrom { offset: 0, line: 1 }
    }

    /// The line that begins at this offset of the text, if a line begins there that isn't before this one. The caller
    /// owes that this one begins in the text as it says. Only the text between both is read. (This project's own call.)
    pub fn later(self, text: &str, offset: usize) -> Option<ReadFrom>
        requires { BeginsAt text.now self }
        ensures { IfSome result (λ next. (next.offset ≡ offset) × BeginsAt text.now next) }
    {
        let (front, _) = text.split_at_checked(offset)?;
        let (_, passed) = front.split_at_checked(self.offset)?;
        if !ends_line(front) {
            return None;
        }
        let line = self.line + line_feeds(passed);
        Some(ReadFrom { offset, line })
    }

    /// The place in the whole text that is this place in the rest of the text. (This project's own call.)
    pub fn place_in_text(self, place: Pos) -> Pos
        ensures { IsMoved self place result }
    {
        Pos {
            line: place.line.saturating_add(self.line.saturating_sub(1)),
            column: place.column,
        }
    }

    /// A token of the rest of the text, with its offset and its place in the whole text.
    pub(crate) fn moved(self, token: Token<'_>) -> Token<'_>
        ensures moved { IsMoved self token.entry.pos result.pos }
        ensures same { (result.kind ≡ token.entry.kind) × (result.text ≡ token.entry.text) }
        ensures start { self.offset + token.entry.start < 2 ^ 64 → result.start ≡ self.offset + token.entry.start }
    {
        Token {
            kind: token.kind,
            text: token.text,
            start: token.start.saturating_add(self.offset),
            pos: self.place_in_text(token.pos),
        }
    }
}

// Whether the last character is a line feed, or a carriage return, after which the columns begin anew.
fn ends_line(text: &str) -> bool
    ensures { IsTrue result → (place_after (chars text.now)).column ≡ 1 }
{
    match text.strip_suffix('\n') {
        Some(_) => true,
        None => match text.strip_suffix('\r') {
            Some(_) => true,
            None => false,
        },
    }
}

// How many line feeds are in a text.
fn line_feeds(text: &str) -> usize
    ensures { result ≡ count_by is_line_feed text.now }
{
    let mut feeds = 0;
    for byte in text.as_bytes() {
        if *byte == b'\n' {
            feeds += 1;
        }
    }
    feeds
}

/// What is known of the reading of a text that is rejected, beside the error. (This project's own type.)
#[derive(Clone, Copy)]
pub struct ReadUpTo<'a> {
    /// Where it began.
    pub from: ReadFrom,
    /// The token at which it ended: the rejected one, as [`refused_token_from`](crate::refused_token_from) returns it;
    /// None of an error about definitions.
    pub token: Option<Token<'a>>,
    /// Where a block string begins that is probably not closed, if the report is to say so after what it reports of the
    /// token.
    pub unclosed: Option<Pos>,
}

impl<'a> ReadUpTo<'a> {
    ghost use Rattle.std.specs.Prelude.{IfOk, None};

    /// The reading of a text from its beginning on, up to the token that is rejected. An error says that memory was
    /// refused. (This project's own call.)
    pub fn refused(
        alloc: Global,
        language: Language,
        text: &'a str,
        limits: Limits,
        error: &Error,
    ) -> Result<ReadUpTo<'a>, AllocError>
        ensures begins { IfOk result (λ read. BeginsAt text.entry.now read.from) }
        ensures top { IfOk result (λ read. read.from ≡ top) }
        ensures closed { IfOk result (λ read. read.unclosed ≡ None) }
        ensures token { IfOk result (λ read.
            IsItsToken language limits text.entry.now top error.now read.token) }
    {
        Ok(ReadUpTo {
            from: ReadFrom::top(text),
            token: refused_token(alloc, language, text, limits, error)?,
            unclosed: None,
        })
    }
}

/// What was read of a text that was read from there on, up to this offset in the whole text.
pub fn read_before(text: &str, from: ReadFrom, offset: usize) -> &str
    ensures { IsCharBoundary text.now from.offset →
        IsCharBoundary (drop from.offset text.now) (offset - from.offset) →
        result.now ≡ take (offset - from.offset) (drop from.offset text.now) }
{
    before(after(text, from.offset), offset.saturating_sub(from.offset))
}

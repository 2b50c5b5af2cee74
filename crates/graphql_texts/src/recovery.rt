//! Where checking goes on after a token is rejected: at the next line that begins with a definition.
use crate::language::language_of_keyword;
use graphql_parser::lexer::{Token, TokenKind, Tokens};
use graphql_report::Language;
use std::alloc::{AllocError, Global};

/// Where the next definition begins, at this offset or after it: at the first token that stands at the beginning of a
/// line and begins a definition of this language. What is inside of a block string is no token, so it begins none.
pub fn next_definition(language: Language, text: &str, from: usize) -> Option<usize> {
    searched(text, from, |start| look_from(language, text, start))
}

/// The text from this offset on, after a line feed for each one before it: so each place in it is that in the text, if
/// a line begins at the offset.
pub fn rest_at(alloc: Global, text: &str, offset: usize) -> Result<Option<String>, AllocError> {
    let Some((front, back)) = text.split_at_checked(offset) else {
        return Ok(None);
    };
    let mut rest = String::with_capacity(alloc, text.len())?;
    for _ in front.matches('\n') {
        rest.push('\n')?;
    }
    rest.push_str(back)?;
    Ok(Some(rest))
}

// What is found among the tokens of a text.
#[derive(Clone, Copy)]
enum Search {
    // What is looked for begins at this offset.
    Found(usize),
    // At this offset no token begins.
    Fault(usize),
    // Neither is there.
    Ended,
}

// Where a search that begins at an offset finds what it looks for, of one that begins at this offset, and then in the
// next line after each place where no token begins.
fn searched<F: Fn(usize) -> Search>(text: &str, from: usize, look: F) -> Option<usize>
    requires { F.IsAlwaysCallable look }
{
    let mut start = from;
    // Each turn passes a line.
    for _ in 0..text.len() {
        match look(start) {
            Search::Found(offset) => return Some(offset),
            Search::Fault(offset) => start = next_line(text, offset)?,
            Search::Ended => return None,
        }
    }
    None
}

// Looks at the tokens from this offset on for a definition at the beginning of a line.
fn look_from(language: Language, text: &str, from: usize) -> Search {
    let Some((front, rest)) = text.split_at_checked(from) else {
        return Search::Ended;
    };
    let mut before: Option<Token<'_>> = None;
    for token in Tokens::new(rest) {
        if let Some(first) = before
            && stands_first(front, rest, first.start)
            && begins_definition(language, &first, &token)
        {
            return Search::Found(from.saturating_add(first.start));
        }
        if matches!(token.kind, TokenKind::Fault) {
            return Search::Fault(from.saturating_add(token.start));
        }
        before = Some(token);
    }
    Search::Ended
}

/// Whether this offset of the second part of a text is where a line begins, as it does after a carriage return alone.
pub fn stands_first(front: &str, rest: &str, offset: usize) -> bool {
    match rest.split_at_checked(offset) {
        Some(("", _)) => front.is_empty() || front.ends_with(['\n', '\r']),
        Some((before, _)) => before.ends_with(['\n', '\r']),
        None => false,
    }
}

/// Whether a definition begins with these two tokens: a keyword, which is no field's name, as the one before a colon
/// is; a brace, in a request; a description and a keyword, in a schema file.
pub fn begins_definition(language: Language, first: &Token<'_>, second: &Token<'_>) -> bool {
    let of_schemas = language == Language::Schemas;
    match first.kind {
        TokenKind::Name if of_schemas => {
            is_keyword(language, first) && !matches!(second.text, ":" | "(")
        }
        TokenKind::Name => is_keyword(language, first) && second.text != ":",
        TokenKind::String | TokenKind::Block => of_schemas && is_keyword(language, second),
        TokenKind::Punct => !of_schemas && first.text == "{",
        _ => false,
    }
}

/// Where a token ends.
pub fn end_of(token: &Token<'_>) -> usize {
    token.start.saturating_add(token.text.len())
}

fn is_keyword(language: Language, token: &Token<'_>) -> bool {
    token.kind.is_name() && language_of_keyword(token.text) == Some(language)
}

/// Where the block string begins that nothing closes, of a text that is read from this offset on, and in the next line
/// after each place where no token begins.
pub fn unclosed_string(text: &str, from: usize) -> Option<usize> {
    searched(text, from, |start| look_for_quotes(text, start))
}

// Looks at the tokens from this offset on for a block string that isn't closed: none begins where a token is, and three
// quotes at which none begins are those of such a string.
fn look_for_quotes(text: &str, from: usize) -> Search {
    let Some((_, rest)) = text.split_at_checked(from) else {
        return Search::Ended;
    };
    for token in Tokens::new(rest) {
        if matches!(token.kind, TokenKind::Fault) {
            let offset = from.saturating_add(token.start);
            return match text.split_at_checked(offset) {
                Some((_, rest)) if rest.starts_with(QUOTES) => Search::Found(offset),
                _ => Search::Fault(offset),
            };
        }
    }
    Search::Ended
}

/// Where the block string probably begins that isn't closed, of a text that was rejected at the offset `refused`. Such
/// a string ends where the next one was to begin, with a definition in it, or with the first words of that one after
/// it, which are rejected.
pub fn probable_opening(language: Language, text: &str, refused: usize) -> Option<usize> {
    searched(
        text,
        0,
        |start| look_for_opening(language, text, start, refused),
    )
}

// Looks at the tokens from this offset on for a block string that ends where the next one was to begin.
fn look_for_opening(language: Language, text: &str, from: usize, refused: usize) -> Search {
    let Some((_, rest)) = text.split_at_checked(from) else {
        return Search::Ended;
    };
    for token in Tokens::new(rest) {
        let start = from.saturating_add(token.start);
        match token.kind {
            TokenKind::Block => {
                let end = start.saturating_add(token.text.len());
                if holds_definition(language, text, start, end)
                    || leads_to(language, text, end, refused)
                {
                    return Search::Found(start);
                }
            }
            TokenKind::Fault => return Search::Fault(start),
            _ => (),
        }
    }
    Search::Ended
}

// Whether a line with a definition begins in the block string between these offsets.
fn holds_definition(language: Language, text: &str, start: usize, end: usize) -> bool {
    let inside = start.saturating_add(QUOTES.len());
    match text.get(..end.saturating_sub(QUOTES.len())) {
        Some(front) => next_definition(language, front, inside).is_some(),
        None => false,
    }
}

// Whether only words stand between the end of a block string and the rejected token, of which the first is no keyword.
fn leads_to(language: Language, text: &str, end: usize, refused: usize) -> bool {
    let Some(words) = text.get(end..refused) else {
        return false;
    };
    let mut is_first = true;
    for token in Tokens::new(words) {
        let is_word = token.kind.is_name() && !(is_first && is_keyword(language, &token));
        if !is_word && !matches!(token.kind, TokenKind::End) {
            return false;
        }
        is_first = false;
    }
    true
}

// What begins and ends a block string.
const QUOTES: &str = "\"\"\"";

// Where the line after this offset begins, if there is one.
fn next_line(text: &str, offset: usize) -> Option<usize> {
    let (_, rest) = text.split_at_checked(offset)?;
    let (_, after) = rest.split_once(['\n', '\r'])?;
    Some(text.len().saturating_sub(after.len()))
}

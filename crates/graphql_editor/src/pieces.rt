//! The words of a text, one after another: its tokens, and what is left of those that are broken.
ghost use Rattle.std.specs.Prelude.{◌≡◌};

use crate::gaps::{first_line, line_length};
use crate::roles::Word;
use crate::walk::Walk;
use graphql_tokens::lexer::{TokenKind, Tokens};
use std::alloc::AllocError;

const QUOTES: &str = "\"\"\"";

// Hands the tokens of a part of the text to the walk, and tells where in the part they end: where no token begins, or at its end.
fn read_tokens(walk: &mut Walk, text: &str, part: &str, start: usize) -> Result<usize, AllocError>
    ensures structure { walk.new.structure ≡ walk.old.structure }
    ensures chain { walk.new.chain ≡ walk.old.chain }
{
    for token in Tokens::new(part) {
        match token.kind {
            TokenKind::Fault => return Ok(token.start),
            TokenKind::End => return Ok(part.len()),
            kind => {
                let word = Word::new(kind, token.text, start.saturating_add(token.start));
                walk.pass(text, &word)?;
            }
        }
    }
    Ok(part.len())
}

// How long a string is that is broken, from its quote on: to its other quote, or to the end of its line.
fn string_length(rest: &str) -> usize {
    let mut is_escaped = false;
    for (at, b) in rest.as_bytes().iter().enumerate().skip(1) {
        match *b {
            b'\n' | b'\r' => return at,
            b'"' if !is_escaped => return at.saturating_add(1),
            b'\\' => is_escaped = !is_escaped,
            _ => is_escaped = false,
        }
    }
    rest.len()
}

// How long a number is that is broken, with the letters that it touches.
fn number_length(rest: &str) -> usize {
    rest.as_bytes()
        .iter()
        .position(|b| !b.is_ascii_alphanumeric() && !matches!(*b, b'_' | b'.' | b'-' | b'+'))
        .unwrap_or(rest.len())
}

// What is taken for a word where no token begins, and how long it is.
fn broken(rest: &str) -> (Option<TokenKind>, usize) {
    if rest.starts_with(QUOTES) {
        return (Some(TokenKind::Block), line_length(rest.as_bytes()));
    }
    match rest.chars().next() {
        Some('"') => (Some(TokenKind::String), string_length(rest)),
        Some('-' | '0'..='9') => (Some(TokenKind::Number), number_length(rest)),
        Some(other) => (None, other.len_utf8()),
        None => (None, 0),
    }
}

// Hands what is broken to the walk, and tells how long it is.
fn read_broken(walk: &mut Walk, text: &str, rest: &str, start: usize) -> Result<usize, AllocError>
    ensures structure { walk.new.structure ≡ walk.old.structure }
    ensures chain { walk.new.chain ≡ walk.old.chain }
{
    let (kind, length) = broken(rest);
    if let Some(kind) = kind
        && let Some(spelling) = rest.get(..length)
    {
        walk.pass(text, &Word::new(kind, spelling, start))?;
    }
    Ok(length)
}

/// Hands the words of a text to a walk, one after another.
///
/// Behind a block string that has no end the tokens of each line are read for themselves: such a string is looked for up to the
/// end of the text, and so it is done once.
pub(crate) fn read(walk: &mut Walk, text: &str) -> Result<(), AllocError>
    ensures structure { walk.new.structure ≡ walk.old.structure }
    ensures chain { walk.new.chain ≡ walk.old.chain }
{
    let mut at = 0;
    let mut is_by_line = false;
    while at < text.len() {
        let Some(rest) = text.get(at..) else {
            break;
        };
        let limit = if is_by_line {
            first_line(rest)
        } else {
            rest.len()
        };
        let part = rest.get(..limit).unwrap_or(rest);
        let stop = read_tokens(walk, text, part, at)?;
        let broken = part.get(stop..).unwrap_or("");
        let length = if broken.is_empty() {
            0
        } else {
            is_by_line = is_by_line || broken.starts_with(QUOTES);
            read_broken(walk, text, broken, at.saturating_add(stop))?
        };
        at = at.saturating_add(stop.saturating_add(length).max(1));
    }
    walk.finish(text)
}

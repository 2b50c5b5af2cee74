//! What is left to be read of a document after a front, and what can stand there.
ghost use Rattle.std.specs.Prelude.{◌≡◌, false, List, ℕ, Some, IfOk, IfSome, reverse};
ghost use Rattle.std.specs.Str.{IsUtf8, chars};
ghost use Rattle.graphql_tokens.specs.tokens.Cuts.{is_last as is_last_kind};
ghost use Rattle.graphql_report.specs.declared.fronts.Language.{Language as Of};
ghost use Rattle.graphql_reading.specs.grammar.Limits.{Limits as Budgets};
ghost use Rattle.graphql_tokens.specs.tokens.Token.{Token as SpecToken};
ghost use Rattle.graphql_report.specs.fronts.Front.{LastIsLineFeed};
ghost use Rattle.graphql_report.specs.inner.Left.{IsLeftOf, whole_of, phrases_at};
ghost use Rattle.graphql_report.specs.reports.Expected.{TellsFrontOf, TellsTreeOf, with_sample};

use crate::fronts::Language;
use crate::phrases::Phrase;
use crate::productions::put;
use crate::steps::step;
use graphql_parser::lexer::{Token, TokenKind, Tokens};
use graphql_parser::{Limits, Memory};
use graphql_reading::parser::Parser;
use std::alloc::{AllocError, Global};

/// What is left after the tokens of the front, the next phrase last. It takes one reading of the front. Returns none if
/// the front isn't viable.
pub fn left_after(
    alloc: Global,
    language: Language,
    front: &str,
    limits: Limits,
) -> Result<Option<Vec<Phrase>>, AllocError>
    ensures { IfOk result (λ found. IfSome found (λ left. IsLeftOf language limits front.now left.items)) }
{
    let mut parser = Parser::new(Memory::new(alloc), Tokens::new(front));
    let mut left = whole_document(alloc, language)?;
    while !is_last(&parser.hand()) {
        let Some(is_next) = step(&mut left, limits, &parser)? else {
            return Ok(None);
        };
        if !is_next {
            return Ok(None);
        }
        parser.advance();
    }
    if parser.hand().kind.is_end() {
        Ok(Some(left))
    } else {
        Ok(None)
    }
}

// All of a document, and the end of the text.
fn whole_document(alloc: Global, language: Language) -> Result<Vec<Phrase>, AllocError>
    ensures { IfOk result (λ left. (limits : Budgets) (ts : List SpecToken) →
        whole_of language limits ts ≡ phrases_at limits (reverse left.items) ts) }
{
    match language {
        Language::Requests => only(
            alloc,
            &[
                Phrase::RequestDefinition,
                Phrase::RequestDefinitions,
                Phrase::End,
            ],
        ),
        Language::Schemas => only(
            alloc,
            &[
                Phrase::SchemaDefinition,
                Phrase::SchemaDefinitions,
                Phrase::End,
            ],
        ),
    }
}

// These phrases, the next one last.
fn only(alloc: Global, phrases: &[Phrase]) -> Result<Vec<Phrase>, AllocError>
    ensures { IfOk result (λ left. left.items ≡ reverse phrases.now) }
{
    let mut left = Vec::new(alloc);
    put(&mut left, phrases)?;
    Ok(left)
}

// Whether no token follows this one.
fn is_last(token: &Token<'_>) -> bool
    ensures { result ≡ is_last_kind token.now.kind }
{
    matches!(token.kind, TokenKind::End | TokenKind::Fault)
}

/// Whether a line after which this is left can go on with this sample, the text of one token; of any other text none is
/// given.
pub fn can_go_on(
    alloc: Global,
    left: &[Phrase],
    limits: Limits,
    sample: &str,
) -> Result<Option<bool>, AllocError>
    ensures { IfOk result (λ found. IfSome found (λ answer. (language : Of) (line : List ℕ) →
        IsUtf8 line → LastIsLineFeed (chars line) → IsLeftOf language limits line left.now →
        TellsFrontOf language limits (with_sample line sample.now) answer)) }
{
    let parser = Parser::new(Memory::new(alloc), Tokens::new(sample));
    let token = parser.hand();
    if is_last(&token) {
        return Ok(None);
    }
    if token.text != sample {
        return Ok(None);
    }
    let mut left = copy(alloc, left)?;
    step(&mut left, limits, &parser)
}

/// Whether the line after which this is left is a whole document.
pub fn can_end(alloc: Global, left: &[Phrase], limits: Limits) -> Result<Option<bool>, AllocError>
    ensures { IfOk result (λ found. IfSome found (λ answer. (language : Of) (line : List ℕ) → IsUtf8 line →
        IsLeftOf language limits line left.now → TellsTreeOf language limits line answer)) }
{
    let parser = Parser::new(Memory::new(alloc), Tokens::new(""));
    let end = parser.hand();
    if !end.kind.is_end() {
        return Ok(None);
    }
    if end.text != "" {
        return Ok(None);
    }
    let mut left = copy(alloc, left)?;
    let ends = step(&mut left, limits, &parser)?;
    if left.is_empty() {
        Ok(ends)
    } else {
        Ok(if_false(ends))
    }
}

// The answer, if it is false.
fn if_false(answer: Option<bool>) -> Option<bool>
    ensures { IfSome result (λ is. (is ≡ false) × (answer ≡ Some false)) }
{
    match answer {
        Some(false) => Some(false),
        _ => None,
    }
}

// The same phrases.
fn copy(alloc: Global, phrases: &[Phrase]) -> Result<Vec<Phrase>, AllocError>
    ensures { IfOk result (λ copy. copy.items ≡ phrases.now) }
{
    let mut copy = Vec::with_capacity(alloc, phrases.len())?;
    copy.extend_from_slice(phrases)?;
    Ok(copy)
}

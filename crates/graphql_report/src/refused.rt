//! Where a text is rejected, and by which limit.
ghost use Rattle.std.specs.Prelude.{◌≡◌, ◌↔◌, ◌⊎◌, ℕ, IsTrue, IfOk, List, [], ◌++◌, take, drop, Err};
ghost use Rattle.std.specs.Str.{IsCharBoundary};
ghost use Rattle.graphql_grammar.specs.declared.error.Error.TheVariants.{OutOfMemory, RecursionLimitExceeded};
ghost use Rattle.graphql_report.specs.inner.Told.{ReadsTo};
ghost use Rattle.graphql_report.specs.reports.Refused.{IsOfAToken, IsItsToken};
ghost use Rattle.graphql_report.specs.reports.Findings.{IsLimitNamed};
ghost use Rattle.graphql_report.specs.reports.Rests.{BeginsAt, top};

use crate::fronts::Language;
use crate::probes::{line_of, passes};
use crate::rests::{ReadFrom, read_before};
use crate::samples::NUMBER_TEXT;
use graphql_parser::lexer::Token;
use graphql_parser::{Error, Limits, Memory, check_query_to, check_schema_to};
use std::alloc::{AllocError, Global};

/// The parts of `text` before this offset and from it on; the whole text and nothing if the offset is none of its.
pub fn split(text: &str, offset: usize) -> (&str, &str)
    ensures whole { text.now ≡ result.0.now ++ result.1.now }
    ensures back { IsCharBoundary text.now offset → result.1.now ≡ drop offset text.now }
    ensures front { IsCharBoundary text.now offset → result.0.now ≡ take offset text.now }
    ensures elsewhere { IsCharBoundary text.now offset ⊎ (result.1.now ≡ []) }
{
    match text.split_at_checked(offset) {
        Some(parts) => parts,
        None => (text, ""),
    }
}

/// The part of `text` before this offset; the whole text if the offset is none of its.
pub fn before(text: &str, offset: usize) -> &str
    ensures begins { (rest : List ℕ) × (text.now ≡ result.now ++ rest) }
    ensures front { IsCharBoundary text.now offset → result.now ≡ take offset text.now }
{
    split(text, offset).0
}

/// The part of `text` from this offset on; nothing if the offset is none of its.
pub fn after(text: &str, offset: usize) -> &str
    ensures { IsCharBoundary text.now offset → result.now ≡ drop offset text.now }
{
    split(text, offset).1
}

/// The rejected token of a text that `error` rejects: the first token such that no document within the limits begins
/// with the tokens up to it, itself included.
///
/// One check of the text finds it. None of an error about definitions, or
/// if the text isn't rejected. An error says that memory was refused. (This project's own call.)
pub fn refused_token<'a>(
    alloc: Global,
    language: Language,
    text: &'a str,
    limits: Limits,
    error: &Error,
) -> Result<Option<Token<'a>>, AllocError>
    ensures { IfOk result (IsItsToken language limits text.entry.now top error.now) }
{
    if is_of_token(error) {
        refused_in(alloc, language, text, limits)
    } else {
        Ok(None)
    }
}

/// As [`refused_token`], of a text that was read from this line on: what stands before is not looked at. The caller
/// owes that the line begins there. The place of the token is that in the whole text. (This project's own call.)
pub fn refused_token_from<'a>(
    alloc: Global,
    language: Language,
    text: &'a str,
    from: ReadFrom,
    limits: Limits,
    error: &Error,
) -> Result<Option<Token<'a>>, AllocError>
    requires { BeginsAt text.now from }
    ensures { IfOk result (IsItsToken language limits text.entry.now from error.now) }
{
    let rest = after(text, from.offset);
    let token = refused_token(alloc, language, rest, limits, error)?;
    Ok(match token {
        Some(token) => Some(from.moved(token)),
        None => None,
    })
}

/// Whether the error is one of a rejected token.
pub fn is_of_token(error: &Error) -> bool
    ensures { IsTrue result ↔ IsOfAToken error.now }
{
    matches!(error, Error::Syntax { .. } | Error::RecursionLimitExceeded)
}

// The rejected token of a text, if it has one.
fn refused_in<'a>(
    alloc: Global,
    language: Language,
    text: &'a str,
    limits: Limits,
) -> Result<Option<Token<'a>>, AllocError>
    ensures { IfOk result (IsItsToken language limits text.entry.now top RecursionLimitExceeded) }
{
    let (answer, token) = check_to(alloc, language, text, limits);
    if is_out_of_memory(&answer) {
        return Err(AllocError);
    }
    Ok(token)
}

// Whether memory was refused.
fn is_out_of_memory(answer: &Result<(), Error>) -> bool
    ensures { answer.now ≡ Err OutOfMemory → IsTrue result }
{
    matches!(answer, Err(Error::OutOfMemory))
}

// What the check of the language reports of the text, and the rejected token.
fn check_to<'a>(
    alloc: Global,
    language: Language,
    text: &'a str,
    limits: Limits,
) -> (Result<(), Error>, Option<Token<'a>>)
    ensures { ReadsTo language limits text.entry.now result.0 result.1 }
{
    let memory = &mut Memory::new(alloc);
    match language {
        Language::Requests => check_query_to(memory, text, limits),
        Language::Schemas => check_schema_to(memory, text, limits),
    }
}

/// One of the three things that nest, and how deep it may.
#[derive(Clone, Copy)]
pub struct Depth {
    pub what: &'static str,
    pub most: usize,
}

/// Which limit rejects the token. If a number could stand, a value begins: there the token opens a list or an object.
/// Elsewhere a `[` opens a list type. What is left opens a selection set, or has to have one after it, as the `on` and
/// the `@` of an inline fragment.
pub fn reached_limit(
    alloc: Global,
    language: Language,
    text: &str,
    from: ReadFrom,
    limits: Limits,
    token: &Token<'_>,
) -> Result<Depth, AllocError>
    ensures { IfOk result (λ depth. IsLimitNamed limits depth.what.now depth.most) }
{
    let line = line_of(alloc, read_before(text, from, token.start))?;
    let (what, most) = if passes(alloc, language, limits, line.as_str(), NUMBER_TEXT)? {
        ("lists and objects", limits.values())
    } else if token.text == "[" {
        ("list types", limits.types())
    } else {
        ("selection sets", limits.selections())
    };
    Ok(Depth { what, most })
}

//! Whether some document goes on from a text: asked of the checks.
ghost use Rattle.std.specs.Prelude.{◌≡◌, ◌↔◌, IsTrue, IfOk, List};
ghost use Rattle.std.specs.Str.{chars};
ghost use Rattle.graphql_tokens.specs.tokens.Cuts.{IsCutInto};
ghost use Rattle.graphql_tokens.specs.tokens.Place.{place_after};
ghost use Rattle.graphql_tokens.specs.tokens.Token.{Token as SpecToken};
ghost use Rattle.graphql_report.specs.fronts.Front.{LastIsLineFeed, IsFrontOf};
ghost use Rattle.graphql_report.specs.reports.Expected.{TellsTreeOf};
ghost use Rattle.graphql_report.specs.inner.Told.{ReadsAs, TellsFront, TellsTree};

use graphql_parser::pos::PositionCalculator;
use graphql_parser::{Error, Limits, Pos, check_query_limited, check_schema_limited};
use std::alloc::{AllocError, Global};

/// What a text is read as.
#[derive(Clone, Copy, Debug, PartialEq, Eq)]
pub enum Language {
    /// A request: operations and fragments.
    Requests,
    /// A schema file: definitions and extensions of schemas, types and directives.
    Schemas,
}

/// Whether the tokens of `text` are a viable front: whether some document within the limits begins with them. A text
/// with a fault is none (this project's own call).
///
/// The text ends in a line feed, which the caller owes: so the place of its end is the place of no token. It takes one
/// check of the text. An error says that memory was refused.
pub fn is_front(
    alloc: Global,
    language: Language,
    text: &str,
    limits: Limits,
) -> Result<bool, AllocError>
    requires { LastIsLineFeed (chars text.now) }
    ensures { IfOk result (λ answer. (tokens : List SpecToken) → IsCutInto text.now tokens →
        IsTrue answer ↔ IsFrontOf language limits tokens) }
{
    match check(alloc, language, text, limits) {
        Ok(_) => Ok(true),
        Err(error) => goes_on(&error, end_of(text)),
    }
}

/// Whether the text's tokens are a whole document within the limits, or one but for a rule.
pub fn is_whole(
    alloc: Global,
    language: Language,
    text: &str,
    limits: Limits,
) -> Result<bool, AllocError>
    ensures { IfOk result (TellsTreeOf language limits text.now) }
{
    match check(alloc, language, text, limits) {
        Ok(_) => Ok(true),
        Err(error) => has_tree(&error),
    }
}

// What the check of the language reports of the text.
fn check(alloc: Global, language: Language, text: &str, limits: Limits) -> Result<(), Error>
    ensures { ReadsAs language limits text.now result }
{
    match language {
        Language::Requests => check_query_limited(alloc, text, limits),
        Language::Schemas => check_schema_limited(alloc, text, limits),
    }
}

// Whether a text that has this error has a tree, which breaks a rule.
fn has_tree(error: &Error) -> Result<bool, AllocError>
    ensures { TellsTree error.now result }
{
    match error {
        Error::OutOfMemory => Err(AllocError),
        Error::RecursionLimitExceeded | Error::Syntax { .. } => Ok(false),
        _ => Ok(true),
    }
}

// Whether a text that ends at this place, and has this error, can be completed.
fn goes_on(error: &Error, end: Pos) -> Result<bool, AllocError>
    ensures { TellsFront error.now end result }
{
    match error {
        Error::OutOfMemory => Err(AllocError),
        Error::RecursionLimitExceeded => Ok(false),
        Error::Syntax { start, .. } => Ok(*start == end),
        _ => Ok(true),
    }
}

/// The place after the last character.
pub fn end_of(text: &str) -> Pos
    ensures { result ≡ place_after (chars text.now) }
{
    let mut places = PositionCalculator::new(text);
    places.step(text.len())
}

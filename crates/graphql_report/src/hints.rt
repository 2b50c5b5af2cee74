//! What was meant, as far as that can be guessed from the rejected token and from what was expected.
ghost use Rattle.std.specs.Prelude.{◌≡◌, ◌⊎◌, IfOk, IfSome, OnOk, string_bytes};
ghost use Rattle.graphql_tokens.specs.tokens.Seen.{seen};
ghost use Rattle.graphql_report.specs.inner.Called.{texts};
ghost use Rattle.graphql_report.specs.inner.Told.{Adds, AddsHint, AddsMeant};
ghost use Rattle.graphql_report.specs.reports.Expected.{quoted};
ghost use Rattle.graphql_report.specs.reports.Faults.{expects_value as is_value_expected};
ghost use Rattle.graphql_report.specs.reports.Hints.{IsWordOf, begins_in_schemas as begins_schemas, is_among, is_of_other_language as is_of_other, other_language, unclosed_hint, word_of};
ghost use Rattle.graphql_report.specs.reports.Words.{is_no_enum_value as is_no_value};

use crate::fronts::Language;
use crate::refused::after;
use crate::samples::{END, LOCATION, NAME, NUMBER, VALUE};
use graphql_parser::Pos;
use graphql_parser::lexer::{Token, TokenKind, Tokens};
use graphql_parser::types::DirectiveLocation;
use std::alloc::{AllocError, Global};
use strsim::damerau_levenshtein;

// A name with more characters is no misspelled keyword or location.
const LONGEST_WORD: usize = 25;

// The locations of directives (GraphQL October 2021, section 3.13).
const LOCATIONS: [DirectiveLocation; 19] = [
    DirectiveLocation::Query,
    DirectiveLocation::Mutation,
    DirectiveLocation::Subscription,
    DirectiveLocation::Field,
    DirectiveLocation::FragmentDefinition,
    DirectiveLocation::FragmentSpread,
    DirectiveLocation::InlineFragment,
    DirectiveLocation::VariableDefinition,
    DirectiveLocation::Schema,
    DirectiveLocation::Scalar,
    DirectiveLocation::Object,
    DirectiveLocation::FieldDefinition,
    DirectiveLocation::ArgumentDefinition,
    DirectiveLocation::Interface,
    DirectiveLocation::Union,
    DirectiveLocation::Enum,
    DirectiveLocation::EnumValue,
    DirectiveLocation::InputObject,
    DirectiveLocation::InputFieldDefinition,
];

// The keywords of types and of schemas, which `extend` may stand before.
const EXTENDED: [&str; 7] = [
    "enum",
    "input",
    "interface",
    "scalar",
    "schema",
    "type",
    "union",
];

// What a definition of a request begins with.
const OF_REQUESTS: [&str; 5] = ["{", "fragment", "mutation", "query", "subscription"];

// Whether a definition of a schema file may begin with the word, but for its description.
fn begins_in_schemas(word: &str) -> bool
    ensures { result ≡ begins_schemas word.now }
{
    EXTENDED.contains(&word) || word == "extend" || word == "directive"
}

/// Adds what may have been meant in place of the rejected token, or why it can't stand there; nothing if neither is
/// known. It returns the word that may have been meant, if it is one.
pub fn push_hint(
    alloc: Global,
    out: &mut String,
    language: Language,
    text: &str,
    token: &Token<'_>,
    expected: &[&'static str],
) -> Result<Option<&'static str>, AllocError>
    ensures { IfOk result (λ meant. AddsHint language (seen token.now).bare (texts expected.now)
        (string_bytes out.old) (string_bytes out.new) (word_of meant)) }
{
    if is_of_other_language(language, token, expected) {
        push_other_language(out, language, token)?;
        return Ok(None);
    }
    if is_no_enum_value(language, token, expected) {
        out.push_str(" (\"true\", \"false\" and \"null\" can't be enum values)")?;
        return Ok(None);
    }
    if !token.kind.is_name() {
        return Ok(None);
    }
    // After a description any definition may stand, but no extension.
    if token.text == "extend" && expects(expected, "\"directive\"") {
        out.push_str(" (an extension has no description)")?;
        return Ok(None);
    }
    if means_implements(text, token) && expects(expected, "\"implements\"") {
        return push_meant(out, "implements");
    }
    push_guess(alloc, out, language, token, expected)
}

/// Adds that a block string isn't closed, which probably begins at this place.
pub fn push_unclosed(out: &mut String, place: Pos) -> Result<(), AllocError>
    ensures { OnOk result (Adds (unclosed_hint place) (string_bytes out.old) (string_bytes out.new)) }
{
    write!(
        out,
        " (the block string that begins at {place} is probably not closed)"
    )
}

fn push_other_language(
    out: &mut String,
    language: Language,
    token: &Token<'_>,
) -> Result<(), AllocError>
    ensures { OnOk result (Adds (other_language language (seen token.now).bare)
        (string_bytes out.old) (string_bytes out.new)) }
{
    let word = token.text;
    match language {
        Language::Requests if !token.kind.is_name() => out.push_str(
            " (only a definition of a schema file has a description, and this text is read as a request)",
        ),
        Language::Requests => write!(
            out,
            " (\"{word}\" begins a definition of a schema file, and this text is read as a request)"
        ),
        Language::Schemas => write!(
            out,
            " (\"{word}\" begins a definition of a request, and this text is read as a schema file)"
        ),
    }
}

/// Whether a value is expected.
pub fn expects_value(expected: &[&'static str]) -> bool
    ensures { result ≡ is_value_expected (texts expected.now) }
{
    expects(expected, VALUE) || expects(expected, NUMBER)
}

fn expects(expected: &[&'static str], name: &str) -> bool
    ensures { result ≡ is_among (texts expected.now) name.now }
{
    expected.contains(&name)
}

// Whether a definition of the other language begins where one of this language could.
fn is_of_other_language(language: Language, token: &Token<'_>, expected: &[&'static str]) -> bool
    ensures { result ≡ is_of_other language (seen token.now).bare (texts expected.now) }
{
    let word = token.text;
    match language {
        Language::Requests => {
            let is_description = matches!(token.kind, TokenKind::String | TokenKind::Block);
            expects(expected, "\"fragment\"") && (is_description || begins_in_schemas(word))
        }
        // A brace may be meant for the definition before it, if there is one.
        Language::Schemas => {
            let is_first = !expects(expected, END);
            expects(expected, "\"extend\"")
                && OF_REQUESTS.contains(&word)
                && (is_first || token.kind.is_name())
        }
    }
}

/// Whether one of the three names that are no enum values stands where a value of an enum could: they stand wherever
/// else a name of a schema file may.
pub fn is_no_enum_value(language: Language, token: &Token<'_>, expected: &[&'static str]) -> bool
    ensures { result ≡ is_no_value language (seen token.now).bare.spelling (texts expected.now) }
{
    language == Language::Schemas
        && matches!(token.text, "true" | "false" | "null")
        && expects(expected, NAME)
}

// Whether this is the `extends` of other languages, and no misspelled `extend`, after which a keyword stands.
fn means_implements(text: &str, token: &Token<'_>) -> bool {
    let end = token.start.saturating_add(token.text.len());
    let next = Tokens::new(after(text, end)).next();
    let is_extension = next.is_some_and(|next| EXTENDED.contains(&next.text));
    token.text == "extends" && !is_extension
}

// The expected keyword, or the location of a directive, that is most like the name that was found, if it has two thirds
// of it. Small and capital letters make no difference.
fn push_guess(
    alloc: Global,
    out: &mut String,
    language: Language,
    token: &Token<'_>,
    expected: &[&'static str],
) -> Result<Option<&'static str>, AllocError>
    ensures { IfOk result (λ meant. AddsHint language (seen token.now).bare (texts expected.now)
        (string_bytes out.old) (string_bytes out.new) (word_of meant)) }
{
    if token.text.len() > LONGEST_WORD {
        return Ok(None);
    }
    let mut best = Guess {
        word: "",
        edits: usize::MAX,
    };
    let found = token.text.to_ascii_lowercase(alloc)?;
    for name in expected {
        best = better_of(alloc, best, name, found.as_str())?;
    }
    push_meant(out, best.word)
}

// The better of a guess and the words that are expected by this name.
fn better_of(
    alloc: Global,
    best: Guess,
    name: &'static str,
    found: &str,
) -> Result<Guess, AllocError>
    ensures { IfOk result (λ guess. (guess.word.now ≡ best.word.now) ⊎
        IsWordOf name.now guess.word.now) }
{
    let mut best = best;
    if name == LOCATION {
        for location in LOCATIONS {
            best = better(alloc, best, location.as_str(), found)?;
        }
    } else if let Some(keyword) = keyword(name) {
        best = better(alloc, best, keyword, found)?;
    }
    Ok(best)
}

// Adds a guess, if there is one, and returns it.
fn push_meant(out: &mut String, word: &'static str) -> Result<Option<&'static str>, AllocError>
    ensures { IfOk result (λ meant.
        AddsMeant word.now (string_bytes out.old) (string_bytes out.new) (word_of meant)) }
{
    if word.is_empty() {
        return Ok(None);
    }
    write!(out, " (did you mean \"{word}\"?)")?;
    Ok(Some(word))
}

// The best guess so far, and by how many edits it differs from what was found.
#[derive(Clone, Copy)]
struct Guess {
    word: &'static str,
    edits: usize,
}

// The better of a guess and this word; `found` is in small letters.
fn better(alloc: Global, best: Guess, word: &'static str, found: &str) -> Result<Guess, AllocError>
    ensures { IfOk result (λ guess. (guess.word.now ≡ best.word.now) ⊎ (guess.word.now ≡ word.now)) }
{
    let small = word.to_ascii_lowercase(alloc)?;
    let edits = damerau_levenshtein(alloc, small.as_str(), found)?;
    let is_like = edits <= word.len().div_ceil(3);
    Ok(if is_like && edits < best.edits {
        Guess { word, edits }
    } else {
        best
    })
}

// What is expected without its quotes, if it is a keyword.
fn keyword(name: &'static str) -> Option<&'static str>
    ensures { IfSome result (λ word. name.now ≡ quoted word.now) }
{
    let word = name.strip_prefix('"')?.strip_suffix('"')?;
    if word.starts_with(|c: char| c.is_ascii_lowercase()) {
        Some(word)
    } else {
        None
    }
}

//! What a text is read as: a request or a schema file.
ghost use Rattle.std.specs.Prelude.{◌≡◌, IfOk, Some, None};
ghost use Rattle.graphql_report.specs.declared.fronts.Language.{Language as Lang};
ghost use Rattle.graphql_texts.specs.checked.Language.{is_schema_file, language_said, IsReadAs, language_of_keyword, IsFurthest};
ghost use Rattle.graphql_texts.specs.inner.Begun.{language_begun};

use graphql_parser::lexer::{Token, TokenKind, Tokens};
use graphql_report::Language;
use std::alloc::{AllocError, Global};
use strsim::damerau_levenshtein;

// The words with which definitions of a request begin, and those with which definitions of a schema file do.
const REQUEST_KEYWORDS: [&str; 4] = ["query", "mutation", "subscription", "fragment"];

const SCHEMA_KEYWORDS: [&str; 9] = [
    "schema",
    "extend",
    "scalar",
    "type",
    "interface",
    "union",
    "enum",
    "input",
    "directive",
];

// A word with more characters is no misspelled keyword.
const LONGEST_WORD: usize = 15;

/// What a text is read as: by the option, else by the extension of its file, else by its own first words. An error
/// says that memory was denied.
pub fn read_as(
    alloc: Global,
    option: Option<Language>,
    file: &str,
    text: &str,
) -> Result<Language, AllocError>
    ensures said { IfOk result (λ language. IsReadAs option file.now language) }
    ensures furthest { language_said option file.now ≡ None →
        IfOk result (λ language. IsFurthest language text.now) }
{
    match language_said(option, file) {
        Some(language) => Ok(language),
        None => language_of(alloc, text),
    }
}

// The language that the option says, else the extension of the file.
fn language_said(option: Option<Language>, file: &str) -> Option<Language>
    ensures { result ≡ language_said option file.now }
{
    match option {
        Some(language) => Some(language),
        None if is_schema_file(file) => Some(Language::Schemas),
        None => None,
    }
}

// Whether a file of this name is a schema file. Other extensions, as `.graphql`, say nothing.
fn is_schema_file(name: &str) -> bool
    ensures { result ≡ is_schema_file name.now }
{
    name.ends_with(".graphqls") || name.ends_with(".gqls") || name.ends_with(".sdl")
}

// The language whose parser reads the text furthest. No token begins a document of both, so it is the one that the first
// token begins; the other is rejected there. If it begins neither, both are rejected there. Then the keyword decides that
// the first word is most like, and else the first keyword outside of all braces; and if there is none, it is a request.
fn language_of(alloc: Global, text: &str) -> Result<Language, AllocError>
    ensures { IfOk result (λ language. IsFurthest language text.now) }
{
    let mut tokens = Tokens::new(text);
    let Some(first) = tokens.next() else {
        return Ok(Language::Requests);
    };
    if let Some(language) = begun_by(text, &first) {
        return Ok(language);
    }
    if let Some(language) = nearest(alloc, &first)? {
        return Ok(language);
    }
    Ok(begun_later(tokens).unwrap_or(Language::Requests))
}

// The language whose documents this token begins. A description that isn't ended is a fault, and begins one all the
// same.
fn begun_by(text: &str, first: &Token<'_>) -> Option<Language>
    ensures { (language : Lang) →
        language_begun first.now.kind first.now.text.now ≡ Some language → result ≡ Some language }
{
    match first.kind {
        TokenKind::Name => language_of_keyword(first.text),
        TokenKind::String | TokenKind::Block => Some(Language::Schemas),
        TokenKind::Punct if first.text == "{" => Some(Language::Requests),
        TokenKind::Fault => match text.split_at_checked(first.start) {
            Some((_, rest)) if rest.starts_with('"') => Some(Language::Schemas),
            _ => None,
        },
        _ => None,
    }
}

/// The language of whose definitions this word is a keyword.
pub fn language_of_keyword(word: &str) -> Option<Language>
    ensures { result ≡ language_of_keyword word.now }
{
    if REQUEST_KEYWORDS.contains(&word) {
        Some(Language::Requests)
    } else if SCHEMA_KEYWORDS.contains(&word) {
        Some(Language::Schemas)
    } else {
        None
    }
}

// The language of the keyword that is most like this word, in whatever case, if it has two thirds of it.
fn nearest(alloc: Global, token: &Token<'_>) -> Result<Option<Language>, AllocError> {
    if !token.kind.is_name() || token.text.len() > LONGEST_WORD {
        return Ok(None);
    }
    let mut word = String::from_str(alloc, token.text)?;
    word.make_ascii_lowercase();
    let mut best = None;
    let mut fewest = usize::MAX;
    for keyword in REQUEST_KEYWORDS.iter().chain(&SCHEMA_KEYWORDS) {
        let edits = damerau_levenshtein(alloc, keyword, word.as_str())?;
        if edits < fewest && edits <= keyword.len().div_ceil(3) {
            fewest = edits;
            best = language_of_keyword(keyword);
        }
    }
    Ok(best)
}

// The language of the first keyword outside of all braces.
fn begun_later(tokens: Tokens<'_>) -> Option<Language> {
    let mut depth = 0usize;
    for token in tokens {
        match token.text {
            "{" => depth = depth.saturating_add(1),
            "}" => depth = depth.saturating_sub(1),
            word if depth == 0 && token.kind.is_name() => {
                let language = language_of_keyword(word);
                if language.is_some() {
                    return language;
                }
            }
            _ => {}
        }
    }
    None
}

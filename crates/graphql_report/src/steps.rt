//! One token of a document after another, by what is left to be read: phrases are taken apart until a token is wanted.
ghost use Rattle.std.specs.Prelude.{◌≡◌, ◌||◌, IfOk, IfSome};
ghost use Rattle.graphql_tokens.specs.tokens.Kinds.{is_number, is_string, is_block};
ghost use Rattle.graphql_reading.specs.grammar.Limits.{Limits as Budgets};
ghost use Rattle.graphql_reading.specs.grammar.Tests.{punct, keyword};
ghost use Rattle.graphql_schemas.specs.reading.Schema.{root_first};
ghost use Rattle.graphql_report.specs.declared.phrases.Phrase.TheVariants as phrases;
ghost use Rattle.graphql_report.specs.inner.Left.{TellsToken, Steps, keyword_text, mark_text};

use crate::phrases::{Keyword, Mark, Phrase};
use crate::productions::take_apart;
use graphql_parser::Limits;
use graphql_parser::lexer::TokenKind;
use graphql_reading::parser::Parser;
use graphql_requests::selections::is_at_fragment_name;
use graphql_schemas::directives::location_of;
use graphql_schemas::members::is_at_enum_name;
use std::alloc::AllocError;

/// How many phrases at most are taken apart for one token. The grammars need some twenty.
const MOST: usize = 64;

/// Reads the lookahead: whether what is left goes on with it, and then what is left after it. `left` has the next
/// phrase last. Returns none if that isn't found within `MOST` phrases.
pub fn step(
    left: &mut Vec<Phrase>,
    limits: Limits,
    parser: &Parser,
) -> Result<Option<bool>, AllocError>
    ensures { IfOk result (λ found. IfSome found (Steps limits parser.now.hand.bare left.old.items left.new.items)) }
{
    for _ in 0..MOST {
        let Some(phrase) = left.pop() else {
            return Ok(None);
        };
        if let Some(is_next) = is_token(phrase, parser) {
            return Ok(Some(is_next));
        }
        take_apart(left, phrase, limits, parser)?;
    }
    Ok(None)
}

// ---- tokens

// Whether this phrase is the lookahead; none if the phrase is no single token.
fn is_token(phrase: Phrase, parser: &Parser) -> Option<bool>
    ensures { IfSome result (λ is. (limits : Budgets) → TellsToken limits phrase parser.now.hand.bare is) }
{
    match phrase {
        Phrase::Mark(mark) => Some(is_at(parser, mark)),
        Phrase::Keyword(word) => Some(is_at_word(parser, word)),
        Phrase::Name => Some(parser.is_at_name()),
        Phrase::FragmentName => Some(is_at_fragment_name(parser)),
        Phrase::EnumName => Some(is_at_enum_name(parser)),
        Phrase::Location => Some(is_at_location(parser)),
        Phrase::Text => Some(is_at_text(parser)),
        Phrase::OperationType => Some(is_at_operation_type(parser)),
        Phrase::Dollar { variables } => Some(parser.is_at_punct("$") && variables),
        Phrase::Literal => Some(is_at_literal(parser)),
        Phrase::End => Some(parser.hand().kind.is_end()),
        Phrase::TooDeep | Phrase::Never => Some(false),
        _ => None,
    }
}

/// Whether the lookahead is this punctuator.
pub fn is_at(parser: &Parser, mark: Mark) -> bool
    ensures { result ≡ punct (mark_text mark) parser.now.hand.bare }
{
    match mark {
        Mark::Bang => parser.is_at_punct("!"),
        Mark::And => parser.is_at_punct("&"),
        Mark::OpenParen => parser.is_at_punct("("),
        Mark::CloseParen => parser.is_at_punct(")"),
        Mark::Dots => parser.is_at_punct("..."),
        Mark::Colon => parser.is_at_punct(":"),
        Mark::Equals => parser.is_at_punct("="),
        Mark::At => parser.is_at_punct("@"),
        Mark::OpenBracket => parser.is_at_punct("["),
        Mark::CloseBracket => parser.is_at_punct("]"),
        Mark::OpenBrace => parser.is_at_punct("{"),
        Mark::Bar => parser.is_at_punct("|"),
        Mark::CloseBrace => parser.is_at_punct("}"),
    }
}

// Whether the lookahead is this keyword.
fn is_at_word(parser: &Parser, word: Keyword) -> bool
    ensures { result ≡ keyword (keyword_text word) parser.now.hand.bare }
{
    match word {
        Keyword::Directive => parser.is_at_keyword("directive"),
        Keyword::Enum => parser.is_at_keyword("enum"),
        Keyword::Extend => parser.is_at_keyword("extend"),
        Keyword::Fragment => parser.is_at_keyword("fragment"),
        Keyword::Implements => parser.is_at_keyword("implements"),
        Keyword::Input => parser.is_at_keyword("input"),
        Keyword::Interface => parser.is_at_keyword("interface"),
        Keyword::On => parser.is_at_keyword("on"),
        Keyword::Repeatable => parser.is_at_keyword("repeatable"),
        Keyword::Scalar => parser.is_at_keyword("scalar"),
        Keyword::Schema => parser.is_at_keyword("schema"),
        Keyword::Type => parser.is_at_keyword("type"),
        Keyword::Union => parser.is_at_keyword("union"),
    }
}

// Whether the lookahead is the word of a location.
fn is_at_location(parser: &Parser) -> bool
    ensures { (limits : Budgets) → TellsToken limits phrases.Location parser.now.hand.bare result }
{
    parser.is_at_name() && location_of(parser.hand().text).is_some()
}

/// Whether the lookahead is the keyword of an operation, which is that of a root too.
pub fn is_at_operation_type(parser: &Parser) -> bool
    ensures { result ≡ root_first parser.now.hand.bare }
{
    parser.is_at_keyword("query")
        || parser.is_at_keyword("mutation")
        || parser.is_at_keyword("subscription")
}

// Whether the lookahead is a string or a block string. Each stands for something.
fn is_at_text(parser: &Parser) -> bool
    ensures { (limits : Budgets) → TellsToken limits phrases.Text parser.now.hand.bare result }
{
    let token = parser.hand();
    is_string_of_any_kind(token.kind)
}

// Whether it is a string or a block string.
fn is_string_of_any_kind(kind: TokenKind) -> bool
    ensures { result ≡ (is_string kind || is_block kind) }
{
    kind.is_string() || kind.is_block()
}

// The same, or a number.
fn is_at_literal(parser: &Parser) -> bool
    ensures { (limits : Budgets) → TellsToken limits phrases.Literal parser.now.hand.bare result }
{
    let token = parser.hand();
    is_literal(token.kind)
}

// Whether it is a number or a string.
fn is_literal(kind: TokenKind) -> bool
    ensures { result ≡ (is_number kind || is_string kind || is_block kind) }
{
    kind.is_number() || kind.is_string() || kind.is_block()
}

//! The answers of the two parsers and of their checks, as text.
use super::views::Document;
use graphql_parser::lexer::{Token, Tokens};
use graphql_parser::{
    Limits, Memory, Result as Answer, check_query, check_query_from, check_query_limited,
    check_query_to, check_schema, check_schema_from, check_schema_limited, check_schema_to,
    parse_query, parse_query_from, parse_query_limited, parse_schema, parse_schema_from,
    parse_schema_limited,
};
use rows::{Parser, Shown, write_error};
use std::alloc::Global;

/// What is seen of an answer if the check answers otherwise.
pub const OTHERWISE: &str = "checked otherwise";

/// Writes what is seen of the answer to a text, unless the check answers otherwise; `asked` is the name that is
/// looked up in a request.
pub fn write(shown: &mut Shown, parser: Parser, view: &str, asked: &str, text: &str) {
    let alloc = shown.alloc();
    match parser {
        Parser::Query => {
            let (answer, checked) = (parse_query(alloc, text), check_query(alloc, text));
            write_answer(shown, view, asked, answer, checked);
        }
        Parser::Schema => {
            let (answer, checked) = (parse_schema(alloc, text), check_schema(alloc, text));
            write_answer(shown, view, asked, answer, checked);
        }
    }
}

/// The same within limits that the caller chooses.
pub fn write_limited(shown: &mut Shown, parser: Parser, view: &str, text: &str, limits: Limits) {
    let alloc = shown.alloc();
    match parser {
        Parser::Query => {
            let checked = check_query_limited(alloc, text, limits);
            let answer = parse_query_limited(alloc, text, limits);
            write_answer(shown, view, "", answer, checked);
        }
        Parser::Schema => {
            let checked = check_schema_limited(alloc, text, limits);
            let answer = parse_schema_limited(alloc, text, limits);
            write_answer(shown, view, "", answer, checked);
        }
    }
}

/// The same over the tokens that are left. Where none is, nothing is seen. The check goes over those of `others`, and
/// has to take as many.
pub fn write_from(
    shown: &mut Shown,
    parser: Parser,
    view: &str,
    tokens: &mut Tokens<'_>,
    others: &mut Tokens<'_>,
) {
    let alloc = shown.alloc();
    match parser {
        _ if tokens.is_ended() || others.is_ended() => {}
        Parser::Query => {
            let checked = check_query_from(alloc, others);
            write_answer(shown, view, "", parse_query_from(alloc, tokens), checked);
        }
        Parser::Schema => {
            let checked = check_schema_from(alloc, others);
            write_answer(shown, view, "", parse_schema_from(alloc, tokens), checked);
        }
    }
    if others.taken() != tokens.taken() {
        shown.word(OTHERWISE);
    }
}

/// What its check answers to a text, and the token at which the text is rejected, if it is rejected at one.
pub fn checked_to(alloc: Global, parser: Parser, text: &str) -> (Answer<()>, Option<Token<'_>>) {
    let memory = &mut Memory::new(alloc);
    match parser {
        Parser::Query => check_query_to(memory, text, Limits::default()),
        Parser::Schema => check_schema_to(memory, text, Limits::default()),
    }
}

/// Writes what is seen of the answer to a text, where nothing was written before. The call with limits, at the
/// default, and the one over fresh tokens have to return the same.
pub fn write_each_call(shown: &mut Shown, parser: Parser, view: &str, text: &str) {
    write(shown, parser, view, "", text);
    let mut limited = Shown::new(shown.alloc(), true);
    write_limited(&mut limited, parser, view, text, Limits::default());
    let mut from = Shown::new(shown.alloc(), true);
    write_from_first(&mut from, parser, view, text);
    if limited.whole() != shown.whole() || from.whole() != shown.whole() {
        shown.item(", limited ", &limited.whole().unwrap_or("out of memory"));
        shown.item(", from tokens ", &from.whole().unwrap_or("out of memory"));
    }
}

fn write_from_first(shown: &mut Shown, parser: Parser, view: &str, text: &str) {
    let (tokens, others) = (&mut Tokens::new(text), &mut Tokens::new(text));
    write_from(shown, parser, view, tokens, others);
}

// Whether a check answers as the parser: both accept, or both return the same error.
fn are_alike<T>(answer: &Answer<T>, checked: &Answer<()>) -> bool {
    match (answer, checked) {
        (Ok(_), Ok(())) => true,
        (Err(error), Err(other)) => error == other,
        _ => false,
    }
}

fn write_answer<D: Document>(
    shown: &mut Shown,
    view: &str,
    asked: &str,
    answer: Answer<D>,
    checked: Answer<()>,
) {
    if !are_alike(&answer, &checked) {
        shown.word(OTHERWISE);
    }
    match &answer {
        Ok(document) => document.write_view(shown, view, asked),
        Err(error) => write_error(shown, error),
    }
}

//! How many tokens a parser takes of those that it is handed, and what is left of them. Its check has a list of them of its
//! own, and takes as many. The last token that is taken of a text is the one at which the check refuses it.
use super::answers::{OTHERWISE, checked_to, write_from};
use graphql_parser::Error;
use graphql_parser::lexer::Tokens;
use rows::{Parser, Shown};
use std::alloc::Global;

/// Writes what a parser returns over fresh tokens of a text, and how many it takes.
pub fn write_counted(shown: &mut Shown, parser: Parser, view: &str, text: &str) {
    let (tokens, others) = (&mut Tokens::new(text), &mut Tokens::new(text));
    write_taken(shown, parser, view, tokens, others);
    if !is_refused_at(shown.alloc(), parser, text, tokens.taken()) {
        shown.word(OTHERWISE);
    }
}

// Whether the check reports the token of this number, the first being 1, where it refuses a text at one; and else none.
fn is_refused_at(alloc: Global, parser: Parser, text: &str, number: usize) -> bool {
    let (answer, token) = checked_to(alloc, parser, text);
    if !matches!(
        &answer,
        Err(Error::Syntax { .. } | Error::RecursionLimitExceeded)
    ) {
        return token.is_none();
    }
    match (Tokens::new(text).nth(number.saturating_sub(1)), token) {
        (Some(last), Some(token)) => last.start == token.start && last.text == token.text,
        _ => false,
    }
}

fn write_taken(
    shown: &mut Shown,
    parser: Parser,
    view: &str,
    tokens: &mut Tokens<'_>,
    others: &mut Tokens<'_>,
) {
    write_from(shown, parser, view, tokens, others);
    shown.item(", taken ", &tokens.taken());
}

/// Writes what is given in turn until the tokens have ended, when this many were passed first.
pub fn write_in_turn(shown: &mut Shown, parser: Parser, passed: usize, text: &str) {
    let (tokens, others) = (&mut Tokens::new(text), &mut Tokens::new(text));
    for _ in 0..passed {
        tokens.next();
        others.next();
    }
    for _ in 0..=text.len() {
        if !tokens.is_ended() {
            write_taken(shown, parser, "whole", tokens, others);
            shown.word("; ");
        }
    }
}

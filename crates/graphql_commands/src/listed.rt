//! The tokens of a text, a line for each.
use crate::telling::Teller;
use graphql_parser::lexer::{TokenKind, Tokens};
use std::alloc::AllocError;

/// Adds the lines to those for standard output, and returns whether the text is cut into tokens without a fault.
///
/// A line has the place, the kind and the spelling, in which `\n` and `\r` stand for the ends of lines.
pub fn tell_tokens(teller: &mut Teller, text: &str) -> bool {
    let mut is_whole = true;
    for token in Tokens::new(text) {
        teller.number("", token.pos.line);
        teller.number(":", token.pos.column);
        teller.word(kind_name(token.kind));
        if !token.text.is_empty() {
            teller.word(" ");
            teller.word_in_one_line(token.text);
        }
        teller.word("\n");
        is_whole = !matches!(token.kind, TokenKind::Fault);
    }
    is_whole
}

// The name of a kind, after a blank.
fn kind_name(kind: TokenKind) -> &'static str {
    match kind {
        TokenKind::Punct => " punctuator",
        TokenKind::Name => " name",
        TokenKind::Number => " number",
        TokenKind::String => " string",
        TokenKind::Block => " block string",
        TokenKind::Fault => " fault",
        TokenKind::End => " end",
    }
}

/// Adds a spelling, with `\n` and `\r` for the ends of lines.
pub fn push_in_one_line(out: &mut String, text: &str) -> Result<(), AllocError> {
    if !text.contains(['\n', '\r']) {
        return out.push_str(text);
    }
    for c in text.chars() {
        match c {
            '\n' => out.push_str("\\n")?,
            '\r' => out.push_str("\\r")?,
            other => out.push(other)?,
        }
    }
    Ok(())
}

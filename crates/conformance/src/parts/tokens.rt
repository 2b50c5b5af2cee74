//! Token lists: of each token its kind, its spelling, its byte offset and its place.
use graphql_tokens::lexer::{Token, TokenKind, Tokens};
use rows::Shown;

/// Writes the tokens that a text is cut into, as `Name a 0 1:1, End 1 1:2`. What the list counts and reports on the way is looked at
/// too.
pub fn write_tokens(shown: &mut Shown, text: &str) {
    let mut tokens = Tokens::new(text);
    let mut taken = 0usize;
    // A list has at most one token more than its text has characters.
    for _ in 0..=text.len() {
        if tokens.is_ended() {
            break;
        }
        shown.word(if taken == 0 { "" } else { ", " });
        write_next(shown, tokens.next());
        taken = taken.saturating_add(1);
        if tokens.taken() != taken {
            shown.word(" (not counted)");
        }
    }
    for _ in 0..2 {
        if tokens.next().is_some() || !tokens.is_ended() || tokens.taken() != taken {
            shown.word(" (not ended)");
        }
    }
}

// Whether the tests of a kind answer true for this kind's own, and for no other. A fault has none.
fn passes_its_own_test(kind: TokenKind) -> bool {
    kind.is_punct() == (kind == TokenKind::Punct)
        && kind.is_name() == (kind == TokenKind::Name)
        && kind.is_number() == (kind == TokenKind::Number)
        && kind.is_string() == (kind == TokenKind::String)
        && kind.is_block() == (kind == TokenKind::Block)
        && kind.is_end() == (kind == TokenKind::End)
}

fn write_next(shown: &mut Shown, token: Option<Token<'_>>) {
    match token {
        Some(token) => {
            shown.debugged("", &token.kind);
            if !passes_its_own_test(token.kind) {
                shown.word(" (another kind)");
            }
            shown.word(if token.text.is_empty() { "" } else { " " });
            shown.word(token.text);
            shown.item(" ", &token.start);
            shown.place(" ", &token.pos);
        }
        None => shown.word("none"),
    }
}

/// Writes what a list of tokens shows to a developer after the first of them: with the characters passed.
pub fn write_debugged(shown: &mut Shown, text: &str) {
    let mut tokens = Tokens::new(text);
    let _first = tokens.next();
    shown.debugged("", &tokens);
}

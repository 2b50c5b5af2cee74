//! Texts written anew from their tokens. It knows tokens and no grammar.
//!
//! Proved: a text that [`minify`] gives has the tokens of the text that it is given, one for one in kind and spelling, but that
//! block strings are written in few characters and have the same values, by the specification too; and no others; between two of
//! them there is nothing where they may touch, and else one blank; and it is no longer.
//!
//! A text that [`format`] gives has the tokens of the text that it is given, one for one in kind and spelling, but that block
//! strings are laid out anew and have the same values, by the specification too; and its comments, each between the same two
//! tokens, less the blanks at its end; and no others.
//!
//! A [`Sheet`](sheet::Sheet) is a text that is written token after token and comment after comment, with blanks and line feeds
//! between them. Proved: it has these tokens and comments and no others, however it is laid out.
//!
//! [`blocks`] writes values as block strings. Proved: each is one, and [`may_be_block`](blocks::may_be_block) tells whether it has
//! the value.
//!
//! Users name `graphql_printer`, whose calls read the text by a grammar first.
#![tactic(auto)]

ghost use Rattle.std.specs.Prelude.{◌≡◌, ◌++◌, IfOk, OnOk, IfSome, MatchOption, List, ℕ, string_bytes};
ghost use Rattle.graphql_tokens.specs.tokens.Proper.{IsProper};
ghost use Rattle.graphql_tokens.specs.tokens.Seen.{seen};
ghost use Rattle.graphql_layout.specs.texts.SameTokens.{HasFault};
ghost use Rattle.graphql_layout.specs.texts.Minified.{IsMinified};
ghost use Rattle.graphql_layout.specs.texts.Shortened.{shortened};
ghost use Rattle.graphql_layout.specs.inner.Endings.{ending_of, gap_before};

pub mod blocks;
mod comments;
mod ending;
mod layout;
pub mod line_ends;
mod one_reading;
mod scans;
pub mod sheet;

use blocks::push_shortened;
use ending::Ending;
use graphql_tokens::lexer::{Token, TokenKind, Tokens};
pub use layout::format;
use std::alloc::{AllocError, Global};

// Writes a token in few characters.
fn push_spelling(alloc: Global, out: &mut String, token: &Token<'_>) -> Result<(), AllocError>
    requires { IsProper (seen token.now) }
    ensures { OnOk result (string_bytes out.new ≡ string_bytes out.old
        ++ (shortened (seen token.now).bare).spelling) }
{
    if token.kind.is_block() {
        push_shortened(alloc, out, token.text)
    } else {
        out.push_str(token.text)
    }
}

// Writes a token in few characters, after a blank where it may not touch what ends so, and gives how it ends itself.
fn push_token(
    alloc: Global,
    out: &mut String,
    ending: Ending,
    token: &Token<'_>,
) -> Result<Ending, AllocError>
    requires { IsProper (seen token.now) }
    ensures written { OnOk result (string_bytes out.new ≡ string_bytes out.old
        ++ (gap_before ending (shortened (seen token.now).bare).spelling ++ (shortened (seen token.now).bare).spelling)) }
    ensures ending { IfOk result (λ next. next ≡ ending_of (shortened (seen token.now).bare)) }
{
    if ending.stops(token.text) {
        out.push(' ')?;
    }
    push_spelling(alloc, out, token)?;
    Ok(Ending::of(token.kind, token.text))
}

/// The text without its comments, and of the blanks, line ends, commas and byte order marks between its tokens (GraphQL
/// October 2021, section 2.1.7) without all that aren't needed: a blank is left where two tokens would be read as others if
/// they touched. Block strings are written in few characters, with the values that they have, where these aren't more than
/// there are, and where the specification and this parser agree on the value; other tokens are kept as they are spelled. `None`
/// where the text has a fault.
///
/// It fails only where memory runs out.
pub fn minify(alloc: Global, text: &str) -> Result<Option<String>, AllocError>
    ensures minified { IfOk result (λ r.
        MatchOption r (HasFault text.now) (λ s. IsMinified text.now (string_bytes s))) }
    // Of the text that it gives, it gives the same again.
    ensures again { IfOk result (λ r. IfSome r (λ s.
        (other : List ℕ) → IsMinified (string_bytes s) other → other ≡ string_bytes s)) }
{
    // It is no longer than the text, so it never grows.
    let mut out = String::with_capacity(alloc, text.len())?;
    let mut ending = Ending::Open;
    for token in Tokens::new(text) {
        if token.kind == TokenKind::Fault {
            return Ok(None);
        }
        ending = push_token(alloc, &mut out, ending, &token)?;
    }
    Ok(Some(out))
}

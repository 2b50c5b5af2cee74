//! How a text is laid out: which tokens begin lines, how deep, what stands before the others, and how block strings are written.
ghost use Rattle.std.specs.Prelude.{IfOk, OnOk, MatchOption, string_bytes};
ghost use Rattle.graphql_tokens.specs.tokens.Proper.{Spells};
ghost use Rattle.graphql_layout.specs.inner.Tidied.{IsAdded};
ghost use Rattle.graphql_layout.specs.texts.LaidOut.{IsLaidOut};
ghost use Rattle.graphql_layout.specs.texts.SameTokens.{HasFault};

pub mod ahead;
pub mod breaks;
pub mod gaps;
pub mod lines;
pub mod walk;

use crate::blocks::inside_quotes;
use crate::comments::push_ignored;
use crate::line_ends::LineEnd;
use crate::one_reading::has_one_reading;
use crate::sheet::Sheet;
use ahead::{Ahead, go_on};
use gaps::{Layout, Place};
use graphql_tokens::lexer::{TokenKind, Tokens};
use graphql_tokens::text::block_string_value;
use lines::begin_token;
use std::alloc::{AllocError, Global};

// How many blanks stand before a line, for each broken bracket around it.
const INDENT: usize = 2;

// Writes a token: a block string of one reading anew from its value, as deep as its place is, and another as it is spelled.
fn push_token(
    alloc: Global,
    sheet: &mut Sheet,
    place: &Place,
    kind: TokenKind,
    text: &str,
) -> Result<(), AllocError>
    requires { Spells kind text.now }
    ensures { OnOk result (IsAdded (record { kind = kind; spelling = text.now }) sheet.old sheet.new) }
{
    if !kind.is_block() {
        return sheet.token(kind, text);
    }
    let raw = inside_quotes(text);
    if !has_one_reading(raw) {
        return sheet.token(kind, text);
    }
    let value = block_string_value(alloc, raw)?;
    sheet.block(&value, place.inside.saturating_mul(INDENT))
}

/// The text laid out anew, with its comments, less the blanks at their ends. Block strings are laid out too, with the values that
/// they have, as GraphQL.js 16 prints them: each line after the first is two blanks deeper for each broken bracket around it. Other
/// tokens are kept as they are spelled, and so is a block string whose value the specification and this parser don't agree on: a
/// blank line in it is shorter than the common indent. Lines that are written end as [`LineEnd::of`] says. `None` where the text has
/// a fault.
///
/// It fails only where memory runs out.
pub fn format(alloc: Global, text: &str) -> Result<Option<String>, AllocError>
    ensures { IfOk result (λ r.
        MatchOption r (HasFault text.now) (λ s. IsLaidOut text.now (string_bytes s))) }
{
    let mut layout = Layout::new(alloc, text);
    let mut sheet = Sheet::with_room(alloc, text.len(), LineEnd::of(text))?;
    let mut tokens = Tokens::new(text);
    let mut passed = Vec::new(alloc);
    let mut ahead = Ahead::of(text);
    'tokens: loop {
        let next = go_on(&mut tokens, &mut passed, ahead)?;
        let token = tokens.next_token();
        let end = tokens.text().len() - next.rest.len();
        if token.kind == TokenKind::Fault {
            return Ok(None);
        }
        let (gap, from) = next.rest.split_at(token.start - end);
        let place = layout.pass(token.kind, token.text, from)?;
        let before = push_ignored(&mut sheet, &place, &mut passed, next, gap, from.len())?;
        if token.kind.is_end() {
            return Ok(Some(sheet.finish()));
        }
        begin_token(&mut sheet, &place, before)?;
        push_token(alloc, &mut sheet, &place, token.kind, token.text)?;
        let (_, after) = from.split_at(token.text.len());
        ahead = next.with_rest(after);
    }
}

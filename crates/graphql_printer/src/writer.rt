//! Tokens that are laid out while they are written.
ghost use Rattle.std.specs.Prelude.{◌≡◌, ◌++◌, ◌∷◌, [], true, OnOk, OnErr, IfOk, string_bytes};
ghost use Rattle.std.specs.List.{list_all};
ghost use Rattle.std.specs.Str.{chars};
ghost use Rattle.graphql_tokens.specs.tokens.Proper.{Spells};
ghost use Rattle.graphql_tokens.specs.declared.lexer.TokenKind.TheVariants as kinds;
ghost use Rattle.graphql_layout.specs.texts.Blocks.{feed, may_be_block, spelled as spelled_block};
ghost use Rattle.graphql_printer.specs.inner.Shown.{by_values, quoted};
ghost use Rattle.graphql_printer.specs.inner.SpelledTexts.{KeepsTokens};
ghost use Rattle.graphql_printer.specs.inner.Words.{is_word as is_word_of, loose_tokens, stays_in_string};

use crate::scans::{NameBytes, StringBytes, are_all};
use crate::strings::quoted_text;
use graphql_layout::blocks::push_block;
use graphql_layout::line_ends::LineBreak;
use graphql_layout::sheet::Sheet;
use graphql_tokens::lexer::{TokenKind, Tokens};
use graphql_tokens::text::block_string_value;
use std::alloc::{AllocError, Global};
use std::marker::Model;

// How many blanks stand before a line, for each level.
const INDENT: usize = 2;

// A token that is kept aside.
#[derive(Drop)]
struct Loose {
    kind: TokenKind,
    spelling: String,
}

/// Tokens as a text, with blanks and line feeds between them.
#[derive(Drop)]
pub struct Writer {
    alloc: Global,
    sheet: Sheet,
    // The tokens from the first on that is spelled otherwise than tokens of its kind are. Mostly there are none.
    rest: Vec<Loose>,
    // How many levels deep the next line begins.
    depth: usize,
    // Whether a definition began.
    is_begun: bool,
}

impl Model for Writer {
    ghost use Rattle.std.specs.Prelude.{◌++◌, List};
    ghost use Rattle.graphql_tokens.specs.tokens.Token.{Bare};
    ghost use Rattle.graphql_layout.specs.texts.Items.{words};
    ghost use Rattle.graphql_printer.specs.inner.Shown.{by_values};
    ghost use Rattle.graphql_printer.specs.inner.Words.{BeginsBadly, loose_tokens};

    ghost Value = { List Bare };

    ghost view = { λ w. by_values (words w.sheet ++ loose_tokens w.rest.items) };

    ghost invariant = { λ w. BeginsBadly (loose_tokens w.rest.items) };
}

// Whether it is a name.
#[inline(always)]
fn is_word(text: &str) -> bool
    ensures { result ≡ is_word_of text.now }
{
    let bytes = text.as_bytes();
    match bytes.first() {
        Some(first) => !first.is_ascii_digit() && are_all::<NameBytes>(bytes),
        None => false,
    }
}

// Whether each of its characters stands for itself in the string that is written of it.
#[inline(always)]
fn is_plain(text: &str) -> bool
    ensures { result ≡ list_all stays_in_string text.now }
{
    are_all::<StringBytes>(text.as_bytes())
}

// Keeps a token aside, where it or one before it is spelled otherwise than tokens of its kind are.
#[inline(never)]
fn keep(
    alloc: Global,
    rest: &mut Vec<Loose>,
    kind: TokenKind,
    spelling: &str,
) -> Result<(), AllocError>
    ensures ok { OnOk result (loose_tokens rest.new.items ≡ loose_tokens rest.old.items
        ++ record { kind = kind; spelling = spelling.now } ∷ []) }
    ensures err { OnErr result (rest.new.items ≡ rest.old.items) }
{
    let spelling = String::from_str(alloc, spelling)?;
    rest.push(Loose { kind, spelling })?;
    Ok(())
}

// Writes a token, and a blank after it.
fn push_loose(
    alloc: Global,
    text: &mut String,
    kind: TokenKind,
    spelling: &str,
) -> Result<(), AllocError> {
    if kind.is_block() {
        let end = spelling.len().saturating_sub(3);
        let value = block_string_value(alloc, spelling.get(3..end).unwrap_or(""))?;
        push_block(text, &value, LineBreak::feed(0))?;
    } else {
        text.push_str(spelling)?;
    }
    text.push(' ')
}

// The tokens of a text and others, each with a blank after it.
fn loosened(alloc: Global, text: &str, rest: &Vec<Loose>) -> Result<String, AllocError> {
    let mut loose = String::new(alloc);
    for token in Tokens::new(text) {
        if !token.kind.is_end() {
            push_loose(alloc, &mut loose, token.kind, token.text)?;
        }
    }
    for token in rest {
        push_loose(alloc, &mut loose, token.kind, &token.spelling)?;
    }
    Ok(loose)
}

impl Writer {
    /// No tokens.
    pub fn new(alloc: Global) -> Writer
        ensures { result ≡ [] }
    {
        Writer {
            alloc,
            sheet: Sheet::new(alloc),
            rest: Vec::new(alloc),
            depth: 0,
            is_begun: false,
        }
    }

    /// Writes a blank.
    #[inline(always)]
    pub fn blank(&mut self) -> Result<(), AllocError>
        ensures { self.new ≡ self.old }
    {
        self.sheet.blank()
    }

    /// Writes a comma and a blank.
    #[inline(always)]
    pub fn comma(&mut self) -> Result<(), AllocError>
        ensures { self.new ≡ self.old }
    {
        self.sheet.comma()?;
        self.sheet.blank()
    }

    /// Begins a line.
    pub fn begin_line(&mut self) -> Result<(), AllocError>
        ensures { self.new ≡ self.old }
    {
        self.sheet.begin_line(self.depth)
    }

    /// Begins a definition, after a blank line if it isn't the first.
    pub fn begin_definition(&mut self) -> Result<(), AllocError>
        ensures { self.new ≡ self.old }
    {
        if !self.is_begun {
            self.is_begun = true;
            return Ok(());
        }
        self.sheet.line()?;
        self.sheet.line()
    }

    /// Lines that begin from here on are a level deeper.
    #[inline(always)]
    pub fn deepen(&mut self)
        ensures { self.new ≡ self.old }
    {
        self.depth = self.depth.saturating_add(1);
    }

    /// Lines that begin from here on are a level less deep.
    #[inline(always)]
    pub fn rise(&mut self)
        ensures { self.new ≡ self.old }
    {
        self.depth = self.depth.saturating_sub(1);
    }

    /// Writes a token, which is spelled as its kind is.
    #[inline(always)]
    pub fn token(&mut self, kind: TokenKind, spelling: &str) -> Result<(), AllocError>
        requires { Spells kind spelling.now }
        ensures { OnOk result (self.new ≡ self.old
            ++ by_values (record { kind = kind; spelling = spelling.now } ∷ [])) }
    {
        if !self.rest.is_empty() {
            return keep(self.alloc, &mut self.rest, kind, spelling);
        }
        self.sheet.token(kind, spelling)
    }

    /// Writes a name or a keyword, whatever it is.
    #[tactic(auto, using(crate::proofs::Spellings::word_spells))]
    pub fn word(&mut self, name: &str) -> Result<(), AllocError>
        ensures { OnOk result (self.new ≡ self.old
            ++ by_values (record { kind = kinds.Name; spelling = name.now } ∷ [])) }
    {
        if !is_word(name) {
            return keep(self.alloc, &mut self.rest, TokenKind::Name, name);
        }
        self.token(TokenKind::Name, name)
    }

    /// Writes the string that stands for a text.
    pub fn string(&mut self, text: &str) -> Result<(), AllocError>
        ensures { OnOk result (self.new ≡ self.old ++ by_values (quoted text.now ∷ [])) }
    {
        if self.rest.is_empty() && is_plain(text) {
            return self.sheet.quoted(text);
        }
        let spelling = quoted_text(self.alloc, text)?;
        self.token(TokenKind::String, &spelling)
    }

    /// Writes a block string of a text that is its value, as deep as lines begin here.
    pub fn block(&mut self, text: &str) -> Result<(), AllocError>
        requires { may_be_block (chars text.now) ≡ true }
        ensures { OnOk result (self.new ≡ self.old
            ++ by_values (record { kind = kinds.Block; spelling = spelled_block (feed 0) text.now } ∷ [])) }
    {
        if !self.rest.is_empty() {
            let mut spelling = String::new(self.alloc);
            push_block(&mut spelling, text, LineBreak::feed(0))?;
            return keep(self.alloc, &mut self.rest, TokenKind::Block, &spelling);
        }
        self.sheet.block(text, self.depth.saturating_mul(INDENT))
    }

    /// The text; where a token is spelled otherwise than tokens of its kind are, the tokens as they are, each with a blank
    /// after it.
    pub fn finish(self) -> Result<String, AllocError>
        ensures { IfOk result (λ s. KeepsTokens self (string_bytes s)) }
    {
        let Writer {
            alloc,
            sheet,
            rest,
            ..
        } = self;
        let text = sheet.finish();
        if rest.is_empty() {
            return Ok(text);
        }
        loosened(alloc, &text, &rest)
    }
}

//! Reading a text token by token, with one token of lookahead.
ghost use Rattle.std.specs.Prelude.{◌≡◌, ◌≢◌, ◌≤◌, ◌+◌, length, ◌&&◌, true, false, ◌++◌, ◌∷◌, [], Ok, IfOk, OnOk, OnErr, vec_len};
ghost use Rattle.graphql_memory.specs.Memory.{Refused, Takes};
ghost use Rattle.graphql_tokens.specs.tokens.Cuts.{is_last, EndsOnce};
ghost use Rattle.graphql_tokens.specs.tokens.Proper.{AreProperButFaults, IsProper};
ghost use Rattle.graphql_tokens.specs.tokens.Seen.{seen};
ghost use Rattle.graphql_tokens.specs.tokens.Numbers.{IsNumber};
ghost use Rattle.graphql_tokens.specs.tokens.Token.{left};
ghost use Rattle.graphql_tokens.specs.tokens.Within.{StandsIn};
ghost use Rattle.graphql_reading.specs.declared.parser.Refusal.TheVariants.{Memory};
ghost use Rattle.graphql_reading.specs.grammar.Tests as tests;
ghost use Rattle.graphql_reading.specs.reading.Ahead.{Ahead, tokens as ahead, Stays};
ghost use Rattle.graphql_reading.specs.reading.Funds.{Spares, Pays};
ghost use Rattle.graphql_reading.specs.reading.Worth.{per_token};
ghost use Rattle.graphql_reading.specs.reading.Given.{Gives, GivesWhole};
ghost use Rattle.graphql_reading.specs.reading.Outcome.{one_at, take_at};
ghost use Rattle.graphql_reading.specs.reading.Parser.{mark, shown, IsWellCut};
ghost use Rattle.graphql_reading.specs.reading.Spelled.{keyword_of, punct_of};

use graphql_memory::Memory;
use graphql_tokens::lexer::{Token, TokenKind, Tokens};
use graphql_tokens::name::Name;
use graphql_tokens::number::Number;
use std::alloc::{AllocError, Global};
use std::marker::Model;

/// Why a reader stopped.
#[derive(Clone, Copy, Debug, PartialEq, Eq)]
pub enum Refusal {
    /// Memory was refused.
    Memory,
    /// No document goes on with the lookahead.
    Syntax,
    /// Only a document that nests deeper than is allowed goes on with the lookahead.
    Limit,
}

/// What a reader gives: what begins with the lookahead, and then the token after it is the lookahead; or why there is
/// no such thing, with the rejected token as the lookahead. Where memory ran out, the parser is somewhere in between.
pub type Reading<T> = Result<T, Refusal>;

impl From<AllocError> for Refusal {
    ghost from_gives = { λ _ e. e ≡ Memory };

    fn from(_refused: AllocError) -> Refusal {
        Refusal::Memory
    }
}

// The byte of a punctuator of one byte, as most are; 0 for any other token.
#[inline(always)]
fn mark_of(kind: TokenKind, text: &str) -> u8
    ensures { result ≡ mark (record { kind = kind; spelling = text.now }) }
{
    let bytes = text.as_bytes();
    if kind.is_punct() && bytes.len() == 1 {
        return bytes[0];
    }
    0
}

/// Reads one text: the tokens that are still to come, of which the first is the lookahead, and who takes memory. The
/// tokens after the first are taken from the lexer one by one, each when the one before it is used up.
#[derive(Drop)]
pub struct Parser<'a> {
    tokens: Tokens<'a>,
    hand: Token<'a>,
    // By which a test for a punctuator is one compare.
    mark: u8,
    pub(crate) memory: Memory,
}

impl<'a> Model for Parser<'a> {
    ghost Value = { Ahead };

    ghost view = { shown };

    ghost invariant = { IsWellCut };
}

impl<'a> Parser<'a> {
    /// Takes the first token as the lookahead. The caller owes that one is left: `tokens.is_ended()` is false.
    pub fn new(memory: Memory, mut tokens: Tokens<'a>) -> Parser<'a>
        requires { left tokens ≢ [] }
        ensures left { ahead result ≡ left tokens.entry }
        ensures text { result.source.text ≡ tokens.entry.text }
        ensures whole { result.source.whole ≡ tokens.entry.whole }
        ensures taken { result.taken ≡ tokens.entry.taken + 1 }
        ensures ends { EndsOnce (left tokens.entry) }
        ensures proper { AreProperButFaults (left tokens.entry) }
        ensures memory { result.memory ≡ memory }
    {
        let hand = tokens.next_token();
        let mark = mark_of(hand.kind, hand.text);
        Parser {
            tokens,
            hand,
            mark,
            memory,
        }
    }

    /// The tokens that are still to come, after the lookahead, and who takes memory.
    pub fn into_parts(self) -> (Tokens<'a>, Memory)
        ensures left { left result.0 ≡ self.entry.after }
        ensures text { result.0.text ≡ self.entry.source.text }
        ensures whole { result.0.whole ≡ self.entry.source.whole }
        ensures taken { result.0.taken ≡ self.entry.taken }
        ensures within { result.0.taken ≤ length result.0.whole }
        ensures memory { result.1 ≡ self.entry.memory }
    {
        let Parser { tokens, memory, .. } = self;
        (tokens, memory)
    }

    /// Uses up the lookahead and takes the next. The caller owes that it isn't the last one.
    // Field by field: a copy of the whole would carry the padding along.
    #[inline(never)]
    pub fn advance(&mut self)
        requires { is_last self.old.hand.bare.kind ≡ false }
        ensures left { ahead self.new ≡ self.old.after }
        ensures taken { self.new.taken ≡ self.old.taken + 1 }
        ensures source { self.new.source ≡ self.old.source }
        ensures memory { self.new.memory ≡ self.old.memory }
        ensures pays { Spares (per_token + length self.old.hand.bare.spelling) self.old self.new }
    {
        let next = self.tokens.next_token();
        self.hand.kind = next.kind;
        self.hand.text = next.text;
        self.hand.start = next.start;
        self.hand.pos = next.pos;
        self.mark = mark_of(next.kind, next.text);
    }

    /// The lookahead.
    #[inline(always)]
    pub fn hand(&self) -> Token<'a>
        ensures token { seen result ≡ self.now.hand }
        ensures proper { is_last self.now.hand.bare.kind ≡ false → IsProper self.now.hand }
        ensures stands { StandsIn self.now.source.text (seen result) }
    {
        self.hand
    }

    /// The name that a token of the text spells. Fails only where it is longer than 22 bytes and memory was refused.
    #[inline(always)]
    pub fn name(&mut self, token: Token) -> Result<Name, AllocError>
        requires { StandsIn self.old.source.text (seen token) }
        ensures name { IfOk result (λ name. name ≡ token.entry.text.now) }
        ensures takes { Takes (24 + length token.entry.text.now) self.old.memory self.new.memory }
        ensures refused { OnErr result (Refused self.new.memory) }
        ensures stays { Stays self.old self.new }
    {
        Name::cut_in(
            &mut self.memory,
            token.text,
            self.tokens.text(),
            token.start,
        )
    }

    /// The number that a token of the text spells. Fails only where it is longer than 22 bytes and memory was refused.
    #[inline(always)]
    pub fn number(&mut self, token: Token) -> Result<Number, AllocError>
        requires number { IsNumber token.text.now }
        requires stands { StandsIn self.old.source.text (seen token) }
        ensures number { IfOk result (λ number. number ≡ token.entry.text.now) }
        ensures takes { Takes (24 + length token.entry.text.now) self.old.memory self.new.memory }
        ensures refused { OnErr result (Refused self.new.memory) }
        ensures stays { Stays self.old self.new }
    {
        Number::cut_in(
            &mut self.memory,
            token.text,
            self.tokens.text(),
            token.start,
        )
    }

    /// Gives the lookahead and takes the next. The caller owes that it isn't the last one.
    #[inline(always)]
    pub fn take(&mut self) -> Token<'a>
        requires { is_last self.old.hand.bare.kind ≡ false }
        ensures token { seen result ≡ self.old.hand }
        ensures left { ahead self.new ≡ self.old.after }
        ensures taken { self.new.taken ≡ self.old.taken + 1 }
        ensures source { self.new.source ≡ self.old.source }
        ensures memory { self.new.memory ≡ self.old.memory }
        ensures pays { Spares (per_token + length result.text.now) self.old self.new }
        ensures stands { StandsIn self.new.source.text (seen result) }
    {
        let token = self.hand;
        self.advance();
        token
    }

    /// Whether the lookahead is this punctuator.
    #[inline(always)]
    pub fn is_at_punct(&self, text: &str) -> bool
        ensures { result ≡ punct_of text.now self.now.hand.bare }
    {
        let bytes = text.as_bytes();
        if bytes.len() == 1 && bytes[0] != 0 {
            return self.mark == bytes[0];
        }
        self.hand.kind.is_punct() && self.hand.text == text
    }

    /// Whether the lookahead is a name.
    #[inline(always)]
    pub fn is_at_name(&self) -> bool
        ensures { result ≡ tests.any_name self.now.hand.bare }
    {
        self.hand.kind.is_name()
    }

    /// Whether the lookahead is this keyword.
    #[inline(always)]
    pub fn is_at_keyword(&self, word: &str) -> bool
        ensures { result ≡ keyword_of word.now self.now.hand.bare }
    {
        self.hand.kind.is_name() && self.hand.text == word
    }

    /// Uses up this punctuator, if the lookahead is it, and returns whether it was.
    #[inline(always)]
    pub fn take_punct(&mut self, text: &str) -> bool
        ensures gives { Gives (λ taken. taken) (Ok result) self.old self.new
            (take_at (punct_of text.now)) }
        ensures saves { Spares 0 self.old self.new }
        ensures pays { result ≡ true → Spares per_token self.old self.new }
        ensures memory { self.new.memory ≡ self.old.memory }
    {
        let is_there = self.is_at_punct(text);
        if is_there {
            self.advance();
        }
        is_there
    }

    /// Uses up this punctuator and gives it; any other lookahead is rejected with `Syntax`.
    #[inline(always)]
    pub fn expect_punct(&mut self, text: &str) -> Reading<Token<'a>>
        ensures gives { Gives seen result self.old self.new (one_at (punct_of text.now)) }
        ensures pays { Pays per_token result self.old self.new }
        ensures saves { Spares 0 self.old self.new }
        ensures memory { self.new.memory ≡ self.old.memory }
    {
        if !self.is_at_punct(text) {
            return Err(Refusal::Syntax);
        }
        Ok(self.take())
    }

    /// Uses up a name and gives it; any other lookahead is rejected with `Syntax`.
    #[inline(always)]
    pub fn expect_name(&mut self) -> Reading<Token<'a>>
        ensures name { Gives seen result self.old self.new (one_at tests.any_name) }
        ensures saves { Spares 0 self.old self.new }
        ensures pays { IfOk result (λ token. Spares (per_token + length token.text.now) self.old self.new) }
        ensures memory { self.new.memory ≡ self.old.memory }
        ensures stands { IfOk result (λ token. StandsIn self.new.source.text (seen token)) }
    {
        if !self.is_at_name() {
            return Err(Refusal::Syntax);
        }
        Ok(self.take())
    }

    /// Uses up this keyword and gives it; any other lookahead is rejected with `Syntax`.
    #[inline(always)]
    pub fn expect_keyword(&mut self, word: &str) -> Reading<Token<'a>>
        ensures gives { Gives seen result self.old self.new (one_at (keyword_of word.now)) }
        ensures pays { Pays per_token result self.old self.new }
        ensures saves { Spares 0 self.old self.new }
        ensures memory { self.new.memory ≡ self.old.memory }
    {
        if !self.is_at_keyword(word) {
            return Err(Refusal::Syntax);
        }
        Ok(self.take())
    }

    /// The lookahead has to be the end of the text, and stays it; anything else is rejected with `Syntax`.
    pub fn expect_end(&self) -> Reading<()>
        ensures { GivesWhole (λ _. self.now.hand) result self.now self.now (one_at tests.the_end) }
    {
        if self.hand.kind.is_end() {
            Ok(())
        } else {
            Err(Refusal::Syntax)
        }
    }
}

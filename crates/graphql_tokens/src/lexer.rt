//! The tokens of a text, by GraphQL October 2021, section 2.1.

ghost use Rattle.std.specs.Prelude.{◌≡◌, ◌≤◌, true, false, if◌then◌else◌};
ghost use Rattle.graphql_tokens.specs.tokens.Cuts.{is_last};
ghost use Rattle.graphql_tokens.specs.tokens.Classes as classes;
ghost use Rattle.graphql_tokens.specs.inner.Reading.{next, quoted};
ghost use Rattle.graphql_tokens.specs.inner.ByteClasses.{begins_number};
ghost use Rattle.graphql_tokens.specs.inner.Running.{ahead};
ghost use Rattle.graphql_tokens.specs.inner.Lexing.{RunsOver, IsFirstByte, Gives};

pub(crate) mod class;
pub(crate) mod number;
mod quoted;
pub(crate) mod reading;

use crate::pos::Pos;
use crate::pos::running::RunningPlace;
use crate::text::runs::NameChars;
use class::CharClass;
use number::pass_number;
use quoted::{pass_block, pass_string};
use reading::{pass_char, pass_class, pass_dots, pass_ignored, peek};
use std::iter::FusedIterator;
use std::marker::Model;

/// What a token is.
#[derive(Clone, Copy, Debug, PartialEq, Eq)]
pub enum TokenKind {
    /// A punctuator: one of `! $ & ( ) ... : = @ [ ] { }` and the vertical bar.
    Punct,
    /// A name.
    Name,
    /// A number: an integer or a float.
    Number,
    /// A string that is no block string, with its quotes.
    String,
    /// A block string, with its quotes.
    Block,
    /// The place where no token begins. Nothing is read after it.
    Fault,
    /// The end of the text.
    End,
}

impl TokenKind {
    ghost use Rattle.graphql_tokens.specs.tokens.Kinds as kinds;

    /// Whether it is a punctuator.
    #[inline(always)]
    pub fn is_punct(self) -> bool
        ensures { result ≡ kinds.is_punct self }
    {
        matches!(self, TokenKind::Punct)
    }

    /// Whether it is a name.
    #[inline(always)]
    pub fn is_name(self) -> bool
        ensures { result ≡ kinds.is_name self }
    {
        matches!(self, TokenKind::Name)
    }

    /// Whether it is a number.
    #[inline(always)]
    pub fn is_number(self) -> bool
        ensures { result ≡ kinds.is_number self }
    {
        matches!(self, TokenKind::Number)
    }

    /// Whether it is a string, and no block string.
    #[inline(always)]
    pub fn is_string(self) -> bool
        ensures { result ≡ kinds.is_string self }
    {
        matches!(self, TokenKind::String)
    }

    /// Whether it is a block string.
    #[inline(always)]
    pub fn is_block(self) -> bool
        ensures { result ≡ kinds.is_block self }
    {
        matches!(self, TokenKind::Block)
    }

    /// Whether it is the end of the text.
    #[inline(always)]
    pub fn is_end(self) -> bool
        ensures { result ≡ kinds.is_end self }
    {
        matches!(self, TokenKind::End)
    }

    // Whether no token comes after it.
    #[inline(always)]
    fn is_last(self) -> bool
        ensures { result ≡ is_last self }
    {
        matches!(self, TokenKind::Fault | TokenKind::End)
    }
}

/// A token: its spelling as it stands in the text, its byte offset and its place. The spelling of a
/// `Fault` and of an `End` is empty.
#[derive(Clone, Copy, Debug)]
pub struct Token<'a> {
    /// What it is.
    pub kind: TokenKind,
    /// Its spelling, quotes included.
    pub text: &'a str,
    /// The byte offset of its first character.
    pub start: usize,
    /// The place of its first character.
    pub pos: Pos,
}

// This kind where its spelling was found, and a fault where it wasn't.
#[inline(always)]
fn found(kind: TokenKind, is_found: bool) -> TokenKind
    ensures { result ≡ (if is_found then kind else TokenKind.Fault) }
{
    if is_found { kind } else { TokenKind::Fault }
}

// Passes a string or a block string after its first quote, and gives its kind, or a fault.
#[inline(always)]
fn pass_quoted(bytes: &[u8], places: &mut RunningPlace) -> TokenKind
    requires { RunsOver bytes.now places.old }
    ensures { Gives quoted bytes.now places.old result places.new }
{
    if !pass_char(bytes, places, b'"') {
        return found(TokenKind::String, pass_string(bytes, places));
    }
    if !pass_char(bytes, places, b'"') {
        return TokenKind::String;
    }
    found(TokenKind::Block, pass_block(bytes, places))
}

// Passes a number and gives its kind, or a fault. `b` is its first byte.
#[inline(always)]
fn pass_number_token(bytes: &[u8], places: &mut RunningPlace, b: u8) -> TokenKind
    requires runs { RunsOver bytes.now places.old }
    requires first { IsFirstByte b (ahead places.old) }
    requires number { begins_number b ≡ true }
    ensures { Gives next bytes.now places.old result places.new }
{
    found(TokenKind::Number, pass_number(bytes, places))
}

// Passes a token that is neither a name nor a number nor a punctuator of one character, and gives its kind. `b` is the
// token's first byte.
#[inline(always)]
fn pass_rare_token(bytes: &[u8], places: &mut RunningPlace, b: u8) -> TokenKind
    requires runs { RunsOver bytes.now places.old }
    requires first { IsFirstByte b (ahead places.old) }
    requires no_name { classes.is_name_start b ≡ false }
    requires no_punct { classes.is_punct b ≡ false }
    requires no_number { begins_number b ≡ false }
    ensures { Gives next bytes.now places.old result places.new }
{
    if b == b'"' {
        places.pass_ascii();
        return pass_quoted(bytes, places);
    }
    if b == b'.' {
        places.pass_ascii();
        return found(TokenKind::Punct, pass_dots(bytes, places));
    }
    TokenKind::Fault
}

// The same, but never inlined, so that what is inlined for names and punctuators stays small. Within it the place has
// no address, and so it stays in registers.
#[inline(never)]
fn pass_other_token(bytes: &[u8], places: &mut RunningPlace, b: u8) -> TokenKind
    requires runs { RunsOver bytes.now places.old }
    requires first { IsFirstByte b (ahead places.old) }
    requires no_name { classes.is_name_start b ≡ false }
    requires no_punct { classes.is_punct b ≡ false }
    requires no_number { begins_number b ≡ false }
    ensures { Gives next bytes.now places.old result places.new }
{
    let mut own = *places;
    let kind = pass_rare_token(bytes, &mut own, b);
    *places = own;
    kind
}

// Passes the token that is next and gives its kind. After a fault the place may be anywhere ahead.
#[inline(always)]
fn pass_token(bytes: &[u8], places: &mut RunningPlace) -> TokenKind
    requires { RunsOver bytes.now places.old }
    ensures { Gives next bytes.now places.old result places.new }
{
    let Some(b) = peek(bytes, places) else {
        return TokenKind::End;
    };
    if CharClass::NameStart.has(b) {
        places.pass_ascii();
        pass_class::<NameChars>(bytes, places);
        return TokenKind::Name;
    }
    if CharClass::Punct.has(b) {
        places.pass_ascii();
        return TokenKind::Punct;
    }
    // A copy is handed over, so that the caller's own place has no address and stays in registers.
    let mut after = *places;
    if CharClass::NumberStart.has(b) {
        let kind = pass_number_token(bytes, &mut after, b);
        *places = after;
        return kind;
    }
    let kind = pass_other_token(bytes, &mut after, b);
    *places = after;
    kind
}

/// The tokens of a text, one after another, up to an `End` or a `Fault`, and then None for good.
#[derive(Debug, Drop)]
pub struct Tokens<'a> {
    text: &'a str,
    places: RunningPlace<'a>,
    taken: usize,
    // The kind of the token that was given last; before the first, one after which others come.
    last: TokenKind,
}

impl<'a> Model for Tokens<'a> {
    ghost use Rattle.graphql_tokens.specs.tokens.Token.{Lexing};

    ghost Value = { Lexing };

    ghost use Rattle.graphql_tokens.specs.inner.Lexer.{tokens_at, IsLexing};

    ghost view = { λ a. record { text = a.text.now; whole = tokens_at a.text.now 0; taken = a.taken } };

    ghost invariant = { IsLexing };
}

impl<'a> Tokens<'a> {
    ghost use Rattle.std.specs.Prelude.{◌≡◌, ◌≢◌, ◌≤◌, ◌+◌, length, IsTrue, ◌↔◌, List, [], ◌∷◌};
    ghost use Rattle.std.specs.Str.{chars};
    ghost use Rattle.graphql_tokens.specs.tokens.Token.{Token as SpecToken, left};
    ghost use Rattle.graphql_tokens.specs.tokens.Edition.{Former};
    ghost use Rattle.graphql_tokens.specs.tokens.Cuts.{Cuts, IsCutInto, EndsOnce, HasNoFault};
    ghost use Rattle.graphql_tokens.specs.tokens.Proper.{AreProperButFaults};
    ghost use Rattle.graphql_tokens.specs.tokens.Seen.{seen};
    ghost use Rattle.graphql_tokens.specs.tokens.Within.{StandsIn};

    /// The tokens of `text`. Characters between tokens that are ignored are tabs, spaces, commas, line
    /// feeds, carriage returns, U+FEFF and comments. Control characters and those past U+FFFF may
    /// stand in comments and strings (this project's choice).
    pub fn new(text: &'a str) -> Tokens<'a>
        // The tokens to come are those into which the text is cut,
        ensures cut { IsCutInto text.entry.now (left result) }
        // and no others.
        ensures only { (ts : List SpecToken) → IsCutInto text.entry.now ts → ts ≡ left result }
        // A text that the former edition cuts without a fault is cut into the same tokens now.
        ensures former { (ts : List SpecToken) → HasNoFault ts →
            Cuts Former [] (chars text.entry.now) ts → ts ≡ left result }
        // One of them is an end or a fault, and it is the last.
        ensures ends { EndsOnce (left result) }
        // Each but a fault has a spelling of its kind.
        ensures proper { AreProperButFaults (left result) }
        ensures short { length (left result) ≤ length (chars text.entry.now) + 1 }
        ensures none { result.taken ≡ 0 }
        ensures text { result.text ≡ text.entry.now }
    {
        Tokens {
            text,
            places: RunningPlace::new(text),
            taken: 0,
            last: TokenKind::Punct,
        }
    }

    /// The next token, where the last was not given yet: as `next`, without the `Option`.
    #[inline(always)]
    pub fn next_token(&mut self) -> Token<'a>
        requires { left self.old ≢ [] }
        ensures token { left self.old ≡ seen result ∷ left self.new }
        ensures taken { self.new.taken ≡ self.old.taken + 1 }
        ensures whole { self.new.whole ≡ self.old.whole }
        ensures text { self.new.text ≡ self.old.text }
        ensures stands { StandsIn self.old.text (seen result) }
        // It has given no more tokens than there are.
        ensures within { self.new.taken ≤ length self.new.whole }
        // Of those that were left, one is an end or a fault, and it is the last.
        ensures ends { EndsOnce (left self.old) }
        // Each of them, but a fault, has a spelling of its kind.
        ensures proper { AreProperButFaults (left self.old) }
    {
        let mut places = self.places;
        // The place's own text, so that where it lies is kept in registers once.
        let text = places.text();
        let bytes = text.as_bytes();
        pass_ignored(bytes, &mut places);
        let start = places.offset();
        let pos = places.pos();
        let kind = pass_token(bytes, &mut places);
        let is_last = kind.is_last();
        let end = if is_last { start } else { places.offset() };
        self.places.go_to(&places);
        self.taken += 1;
        self.last = kind;
        Token {
            kind,
            text: &text[start..end],
            start,
            pos,
        }
    }

    /// The text.
    #[inline(always)]
    pub fn text(&self) -> &'a str
        ensures { result.now ≡ self.now.text }
    {
        self.text
    }

    /// How many tokens it has given.
    pub fn taken(&self) -> usize
        ensures { result ≡ self.now.taken }
    {
        self.taken
    }

    /// Whether it has given the last token, `End` or `Fault`.
    #[inline(always)]
    pub fn is_ended(&self) -> bool
        ensures ended { IsTrue result ↔ (left self.now ≡ []) }
        // Wherever it is, where tokens are left, one of them is an end or a fault, and it is the last.
        ensures ends { left self.now ≢ [] → EndsOnce (left self.now) }
        // Each that is left, but a fault, has a spelling of its kind.
        ensures proper { AreProperButFaults (left self.now) }
        // It has given no more tokens than there are.
        ensures within { self.now.taken ≤ length self.now.whole }
    {
        self.last.is_last()
    }
}

impl<'a> Iterator for Tokens<'a> {
    ghost use Rattle.std.specs.Iterator.{item_count};
    ghost use Rattle.graphql_tokens.specs.tokens.Seen.{GivesToken};
    ghost use Rattle.graphql_tokens.specs.tokens.Token.{left};

    type Item = Token<'a>;

    ghost next_gives = { GivesToken };

    ghost remaining = { item_count left };

    #[inline(always)]
    fn next(&mut self) -> Option<Token<'a>> {
        if self.is_ended() {
            return None;
        }
        Some(self.next_token())
    }
}

impl FusedIterator for Tokens<'_> {}

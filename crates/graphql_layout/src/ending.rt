//! What may touch what.

ghost use Rattle.std.specs.Prelude.{◌≡◌, ◌+◌, length};
ghost use Rattle.graphql_layout.specs.inner.Endings.{stops, string_ending};
ghost use Rattle.graphql_tokens.specs.tokens.Classes.{is_name_char};

use graphql_tokens::lexer::TokenKind;

/// How a token ends, as far as it decides which character may follow it.
#[derive(Clone, Copy)]
pub enum Ending {
    /// Any character may follow: after a punctuator, a string with a character in it, or nothing.
    Open,
    /// A name.
    Name,
    /// A number.
    Number,
    /// The string `""`.
    EmptyString,
}

impl Ending {
    ghost use Rattle.graphql_layout.specs.inner.Endings.{ending_of, stops_token};

    /// How a token of this kind, so spelled, ends.
    #[inline(always)]
    pub fn of(kind: TokenKind, spelling: &str) -> Ending
        ensures { result ≡ ending_of (record { kind = kind; spelling = spelling.now }) }
    {
        match kind {
            TokenKind::Name => Ending::Name,
            TokenKind::Number => Ending::Number,
            TokenKind::String => of_string(spelling.len()),
            _ => Ending::Open,
        }
    }

    /// How a string of this content ends.
    #[inline(always)]
    pub fn of_content(content: &str) -> Ending
        ensures { result ≡ string_ending (2 + length content.now) }
    {
        if content.is_empty() {
            Ending::EmptyString
        } else {
            Ending::Open
        }
    }

    /// Whether what is spelled so may not follow.
    #[inline(always)]
    pub fn stops(self, spelling: &str) -> bool
        ensures { result ≡ stops_token self spelling.now }
    {
        match spelling.as_bytes().first() {
            Some(first) => stops(self, *first),
            None => false,
        }
    }
}

// How a string of so many bytes, with its quotes, ends.
#[inline(always)]
fn of_string(length: usize) -> Ending
    ensures { result ≡ string_ending length }
{
    if length == 2 {
        Ending::EmptyString
    } else {
        Ending::Open
    }
}

// Whether this character may not follow.
#[inline(always)]
fn stops(ending: Ending, next: u8) -> bool
    ensures { result ≡ stops ending next }
{
    match ending {
        Ending::Open => false,
        Ending::Name => is_name_char(next),
        Ending::Number => is_name_char(next) || next == b'.',
        Ending::EmptyString => next == b'"',
    }
}

#[inline(always)]
fn is_name_char(c: u8) -> bool
    ensures { result ≡ is_name_char c }
{
    c.is_ascii_alphabetic() || c == b'_' || c.is_ascii_digit()
}

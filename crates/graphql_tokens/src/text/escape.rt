//! Escapes in the content of a string.

ghost use Rattle.std.specs.Prelude.{◌≡◌, ◌<◌};
ghost use Rattle.std.specs.Char.{is_ascii_hexdigit};
ghost use Rattle.std.specs.List.{prefix_len};
ghost use Rattle.graphql_tokens.specs.inner.Escapes as escapes;

use super::{byte, past_while};

// The first number past all characters.
const PAST_CHARS: u32 = 0x11_0000;

// What a backslash and this letter stand for.
fn letter_value(letter: u8) -> Option<char>
    ensures { result ≡ escapes.letter_value letter }
{
    match letter {
        b'"' | b'\\' | b'/' => Some(letter as char),
        b'b' => Some('\u{8}'),
        b'f' => Some('\u{c}'),
        b'n' => Some('\n'),
        b'r' => Some('\r'),
        b't' => Some('\t'),
        _ => None,
    }
}

// The number of these digits, or nothing where one of them is no hexadecimal digit. A number past all characters
// is given as the first of these.
fn hex_number(digits: &[u8]) -> Option<u32>
    ensures { result ≡ escapes.hex_number digits.now }
{
    let mut number = 0;
    for digit in digits {
        let value = char::from(*digit).to_digit(16)?;
        number = (number * 16 + value).min(PAST_CHARS);
    }
    Some(number)
}

// The number of the four digits at the front.
fn four_digits(text: &[u8]) -> Option<u32>
    ensures { result ≡ escapes.four_digits text.now }
{
    if text.len() < 4 {
        return None;
    }
    hex_number(&text[..4])
}

// The character of this number, where it has one.
fn scalar_of(number: u32) -> Option<char>
    ensures { result ≡ escapes.scalar_of number }
{
    char::from_u32(number)
}

// The character of a surrogate pair.
fn pair_value(high: u32, low: u32) -> Option<char>
    ensures { result ≡ escapes.pair_value high low }
{
    if high >= 0xD800 && high <= 0xDBFF && low >= 0xDC00 && low <= 0xDFFF {
        char::from_u32(0x1_0000 + (high - 0xD800) * 0x400 + (low - 0xDC00))
    } else {
        None
    }
}

// How many hexadecimal digits stand at the front.
fn past_hex_digits(text: &[u8]) -> usize
    ensures { result ≡ prefix_len is_ascii_hexdigit text.now }
{
    past_while(text, 0, |b| b.is_ascii_hexdigit())
}

// The escape whose text stands after `\u{`.
fn braced_at(text: &[u8]) -> Option<(char, usize)>
    ensures { result ≡ escapes.braced_at text.now }
{
    let end = past_hex_digits(text);
    if end == 0 || byte(text, end) != b'}' {
        return None;
    }
    let value = scalar_of(hex_number(&text[..end])?)?;
    Some((value, end + 4))
}

// The number of the four digits of the escape at the front.
fn low_half_at(text: &[u8]) -> Option<u32>
    ensures { result ≡ escapes.low_half_at text.now }
{
    if byte(text, 0) == b'\\' && byte(text, 1) == b'u' {
        four_digits(&text[2..])
    } else {
        None
    }
}

// The escape of a surrogate pair. `rest` is the text after the first half, whose number is `high`.
fn pair_at(high: u32, rest: &[u8]) -> Option<(char, usize)>
    ensures { result ≡ escapes.pair_at high rest.now }
{
    let low = low_half_at(rest)?;
    Some((pair_value(high, low)?, 12))
}

// The escape whose text stands after `\u`.
fn number_at(text: &[u8]) -> Option<(char, usize)>
    ensures { result ≡ escapes.number_at text.now }
{
    if byte(text, 0) == b'{' {
        return braced_at(&text[1..]);
    }
    let number = four_digits(text)?;
    match scalar_of(number) {
        Some(value) => Some((value, 6)),
        None => pair_at(number, &text[4..]),
    }
}

// The escape at the text's front: the character for which it stands, and how many bytes it has.
#[tactic(auto, unfolding(crate::specs::inner::Escapes::escape_at))]
pub fn escape_at(text: &[u8]) -> Option<(char, usize)>
    ensures { result ≡ escapes.escape_at text.now }
{
    if byte(text, 0) != b'\\' {
        return None;
    }
    if byte(text, 1) == b'u' {
        return number_at(&text[2..]);
    }
    Some((letter_value(byte(text, 1))?, 2))
}

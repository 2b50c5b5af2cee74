//! Strings that are printed.
ghost use Rattle.std.specs.Prelude.{◌≡◌, ◌++◌, ◌<◌, IfOk, OnOk, string_bytes};
ghost use Rattle.std.specs.Str.{chars, encode_utf8_all};
ghost use Rattle.graphql_syntax.specs.trees.ValueText.{escape_letter as letter_for};
ghost use Rattle.graphql_printer.specs.Controls.{are_clear as are_clear_of};
ghost use Rattle.graphql_printer.specs.inner.Strings.{hex_digit as digit_of, string_text, unit_for};

use std::alloc::{AllocError, Global};

/// The string that stands for a text, in its quotes. `"`, `\` and control characters are escaped in it.
pub fn quoted_text(alloc: Global, text: &str) -> Result<String, AllocError>
    ensures { IfOk result (λ s. string_bytes s ≡ string_text text.now) }
{
    let mut out = String::new(alloc);
    out.push('"')?;
    for c in text.chars() {
        push_unit(&mut out, c)?;
    }
    out.push('"')?;
    Ok(out)
}

/// Whether a block string may show its characters: there is no control character but tabs and line feeds.
pub fn are_clear(text: &str) -> bool
    ensures { result ≡ are_clear_of (chars text.now) }
{
    text.chars()
        .all(|c| !c.is_control() || c == '\t' || c == '\n')
}

// Writes what stands for a character in a string.
fn push_unit(out: &mut String, c: char) -> Result<(), AllocError>
    ensures { OnOk result (string_bytes out.new ≡ string_bytes out.old ++ encode_utf8_all (unit_for c)) }
{
    if let Some(letter) = escape_letter(c) {
        out.push('\\')?;
        return out.push(letter);
    }
    if !c.is_control() {
        return out.push(c);
    }
    let code = u32::from(c);
    out.push_str("\\u00")?;
    out.push(hex_digit(code / 16))?;
    out.push(hex_digit(code % 16))
}

// The letter that stands for a character after a backslash, if it has one.
fn escape_letter(c: char) -> Option<char>
    ensures { result ≡ letter_for c }
{
    match c {
        '"' | '\\' => Some(c),
        '\n' => Some('n'),
        '\r' => Some('r'),
        '\t' => Some('t'),
        '\u{8}' => Some('b'),
        '\u{c}' => Some('f'),
        _ => None,
    }
}

fn hex_digit(digit: u32) -> char
    requires { digit < 16 }
    ensures { result ≡ digit_of digit }
{
    char::from_digit(digit, 16).unwrap().to_ascii_uppercase()
}

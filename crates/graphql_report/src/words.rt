//! How a report names the rejected token, and what is expected in its place.
ghost use Rattle.std.specs.Prelude.{◌≡◌, ◌+◌, ◌==◌, ◌++◌, [], codes, OnOk, if◌then◌else◌, string_bytes};
ghost use Rattle.graphql_tokens.specs.tokens.Seen.{seen};
ghost use Rattle.graphql_report.specs.inner.Called.{texts};
ghost use Rattle.graphql_report.specs.reports.Words.{cut, found, exception, expected as expected_text};

use crate::excerpt::shown;
use crate::fronts::Language;
use crate::hints::is_no_enum_value;
use crate::samples::{END, NAME, VALUE};
use graphql_parser::lexer::{Token, TokenKind};
use std::alloc::AllocError;

// So many characters of a token are shown.
const SHOWN_TOKEN: usize = 30;

/// Adds what stands at the rejected place.
pub fn push_found(out: &mut String, token: &Token<'_>) -> Result<(), AllocError>
    ensures { OnOk result (string_bytes out.new ≡ string_bytes out.old ++ found (seen token.now).bare) }
{
    let text = token.text;
    match token.kind {
        TokenKind::End => out.push_str(END)?,
        TokenKind::Block => out.push_str("a block string")?,
        TokenKind::String => {
            out.push_str("the string ")?;
            push_cut(out, text)?;
        }
        TokenKind::Number => {
            out.push_str("the number ")?;
            push_cut(out, text)?;
        }
        TokenKind::Punct | TokenKind::Name | TokenKind::Fault => {
            out.push_str("\"")?;
            push_cut(out, text)?;
            out.push_str("\"")?;
        }
    }
    Ok(())
}

// Adds the first characters of a text.
fn push_cut(out: &mut String, text: &str) -> Result<(), AllocError>
    ensures { OnOk result (string_bytes out.new ≡ string_bytes out.old ++ cut text.now) }
{
    let mut passed = 0usize;
    for c in text.chars().take(SHOWN_TOKEN) {
        out.push(shown(c))?;
        passed = passed.saturating_add(c.len_utf8());
    }
    if passed < text.len() {
        out.push_str("...")?;
    }
    Ok(())
}

/// Adds what is expected, as `, expected a name, "..." or "}"`.
pub fn push_expected(
    out: &mut String,
    language: Language,
    token: &Token<'_>,
    expected: &[&'static str],
) -> Result<(), AllocError>
    ensures { OnOk result (string_bytes out.new ≡ string_bytes out.old ++
        expected_text language (seen token.now).bare (texts expected.now)) }
{
    let is_exact = is_no_enum_value(language, token, expected);
    for (index, name) in expected.iter().enumerate() {
        out.push_str(words_before(index, expected.len()))?;
        push_name(out, token, name, is_exact)?;
    }
    Ok(())
}

// What stands before the one with this index, of so many.
fn words_before(index: usize, count: usize) -> &'static str
    ensures { result.now ≡ (if index == 0 then codes ", expected " else
        (if index + 1 == count then codes " or " else codes ", ")) }
{
    if index == 0 {
        ", expected "
    } else if index == count.saturating_sub(1) {
        " or "
    } else {
        ", "
    }
}

// Adds what is expected, and what was found, if it is the one thing of that which may not stand there.
fn push_name(
    out: &mut String,
    token: &Token<'_>,
    name: &str,
    is_exact: bool,
) -> Result<(), AllocError>
    ensures { OnOk result (string_bytes out.new ≡ string_bytes out.old ++ (name.now ++
        (if is_exact then [] else exception (seen token.now).bare name.now))) }
{
    let is_other = token.kind.is_name() && (name == NAME || name == VALUE);
    let is_variable = token.text == "$" && name == VALUE;
    out.push_str(name)?;
    if is_exact {
        return Ok(());
    }
    if is_other {
        let word = token.text;
        write!(out, " other than \"{word}\"")?;
    } else if is_variable {
        out.push_str(" without variables")?;
    }
    Ok(())
}

//! What is wrong where no token begins, in a person's words.
ghost use Rattle.std.specs.Prelude.{◌≡◌, ◌≢◌, ◌≤◌, ◌==◌, ◌&&◌, if◌then◌else◌, ℕ, Bool, true, false, List, [], ◌∷◌, ◌++◌, length, map, take, codes, IfOk, IfSome, IfNone, MatchOption, string_bytes, unwrap_or};
ghost use Rattle.std.specs.Str.{chars, encode_utf8_all, IsUtf8, NonePass};
ghost use Rattle.graphql_tokens.specs.tokens.Numbers.{AllDigits, is_e, is_sign as is_sign_char, IsExponent, IsFraction, IsOptional};
ghost use Rattle.graphql_tokens.specs.tokens.Strings.{is_plain as is_plain_char};
ghost use Rattle.graphql_report.specs.inner.Strings.{HasBareExponent, HasBarePoint, HasNoUnit, IsAfter, IsShownEscape, IsSplit, Passes, TellsAhead};
ghost use Rattle.graphql_report.specs.inner.Carets.{TellsEscape};
ghost use Rattle.graphql_report.specs.reports.Faults.{begins_with_digit as digit_first, digit_after_dots as digit_follows, is_invisible as is_unseen, is_other_quote as is_quote, has_leading_zero as leading_zero, number_of, IsToldOfCharacter, IsToldOfDigits, IsToldOfFault};
ghost use Rattle.graphql_report.specs.reports.Words.{shown_for};

use crate::excerpt::{is_line_end, push_shown, shown};
use crate::refused::after;
use graphql_parser::text::string_value;
use std::alloc::{AllocError, Global};

/// Why no token begins at a place.
#[derive(Drop)]
pub struct Fault {
    /// What is wrong, in words.
    pub message: String,
    /// How many bytes after the place that shows: more than none only at a bad escape in a string.
    pub offset: usize,
}

/// Says why no token begins with this text, which is not empty, where a value could stand or could not.
///
/// Of a string the report is on the first bad escape, or else that it is not closed.
pub fn fault_of(alloc: Global, text: &str, is_value: bool) -> Result<Fault, AllocError>
    ensures escape { IfOk result (λ fault. TellsEscape (chars text.now) fault.offset) }
    ensures told { IfOk result (λ fault. IsToldOfFault is_value (chars text.now) (string_bytes fault.message)) }
{
    let Some((first, rest)) = split_first(text) else {
        let nothing = String::from_str(alloc, "no token begins here")?;
        return Ok(Fault {
            message: nothing,
            offset: 0,
        });
    };
    if first == '"' {
        return string_fault(alloc, text);
    }
    if first == '-' {
        let minus = minus_fault(alloc, rest, is_value)?;
        return Ok(Fault {
            message: minus,
            offset: 0,
        });
    }
    let message = other_fault(alloc, text, first, is_value)?;
    Ok(Fault { message, offset: 0 })
}

// The first character of a text, and the rest.
fn split_first(text: &str) -> Option<(char, &str)>
    ensures cases { MatchOption result (chars text.now ≡ [])
        (λ parts. chars text.now ≡ parts.0 ∷ chars parts.1.now) }
    ensures utf8 { IfSome result (λ parts. IsUtf8 parts.1.now) }
{
    let mut rest = text.chars();
    let Some(c) = rest.next() else {
        return None;
    };
    Some((c, rest.as_str()))
}

// What is wrong with a minus sign before this text.
fn minus_fault(alloc: Global, unsigned: &str, is_value: bool) -> Result<String, AllocError>
    ensures { IfOk result (λ told. (text : List ℕ) → text ≡ 45 ∷ chars unsigned.now →
        IsToldOfFault is_value text (string_bytes told)) }
{
    if !is_value {
        return String::from_str(alloc, "no name contains a minus sign");
    }
    if !begins_with_digit(unsigned) {
        return String::from_str(alloc, "a digit has to follow the minus sign");
    }
    digits_fault(alloc, unsigned)
}

// What is wrong with a text that begins with this character, which is neither a quote nor a minus sign.
fn other_fault(alloc: Global, text: &str, first: char, is_value: bool) -> Result<String, AllocError>
    requires first { (rest : List ℕ) × (chars text.now ≡ first ∷ rest) }
    requires other { (first == 34 ≡ false) × (first == 45 ≡ false) }
    ensures { IfOk result (λ told. IsToldOfFault is_value (chars text.now) (string_bytes told)) }
{
    if first == '.' {
        return String::from_str(alloc, dots_fault(text, is_value));
    }
    if is_value && first == '+' {
        return String::from_str(alloc, "a number has no plus sign");
    }
    if first.is_ascii_digit() {
        return digits_fault(alloc, text);
    }
    character_fault(alloc, first)
}

fn dots_fault(text: &str, is_value: bool) -> &'static str
    ensures { result.now ≡ (if is_value && digit_follows (chars text.now) then
        codes "a digit has to stand before the point of a number" else
        codes "a spread is written with three dots") }
{
    if is_value && digit_after_dots(text) {
        "a digit has to stand before the point of a number"
    } else {
        "a spread is written with three dots"
    }
}

// Whether a digit is next but for dots.
fn digit_after_dots(text: &str) -> bool
    ensures { result ≡ digit_follows (chars text.now) }
{
    let mut rest = text;
    loop {
        let Some((c, after)) = split_first(rest) else {
            return false;
        };
        if c != '.' {
            return c.is_ascii_digit();
        }
        rest = after;
    }
}

// What is wrong with a character that begins nothing.
fn character_fault(alloc: Global, c: char) -> Result<String, AllocError>
    ensures { IfOk result (λ told. IsToldOfCharacter c (string_bytes told)) }
{
    if is_other_quote(c) {
        return format!(in alloc; "{c} begins no token (a string stands between double quotes)");
    }
    if c == '/' {
        return String::from_str(
            alloc,
            "the character / begins no token (a comment begins with #)",
        );
    }
    if is_invisible(c) {
        return invisible_fault(alloc, c);
    }
    format!(in alloc; "the character {c} begins no token")
}

// What is wrong with a character that a person can't see.
fn invisible_fault(alloc: Global, c: char) -> Result<String, AllocError>
    ensures { IfOk result (λ told.
        string_bytes told ≡ codes "the character U+" ++ (number_of c ++ codes " begins no token")) }
{
    let code = u32::from(c);
    let number = format!(in alloc; "{code:04X}")?;
    let shown = number.as_str();
    format!(in alloc; "the character U+{shown} begins no token")
}

// Whether this is a quote that begins no string.
fn is_other_quote(c: char) -> bool
    ensures { result ≡ is_quote c }
{
    matches!(
        c,
        '\'' | '`' | '\u{2018}' | '\u{2019}' | '\u{201c}' | '\u{201d}'
    )
}

// Whether a person can't see the character, or may take it for a blank.
fn is_invisible(c: char) -> bool
    ensures { result ≡ is_unseen c }
{
    shown(c) != c || c.is_whitespace() || ('\u{200b}'..='\u{200d}').contains(&c)
}

// ---- numbers

fn begins_with_digit(text: &str) -> bool
    ensures { result ≡ digit_first (chars text.now) }
{
    match split_first(text) {
        Some((c, _)) => c.is_ascii_digit(),
        None => false,
    }
}

// The rest after the digits at the front.
fn after_digits(text: &str) -> &str
    ensures after { IsAfter AllDigits (chars text.now) (chars result.now) }
    ensures all { digit_first (chars result.now) ≡ false }
{
    let mut rest = text;
    loop {
        let Some((c, after)) = split_first(rest) else {
            return rest;
        };
        if !c.is_ascii_digit() {
            return rest;
        }
        rest = after;
    }
}

fn is_sign(c: char) -> bool
    ensures { result ≡ is_sign_char c }
{
    c == '+' || c == '-'
}

fn is_exponent(c: char) -> bool
    ensures { result ≡ is_e c }
{
    c == 'e' || c == 'E'
}

// The rest after a plus or minus sign, if there is one.
fn after_sign(text: &str) -> &str
    ensures { IsAfter (IsOptional is_sign_char) (chars text.now) (chars result.now) }
{
    let Some((c, rest)) = split_first(text) else {
        return text;
    };
    if is_sign(c) {
        return rest;
    }
    text
}

// The rest after the fraction, if there is one; None of a point without a digit.
fn after_fraction(text: &str) -> Option<&str>
    ensures cases { MatchOption result (HasBarePoint (chars text.now))
        (λ rest. IsAfter IsFraction (chars text.now) (chars rest.now)) }
    ensures utf8 { IfSome result (λ rest. IsUtf8 rest.now) }
{
    let Some((c, digits)) = split_first(text) else {
        return Some(text);
    };
    if c != '.' {
        return Some(text);
    }
    if !begins_with_digit(digits) {
        return None;
    }
    Some(after_digits(digits))
}

// The rest after the exponent, if there is one; None of one without a digit.
fn after_exponent(text: &str) -> Option<&str>
    ensures cases { MatchOption result (HasBareExponent (chars text.now))
        (λ rest. IsAfter IsExponent (chars text.now) (chars rest.now)) }
    ensures utf8 { IfSome result (λ rest. IsUtf8 rest.now) }
{
    let Some((c, exponent)) = split_first(text) else {
        return Some(text);
    };
    if !is_exponent(c) {
        return Some(text);
    }
    let digits = after_sign(exponent);
    if !begins_with_digit(digits) {
        return None;
    }
    Some(after_digits(digits))
}

// Whether a text begins with a zero and another digit.
fn has_leading_zero(text: &str) -> bool
    ensures { result ≡ leading_zero (chars text.now) }
{
    match split_first(text) {
        Some((c, rest)) => c == '0' && begins_with_digit(rest),
        None => false,
    }
}

// What is wrong with a text that begins with a digit.
fn digits_fault(alloc: Global, text: &str) -> Result<String, AllocError>
    requires { digit_first (chars text.now) ≡ true }
    ensures { IfOk result (λ told. IsToldOfDigits (chars text.now) (string_bytes told)) }
{
    if has_leading_zero(text) {
        return String::from_str(alloc, "no digit may follow a 0 that begins a number");
    }
    let Some(rest) = after_fraction(after_digits(text)) else {
        return String::from_str(alloc, "a digit has to follow the point of a number");
    };
    let Some(rest) = after_exponent(rest) else {
        return String::from_str(alloc, "the exponent of a number has to have a digit");
    };
    match split_first(rest) {
        Some((c, _)) => format!(in alloc; "{c} may not follow a number at once"),
        None => String::from_str(alloc, "this is no number"),
    }
}

// ---- strings

// How many characters an escape may have, but for those in braces.
const ESCAPE_LENGTHS: [usize; 3] = [2, 6, 12];

// What is ahead in a string.
#[derive(Drop)]
enum Ahead<'a> {
    // A part of its content, and this after it.
    Content(&'a str),
    BadEscape,
    // The end of the string or of its line.
    End,
}

// Whether a character of a string stands for itself.
fn is_plain(c: char) -> bool
    ensures { result ≡ is_plain_char c }
{
    !(c == '"' || c == '\\' || c == '\n' || c == '\r')
}

// The first characters of a text, and the rest.
fn split_chars(text: &str, count: usize) -> (&str, &str)
    ensures split { IsSplit text.now result.0.now result.1.now }
    ensures first { chars result.0.now ≡ take count (chars text.now) }
    ensures utf8 { IsUtf8 result.1.now }
{
    let mut rest = text.chars();
    for _ in 0..count {
        rest.next();
    }
    text.split_at(text.len() - rest.as_str().len())
}

// The text up to the first closing brace, that one included, and the rest.
fn split_at_brace(text: &str) -> (&str, &str)
    ensures split { IsSplit text.now result.0.now result.1.now }
    ensures brace { (front after : List ℕ) → NonePass (λ c. c == 125) front →
        chars text.now ≡ front ++ 125 ∷ after → chars result.0.now ≡ front ++ 125 ∷ [] }
    ensures some { 1 ≤ length (chars text.now) → 1 ≤ length (chars result.0.now) }
    ensures utf8 { IsUtf8 result.1.now }
{
    match text.find('}') {
        Some(at) => text.split_at(at + 1),
        None => (text, ""),
    }
}

// The rest of a text after the good escape with which it begins, if there is one.
fn after_escape<'a>(alloc: Global, text: &'a str) -> Result<Option<&'a str>, AllocError>
    requires { (after : List ℕ) × (chars text.now ≡ 92 ∷ after) }
    ensures some { IfOk result (λ found. IfSome found (λ rest. IsUtf8 rest.now × Passes (chars text.now) (chars rest.now))) }
    ensures none { IfOk result (λ found. IfNone found (HasNoUnit (chars text.now))) }
{
    for length in ESCAPE_LENGTHS {
        let (escape, rest) = split_chars(text, length);
        if string_value(alloc, escape)?.is_some() {
            return Ok(Some(rest));
        }
    }
    let (escape, rest) = split_at_brace(text);
    if string_value(alloc, escape)?.is_some() {
        return Ok(Some(rest));
    }
    Ok(None)
}

// What is ahead where a text begins with a backslash.
fn escape_ahead<'a>(alloc: Global, text: &'a str) -> Result<Ahead<'a>, AllocError>
    requires { (after : List ℕ) × (chars text.now ≡ 92 ∷ after) }
    ensures { IfOk result (λ ahead. TellsAhead (chars text.now) ahead) }
{
    let (_, after) = split_chars(text, 1);
    let Some(next) = after.chars().next() else {
        return Ok(Ahead::End);
    };
    if is_line_end(next) {
        return Ok(Ahead::End);
    }
    match after_escape(alloc, text)? {
        Some(rest) => Ok(Ahead::Content(rest)),
        None => Ok(Ahead::BadEscape),
    }
}

// What is ahead where a string's rest is this.
fn ahead_in<'a>(alloc: Global, text: &'a str) -> Result<Ahead<'a>, AllocError>
    ensures { IfOk result (λ ahead. TellsAhead (chars text.now) ahead) }
{
    let mut rest = text.chars();
    let Some(c) = rest.next() else {
        return Ok(Ahead::End);
    };
    if c == '\\' {
        return escape_ahead(alloc, text);
    }
    if is_plain(c) {
        return Ok(Ahead::Content(rest.as_str()));
    }
    Ok(Ahead::End)
}

// What is shown of a bad escape.
fn shown_escape(text: &str) -> &str
    requires { 1 ≤ length (chars text.now) }
    ensures { IsShownEscape (chars text.now) (chars result.now) }
{
    if text.starts_with("\\u{") {
        split_chars(split_at_brace(text).0, 12).0
    } else if text.starts_with("\\u") {
        let digits = text.strip_prefix("\\u").unwrap_or("");
        let rest = digits.trim_start_matches(|c: char| c.is_ascii_hexdigit());
        let length = digits.len().saturating_sub(rest.len()).min(4);
        split_chars(text, length + 2).0
    } else {
        split_chars(text, 2).0
    }
}

fn escape_fault(alloc: Global, escape: &str) -> Result<String, AllocError>
    ensures { IfOk result (λ told. string_bytes told ≡ codes "the escape " ++
        (encode_utf8_all (map shown_for (chars escape.now)) ++ codes " in this string stands for no character")) }
{
    let mut message = String::from_str(alloc, "the escape ")?;
    push_shown(&mut message, escape)?;
    message.push_str(" in this string stands for no character")?;
    Ok(message)
}

// Where the first bad escape of a string begins, if the string has one before it or its line ends.
fn bad_escape(alloc: Global, text: &str) -> Result<Option<usize>, AllocError>
    ensures escape { IfOk result (λ found. TellsEscape (chars text.now) (unwrap_or found 0)) }
    ensures some { IfOk result (λ found. IfSome found (λ offset. 1 ≤ offset)) }
{
    let Some(mut rest) = text.strip_prefix('"') else {
        return Ok(None);
    };
    loop {
        match ahead_in(alloc, rest)? {
            Ahead::Content(after) => rest = after,
            Ahead::BadEscape => return Ok(Some(text.len() - rest.len())),
            Ahead::End => return Ok(None),
        }
    }
}

// What is wrong with a text that begins with a quote.
fn string_fault(alloc: Global, text: &str) -> Result<Fault, AllocError>
    requires { (rest : List ℕ) × (chars text.now ≡ 34 ∷ rest) }
    ensures escape { IfOk result (λ fault. TellsEscape (chars text.now) fault.offset) }
    ensures told { IfOk result (λ fault. (value : Bool) →
        IsToldOfFault value (chars text.now) (string_bytes fault.message)) }
{
    let Some(offset) = bad_escape(alloc, text)? else {
        return open_fault(alloc, text);
    };
    let message = escape_fault(alloc, shown_escape(after(text, offset)))?;
    Ok(Fault { message, offset })
}

// What is wrong with a text that begins with a quote, if no escape is bad.
fn open_fault(alloc: Global, text: &str) -> Result<Fault, AllocError>
    requires quote { (rest : List ℕ) × (chars text.now ≡ 34 ∷ rest) }
    requires good { TellsEscape (chars text.now) 0 }
    ensures escape { IfOk result (λ fault. TellsEscape (chars text.now) fault.offset) }
    ensures told { IfOk result (λ fault. (value : Bool) →
        IsToldOfFault value (chars text.now) (string_bytes fault.message)) }
{
    if text.starts_with("\"\"\"") {
        let block = String::from_str(alloc, "this block string is not closed by \"\"\"")?;
        return Ok(Fault {
            message: block,
            offset: 0,
        });
    }
    let line = String::from_str(
        alloc,
        "this string is not closed before the end of its line",
    )?;
    Ok(Fault {
        message: line,
        offset: 0,
    })
}

//! Number literals.

ghost use Rattle.std.specs.Prelude.{◌≡◌, ◌≤◌};
ghost use Rattle.graphql_tokens.specs.tokens.Numbers.{is_sign};
ghost use Rattle.graphql_tokens.specs.inner.Numerals.{past_optional, past_some_digits, past_whole, past_fraction, past_exponent};
ghost use Rattle.graphql_tokens.specs.inner.Numbers.{past_number, unless_forbidden};
ghost use Rattle.graphql_tokens.specs.inner.Running.{ahead};
ghost use Rattle.graphql_tokens.specs.inner.Lexing.{RunsOver, Reads, rest_if};

use super::class::CharClass;
use super::reading::{pass_char, pass_class, peek};
use crate::pos::running::RunningPlace;
use crate::text::runs::Digits;

// Passes `Digit+`, and returns whether there was one.
#[inline(always)]
fn pass_some_digits(bytes: &[u8], places: &mut RunningPlace) -> bool
    requires { RunsOver bytes.now places.old }
    ensures { Reads past_some_digits bytes.now places.old result places.new }
{
    let Some(b) = peek(bytes, places) else {
        return false;
    };
    if !CharClass::Digit.has(b) {
        return false;
    }
    places.pass_ascii();
    pass_class::<Digits>(bytes, places);
    true
}

// Passes `Sign?`, where `Sign : '+' | '-'`.
#[inline(always)]
fn pass_sign(bytes: &[u8], places: &mut RunningPlace)
    requires { RunsOver bytes.now places.old }
    ensures runs { RunsOver bytes.now places.new }
    ensures rest { ahead places.new ≡ past_optional is_sign (ahead places.old) }
    ensures forward { places.old.walk.offset ≤ places.new.walk.offset }
{
    if !pass_char(bytes, places, b'+') {
        pass_char(bytes, places, b'-');
    }
}

// Passes the digits of an `IntegerPart`, `'0' | NonZeroDigit Digit*`, and returns whether they were there.
#[inline(always)]
fn pass_whole(bytes: &[u8], places: &mut RunningPlace) -> bool
    requires { RunsOver bytes.now places.old }
    ensures { Reads past_whole bytes.now places.old result places.new }
{
    pass_char(bytes, places, b'0') || pass_some_digits(bytes, places)
}

// Passes `FractionalPart?`, where `FractionalPart : '.' Digit+`, and returns whether its digits were there.
#[inline(always)]
fn pass_fraction(bytes: &[u8], places: &mut RunningPlace) -> bool
    requires { RunsOver bytes.now places.old }
    ensures { Reads past_fraction bytes.now places.old result places.new }
{
    !pass_char(bytes, places, b'.') || pass_some_digits(bytes, places)
}

// Passes `ExponentPart?`, where `ExponentPart : ('e' | 'E') Sign? Digit+`, and returns whether its digits were there.
#[inline(always)]
fn pass_exponent(bytes: &[u8], places: &mut RunningPlace) -> bool
    requires { RunsOver bytes.now places.old }
    ensures { Reads past_exponent bytes.now places.old result places.new }
{
    if !pass_char(bytes, places, b'e') {
        if !pass_char(bytes, places, b'E') {
            return true;
        }
    }
    pass_sign(bytes, places);
    pass_some_digits(bytes, places)
}

// Whether a number may end here: a name character and a dot may not follow it.
#[inline(always)]
fn may_end(bytes: &[u8], places: &RunningPlace) -> bool
    requires { RunsOver bytes.now places.now }
    ensures { unless_forbidden (ahead places.now) ≡ rest_if result (ahead places.now) }
{
    let Some(b) = peek(bytes, places) else {
        return true;
    };
    !(CharClass::NameChar.has(b) || b == b'.')
}

// Passes an `IntValue` or a `FloatValue`, `'-'? ('0' | NonZeroDigit Digit*) FractionalPart? ExponentPart?` (GraphQL
// October 2021, sections 2.9.1 and 2.9.2), and returns whether it was there and may end where it does.
#[inline(always)]
fn pass_numeral(bytes: &[u8], places: &mut RunningPlace) -> bool
    requires { RunsOver bytes.now places.old }
    ensures { Reads past_number bytes.now places.old result places.new }
{
    pass_char(bytes, places, b'-');
    if !pass_whole(bytes, places) {
        return false;
    }
    if !pass_fraction(bytes, places) {
        return false;
    }
    if !pass_exponent(bytes, places) {
        return false;
    }
    may_end(bytes, places)
}

// The same, but never inlined, so that what is inlined for each token stays small. Within it the place has no address, and so
// it stays in registers, and strings take none of these.
#[inline(never)]
pub fn pass_number(bytes: &[u8], places: &mut RunningPlace) -> bool
    requires { RunsOver bytes.now places.old }
    ensures { Reads past_number bytes.now places.old result places.new }
{
    let mut own = *places;
    let is_found = pass_numeral(bytes, &mut own);
    *places = own;
    is_found
}

//! Numbers: their literals, and their whole values.
use crate::compared::{write_compared, write_copy};
use graphql_tokens::number::Number;
use rows::{Shown, pair};

/// Writes the number that a text is, or `none`.
pub fn write_number(shown: &mut Shown, text: &str) {
    match Number::new(shown.alloc(), text) {
        Ok(Some(number)) => write_known(shown, &number),
        Ok(None) => shown.word("none"),
        Err(_) => shown.leave_out(),
    }
}

// Writes a number's literal as it prints, with its values as a signed and as an unsigned integer where it has them.
fn write_known(shown: &mut Shown, number: &Number) {
    shown.item("", number);
    if shown.whole() != Some(number.as_str()) {
        shown.word(" as another text");
    }
    write_copy(shown, number);
    if let Some(value) = number.as_i64() {
        shown.item(" signed ", &value);
    }
    if let Some(value) = number.as_u64() {
        shown.item(" unsigned ", &value);
    }
}

/// Writes how two numbers compare.
pub fn write_comparison(shown: &mut Shown, row: &str) {
    let (one, other) = pair(row, " and ");
    let alloc = shown.alloc();
    write_compared(shown, Number::new(alloc, one), Number::new(alloc, other));
}

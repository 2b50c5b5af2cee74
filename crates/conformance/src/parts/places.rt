//! Places: what a calculator returns for offsets that never fall.
use graphql_tokens::pos::PositionCalculator;
use rows::{Shown, number_in, pair};

/// Writes the places of the offsets that stand before a text, with ` in ` between them, and after each how many characters were gone
/// over for it; and without offsets how many are gone over.
pub fn write_places(shown: &mut Shown, row: &str) {
    let (offsets, text) = pair(row, " in ");
    let mut calculator = PositionCalculator::new(text);
    let mut last = 0usize;
    for word in offsets.split_whitespace() {
        let offset = number_in(word);
        if offset < last || !text.is_char_boundary(offset) {
            return shown.word("no offset to step to");
        }
        shown.place(" ", &calculator.step(offset));
        shown.item(" after ", &calculator.stepped());
        if !is_shown_at(shown, &calculator, text, offset) {
            shown.word(" (shown as another to developers)");
        }
        last = offset;
    }
    if offsets.is_empty() {
        shown.item("after ", &calculator.stepped());
    }
}

/// Writes what a calculator shows to a developer that has stepped to the offset before the text.
pub fn write_debugged(shown: &mut Shown, row: &str) {
    let (offset, text) = pair(row, " in ");
    let offset = number_in(offset);
    if !text.is_char_boundary(offset) {
        return shown.word("no offset to step to");
    }
    let mut calculator = PositionCalculator::new(text);
    let _place = calculator.step(offset);
    shown.debugged("", &calculator);
}

// Whether a calculator shows to a developer what it has to at an offset.
fn is_shown_at(
    shown: &Shown,
    calculator: &PositionCalculator<'_>,
    text: &str,
    offset: usize,
) -> bool {
    let mut found = Shown::new(shown.alloc(), true);
    found.debugged("", calculator);
    let mut wanted = Shown::new(shown.alloc(), true);
    write_at(&mut wanted, text, offset);
    found.whole() == wanted.whole()
}

// Writes what `Debug` has to show of a calculator at an offset: with the characters before it, and those before its columns begin.
fn write_at(shown: &mut Shown, text: &str, offset: usize) {
    let (front, _) = text.split_at_checked(offset).unwrap_or(("", text));
    let mut passed = 0usize;
    let mut line = 1usize;
    let mut before = 0usize;
    for c in front.chars() {
        passed = passed.saturating_add(1);
        if c == '\n' {
            line = line.saturating_add(1);
        }
        if c == '\n' || c == '\r' {
            before = passed;
        }
    }
    shown.word(
        "PositionCalculator { counted: CountedPlace { place: RunningPlace { walk: TextWalk {",
    );
    shown.debugged(" text: ", &text);
    shown.item(", offset: ", &offset);
    shown.item(", count: ", &passed);
    shown.item(" }, line: ", &line);
    shown.item(", before: ", &before);
    shown.word(" }, number: WalkNumber } }");
}

//! The spans that an editor is given of texts that are cut anywhere.
use crate::editor::cut;
use graphql_editor::{Fold, Occurrence, Span, Structure, Symbol, selection_at};
use rows::Shown;

/// Writes the words `in order`, or the texts of which a span is not: of the fronts and the backs of a text, and of the text without
/// one character.
pub fn write_cuts(shown: &mut Shown, text: &str) {
    for (at, c) in text.char_indices() {
        if let Some((front, back)) = text.split_at_checked(at)
            && let Some((_, rest)) = back.split_at_checked(c.len_utf8())
        {
            write_unordered(shown, front, at);
            write_unordered(shown, back, at);
            write_unordered_both(shown, front, rest, at);
        }
    }
    if shown.whole() == Some("") {
        shown.word("in order");
    }
}

// Writes the text, unless all of its spans begin and end where characters do, and are in order; with those of the ranges around an
// offset.
fn write_unordered(shown: &mut Shown, text: &str, offset: usize) {
    match Structure::new(shown.alloc(), text) {
        Ok(structure) => write_unless(shown, text, is_in_order(&structure, text)),
        Err(_) => shown.leave_out(),
    }
    match selection_at(shown.alloc(), text, offset) {
        Ok(selection) => write_unless(shown, text, are_of(text, &selection)),
        Err(_) => shown.leave_out(),
    }
}

// The same of the text that these two make.
fn write_unordered_both(shown: &mut Shown, front: &str, back: &str, offset: usize) {
    let mut text = Shown::new(shown.alloc(), true);
    text.word(front);
    text.word(back);
    match text.whole() {
        Some(text) => write_unordered(shown, text, offset),
        None => shown.leave_out(),
    }
}

fn write_unless(shown: &mut Shown, text: &str, holds: bool) {
    if !holds {
        shown.word(text);
        shown.word("\n");
    }
}

// Whether a span is of characters of the text, none of them before this one.
fn is_of(text: &str, first: usize, span: Span) -> bool {
    span.start >= first && cut(text, span).is_some()
}

fn are_of(text: &str, spans: &[Span]) -> bool {
    for span in spans {
        if !is_of(text, 0, *span) {
            return false;
        }
    }
    true
}

fn is_in_order(structure: &Structure, text: &str) -> bool {
    let definitions = structure.definitions();
    are_symbols_in_order(text, structure.symbols())
        && are_folds_of(text, structure.folds())
        && are_names_in_order(text, structure.names(), definitions.len())
        && are_in_order(text, definitions)
}

fn are_symbols_in_order(text: &str, symbols: &[Symbol]) -> bool {
    let mut last = 0;
    for symbol in symbols {
        let detail = symbol.detail.unwrap_or(symbol.name);
        if !is_of(text, last, symbol.whole) || !are_of(text, &[symbol.name, detail]) {
            return false;
        }
        last = symbol.whole.start;
    }
    true
}

fn are_folds_of(text: &str, folds: &[Fold]) -> bool {
    for fold in folds {
        if !is_of(text, 0, fold.span) {
            return false;
        }
    }
    true
}

// The same of names, of which each has one of so many definitions.
fn are_names_in_order(text: &str, names: &[Occurrence], definitions: usize) -> bool {
    let mut last = 0;
    for name in names {
        if name.definition >= definitions || !is_of(text, last, name.span) {
            return false;
        }
        last = name.span.end;
    }
    true
}

fn are_in_order(text: &str, spans: &[Span]) -> bool {
    let mut last = 0;
    for span in spans {
        if !is_of(text, last, *span) {
            return false;
        }
        last = span.end;
    }
    true
}

//! Positions as editors count them, the offsets of them, and texts of which a part is replaced.
use rows::{Shown, number_in, pair};
use std::alloc::{AllocError, Global};
use std::fmt::Debug;
use text_edits::{
    Document, Encoding, LineIndex, Pieces, Position, Range, apply, offset_of, position_of, replace,
};

/// Writes what is asked of a text, with the name of the encoding after it where that matters. Before the text stands, with ` in `
/// between them:
///
/// - `offset`: a position, as `0:3`
/// - `position`: an offset
/// - `applied`: the positions where the part begins and where it ends, and what is put there
/// - `replaced`: the offsets where the part begins and where it ends, and what is put there
pub fn write_answer(shown: &mut Shown, what: &str, row: &str) {
    let (asked, text) = pair(row, " in ");
    let (what, encoding) = pair(what, " ");
    let encoding = match encoding {
        "utf-8" => Encoding::Utf8,
        "utf-16" => Encoding::Utf16,
        "utf-32" => Encoding::Utf32,
        "replaced" => return write_replaced(shown, asked, text),
        _ => return shown.word("no such encoding"),
    };
    match what {
        "offset" | "position" => write_place(shown, asked, encoding, text),
        "applied" => write_applied(shown, asked, encoding, text),
        _ => shown.word("nothing to ask"),
    }
}

// The position that is written as its line and its column, with a colon between them.
fn position_in(word: &str) -> Position {
    let (line, character) = pair(word, ":");
    Position {
        line: number_in(line),
        character: number_in(character),
    }
}

/// A document of a text.
pub fn document_of(alloc: Global, text: &str) -> Result<Document, AllocError> {
    Document::new(alloc, String::from_str(alloc, text)?)
}

// Writes the offset of a position, which has a colon, or the position of an offset.
fn write_place(shown: &mut Shown, asked: &str, encoding: Encoding, text: &str) {
    let alloc = shown.alloc();
    let (Ok(index), Ok(document)) = (LineIndex::new(alloc, text), document_of(alloc, text)) else {
        return shown.leave_out();
    };
    if asked.contains(':') {
        let position = position_in(asked);
        let found = offset_of(text, encoding, position);
        let by_index = index.offset_of(text, encoding, position);
        shown.item("", &found);
        write_others(
            shown,
            found,
            by_index,
            document.offset_of(encoding, position),
        );
    } else {
        let offset = number_in(asked);
        let found = position_of(text, encoding, offset);
        let by_index = index.position_of(text, encoding, offset);
        shown.item("", &found.line);
        shown.item(":", &found.character);
        write_others(
            shown,
            found,
            by_index,
            document.position_of(encoding, offset),
        );
    }
}

// Writes what the index of a text and a document of it have, unless that is what the text has.
fn write_others<T: Copy + PartialEq + Debug>(
    shown: &mut Shown,
    found: T,
    by_index: T,
    of_document: T,
) {
    if by_index != found || of_document != found {
        shown.debugged(", by the index ", &by_index);
        shown.debugged(", of a document ", &of_document);
    }
}

// Writes the text with something else in a range, and what a document of it, and it in pieces, become, if that is another text or has other
// positions.
fn write_applied(shown: &mut Shown, asked: &str, encoding: Encoding, text: &str) {
    let (start, asked) = pair(asked, " ");
    let (end, new) = pair(asked, " ");
    let range = Range {
        start: position_in(start),
        end: position_in(end),
    };
    let alloc = shown.alloc();
    let (Ok(mut document), Ok(found), Ok(of_pieces)) = (
        document_of(alloc, text),
        apply(alloc, text, encoding, range, new),
        changed_in_pieces(alloc, encoding, range, new, text),
    ) else {
        return shown.leave_out();
    };
    if document.apply(alloc, encoding, range, new).is_err() {
        shown.leave_out();
    }
    shown.item("'", &found);
    if found.as_str() != document.text() {
        shown.item("', of a document '", &document.text());
    }
    if found.as_str() != of_pieces.text() {
        shown.item("', of pieces '", &of_pieces.text());
    }
    shown.word("'");
    for offset in 0..=found.len() {
        let place = position_of(&found, encoding, offset);
        write_others(shown, place, place, document.position_of(encoding, offset));
    }
}

// The text with something else in a range, changed in pieces.
fn changed_in_pieces(
    alloc: Global,
    encoding: Encoding,
    range: Range,
    new: &str,
    text: &str,
) -> Result<Document, AllocError> {
    let mut pieces = Pieces::new(alloc, text)?;
    pieces.apply(alloc, encoding, range, new)?;
    pieces.into_document(alloc)
}

fn write_replaced(shown: &mut Shown, asked: &str, text: &str) {
    let (start, asked) = pair(asked, " ");
    let (end, new) = pair(asked, " ");
    let replaced = replace(shown.alloc(), text, number_in(start), number_in(end), new);
    shown.made("'", replaced);
    shown.word("'");
}

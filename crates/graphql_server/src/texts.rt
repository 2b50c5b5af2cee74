//! The texts that are open, and how changes change them (Language Server Protocol 3.17, "Text Document Synchronization").

ghost use Rattle.std.specs.Prelude.{◌≡◌, ◌<◌, IfSome, IsTrue, OnOk, length};
ghost use Rattle.text_edits.specs.Positions.{IsPosition};
ghost use Rattle.graphql_server.specs.Changes.{AreChanged, IsChanged};
ghost use Rattle.graphql_server.specs.Ranges.{IsRange};

use crate::params::Opened;
use graphql_texts::Language;
use std::alloc::{AllocError, Global};
use text_edits::{Document, Encoding, Pieces, Position, Range};

/// A text that a client has open.
#[derive(Drop)]
pub struct OpenText {
    /// Its URI.
    pub uri: String,
    /// The language that its `languageId` says, if it says one.
    pub said: Option<Language>,
    /// Its version, if the client counts versions.
    pub version: Option<i64>,
    /// The text.
    pub document: Document,
    /// It was changed, and what is wrong with it isn't published yet.
    pub is_changed: bool,
}

impl OpenText {
    /// A text that is opened.
    ///
    /// It fails only if memory runs out.
    pub fn new(alloc: Global, opened: &Opened<'_>) -> Result<OpenText, AllocError> {
        let Opened {
            uri,
            said,
            version,
            text,
        } = *opened;
        let document = Document::new(alloc, String::from_str(alloc, text)?)?;
        Ok(OpenText {
            uri: String::from_str(alloc, uri)?,
            said,
            version,
            document,
            is_changed: false,
        })
    }
}

/// Where the text of this URI is among those that are open; None if it isn't open.
pub fn index_of(texts: &[OpenText], uri: &str) -> Option<usize>
    ensures { IfSome result (λ index. index < length texts.now) }
{
    for (index, text) in texts.iter().enumerate() {
        if text.uri.as_str() == uri {
            return Some(index);
        }
    }
    None
}

/// The language that a `languageId` says (this project's choice). `graphql`, which is what editors have, says nothing.
pub fn said_by(language_id: &str) -> Option<Language> {
    match language_id {
        "graphqls" | "gqls" | "graphql-schema" => Some(Language::Schemas),
        "graphql-request" | "graphql-query" | "graphql-operation" => Some(Language::Requests),
        _ => None,
    }
}

/// What is put in the place of a range of a text, or of the whole text ("TextDocumentContentChangeEvent").
#[derive(Clone, Copy)]
pub struct Change<'a> {
    /// What is replaced, in units of the session's encoding; None for the whole text.
    pub range: Option<Range>,
    /// What is put there.
    pub text: &'a str,
}

/// Changes a text by one change after another, each of which speaks of the text as the one before it left it ("DidChangeTextDocument
/// Notification"). A position that isn't one of the text is taken as `text_edits` says; the answer is how many changes have one
/// beyond the last line, or inside of a character.
///
/// It fails only if memory runs out, and then only some of the changes may be made.
pub fn change_all(
    alloc: Global,
    encoding: Encoding,
    document: &mut Document,
    changes: Vec<Change<'_>>,
) -> Result<usize, AllocError>
    ensures { OnOk result (AreChanged encoding document.old changes.entry.items document.new) }
{
    if changes.len() > 1 {
        return change_many(alloc, encoding, document, changes);
    }
    let mut clipped = 0usize;
    for change in changes {
        if let Some(range) = change.range
            && !are_known(document, encoding, range)
        {
            clipped = clipped.saturating_add(1);
        }
        change_by(alloc, encoding, document, change)?;
    }
    Ok(clipped)
}

// The same in pieces of the text, so that each change goes over its piece alone.
fn change_many(
    alloc: Global,
    encoding: Encoding,
    document: &mut Document,
    changes: Vec<Change<'_>>,
) -> Result<usize, AllocError>
    ensures { OnOk result (AreChanged encoding document.old changes.entry.items document.new) }
{
    let mut pieces = Pieces::new(alloc, document.text())?;
    let mut clipped = 0usize;
    for change in changes {
        if let Some(Range { start, end }) = change.range
            && !(is_known_in(&pieces, encoding, start)
                && (end == start || is_known_in(&pieces, encoding, end)))
        {
            clipped = clipped.saturating_add(1);
        }
        change_piece(alloc, encoding, &mut pieces, change)?;
    }
    *document = pieces.into_document(alloc)?;
    Ok(clipped)
}

// Changes a text in pieces by one change.
fn change_piece(
    alloc: Global,
    encoding: Encoding,
    pieces: &mut Pieces,
    change: Change<'_>,
) -> Result<(), AllocError>
    ensures { OnOk result (IsChanged encoding pieces.old change.entry pieces.new) }
{
    let Change { range, text } = change;
    match range {
        Some(range) => pieces.apply(alloc, encoding, range, text),
        None => {
            *pieces = Pieces::new(alloc, text)?;
            Ok(())
        }
    }
}

// Changes a text by one change.
fn change_by(
    alloc: Global,
    encoding: Encoding,
    document: &mut Document,
    change: Change<'_>,
) -> Result<(), AllocError>
    ensures { OnOk result (IsChanged encoding document.old change.entry document.new) }
{
    let Change { range, text } = change;
    match range {
        Some(range) => document.apply(alloc, encoding, range, text),
        None => {
            *document = Document::new(alloc, String::from_str(alloc, text)?)?;
            Ok(())
        }
    }
}

/// Whether a position is one of the text, or is beyond the end of a line, which is what it means then (Language Server Protocol 3.17,
/// "Position").
pub fn is_known(document: &Document, encoding: Encoding, position: Position) -> bool
    ensures { IsPosition encoding document.now position → IsTrue result }
{
    let offset = document.offset_of(encoding, position);
    let found = document.position_of(encoding, offset);
    found == position || (found.line == position.line && is_line_end(document.text(), offset))
}

// Whether a line of the text, or the text, ends at this offset.
fn is_line_end(text: &str, offset: usize) -> bool {
    matches!(text.as_bytes().get(offset), None | Some(b'\n' | b'\r'))
}

// The same of a text in pieces: that of the position in its piece.
fn is_known_in(pieces: &Pieces, encoding: Encoding, position: Position) -> bool {
    let (piece, passed) = pieces.around(position.line);
    is_known(
        piece,
        encoding,
        Position {
            line: position.line.saturating_sub(passed),
            ..position
        },
    )
}

/// The same of both ends of a range.
pub fn are_known(document: &Document, encoding: Encoding, range: Range) -> bool
    ensures { IsRange encoding document.now range → IsTrue result }
{
    is_known(document, encoding, range.start) && is_known(document, encoding, range.end)
}

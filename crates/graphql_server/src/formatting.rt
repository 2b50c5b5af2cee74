//! Texts laid out, as edits of the lines that change (Language Server Protocol 3.17, "Document Formatting Request", "Document
//! Range Formatting Request").

use crate::differences::edits_between;
use crate::line_ends::{line_end_of, with_line_end};
use crate::messages::write_edit;
use crate::outline::slice_of;
use crate::places::Places;
use crate::results::Asked;
use crate::writer::JsonWriter;
use graphql_editor::{Span, Structure};
use graphql_parser::{Limits, Memory};
use graphql_texts::Language;
use graphql_texts::check::error_of;
use graphql_texts::errors::Source;
use graphql_texts::rewriting::laid_out;
use std::alloc::{AllocError, Global};
use text_edits::Range;

/// Writes what changes a text into what `gql format` makes of it: an edit for each run of lines that change. Null if the text has an
/// error.
///
/// It fails only if memory runs out.
pub fn write_layout(
    asked: Asked<'_>,
    places: &mut Places<'_>,
    json: &mut JsonWriter,
) -> Result<(), AllocError> {
    let text = asked.text();
    match formatted(asked.alloc, asked.language()?, text)? {
        None => {
            json.null();
            Ok(())
        }
        Some(new) => {
            json.begin_list();
            write_edits(asked.alloc, places, 0, text, new.as_str(), json)?;
            json.end_list();
            Ok(())
        }
    }
}

/// Writes the same of each definition that touches the range, which is laid out as if it stood alone, with the line ends of the text;
/// one that has an error stays as it is.
///
/// It fails only if memory runs out.
pub fn write_layout_of(
    asked: Asked<'_>,
    structure: &Structure,
    places: &mut Places<'_>,
    range: Range,
    json: &mut JsonWriter,
) -> Result<(), AllocError> {
    let language = asked.language()?;
    let start = asked.offset_of(range.start);
    let end = asked.offset_of(range.end);
    json.begin_list();
    for definition in structure.definitions() {
        if definition.start <= end && definition.end >= start {
            write_definition(asked, language, places, *definition, json)?;
        }
    }
    json.end_list();
    Ok(())
}

// Writes the edits that lay out a definition.
fn write_definition(
    asked: Asked<'_>,
    language: Language,
    places: &mut Places<'_>,
    definition: Span,
    json: &mut JsonWriter,
) -> Result<(), AllocError> {
    let old = slice_of(asked.text(), definition);
    let Some(new) = formatted(asked.alloc, language, old)? else {
        return Ok(());
    };
    let line_end = line_end_of(asked.text());
    let new = with_line_end(asked.alloc, new.as_str(), line_end)?;
    write_edits(
        asked.alloc,
        places,
        definition.start,
        old,
        without_end(new.as_str(), line_end),
        json,
    )
}

// A text without the end of its last line.
fn without_end<'a>(text: &'a str, line_end: &str) -> &'a str {
    text.strip_suffix(line_end).unwrap_or(text)
}

// The text laid out, if it is good.
fn formatted(alloc: Global, language: Language, text: &str) -> Result<Option<String>, AllocError> {
    let source = Source {
        name: "",
        language,
        limits: Limits::default(),
        text,
    };
    match error_of(&mut Memory::new(alloc), &source, true)? {
        None => Ok(Some(laid_out(alloc, &source)?)),
        Some(_) => Ok(None),
    }
}

// Writes the edits that change `old`, which stands at that offset of the text, into `new`.
fn write_edits(
    alloc: Global,
    places: &mut Places<'_>,
    offset: usize,
    old: &str,
    new: &str,
    json: &mut JsonWriter,
) -> Result<(), AllocError> {
    for edit in edits_between(alloc, old, new)? {
        let start = offset.saturating_add(edit.start);
        let end = offset.saturating_add(edit.end);
        let put = Span {
            start: edit.new_start,
            end: edit.new_end,
        };
        write_edit(places.range_of(start, end), slice_of(new, put), json);
    }
    Ok(())
}

//! Where names are defined and used, and what they name (Language Server Protocol 3.17, "Goto Definition Request", "Find References
//! Request", "Hover Request").

use crate::messages::{Location, write_location};
use crate::places::Places;
use crate::results::Asked;
use crate::writer::JsonWriter;
use graphql_editor::{Role, Span, Structure};
use std::alloc::AllocError;
use text_edits::Position;

/// Writes where the name at a position is defined, if the text defines it.
pub fn write_definition(
    asked: Asked<'_>,
    structure: &Structure,
    places: &mut Places<'_>,
    position: Position,
    json: &mut JsonWriter,
) {
    json.begin_list();
    if let Some(name) = structure.name_at(asked.offset_of(position))
        && let Some(span) = structure.definition_of(asked.text(), name)
    {
        write_span(asked, places, span, json);
    }
    json.end_list();
}

/// Writes where the text has the name at a position, with its definitions or without.
///
/// It fails only if memory runs out.
pub fn write_references(
    asked: Asked<'_>,
    structure: &Structure,
    places: &mut Places<'_>,
    position: Position,
    takes_definitions: bool,
    json: &mut JsonWriter,
) -> Result<(), AllocError> {
    json.begin_list();
    if let Some(name) = structure.name_at(asked.offset_of(position)) {
        for occurrence in structure.occurrences_of(asked.alloc, asked.text(), name)? {
            if takes_definitions || occurrence.role != Role::Definition {
                write_span(asked, places, occurrence.span, json);
            }
        }
    }
    json.end_list();
    Ok(())
}

/// Writes where a part of the text is ("Location").
pub fn write_span(asked: Asked<'_>, places: &mut Places<'_>, span: Span, json: &mut JsonWriter) {
    let range = places.range_of(span.start, span.end);
    write_location(
        Location {
            uri: asked.uri,
            range,
        },
        json,
    );
}

/// Writes what the name at a position names, its first lines and its description; null if there is no name.
///
/// It fails only if memory runs out.
pub fn write_hover(
    asked: Asked<'_>,
    structure: &Structure,
    places: &mut Places<'_>,
    position: Position,
    json: &mut JsonWriter,
) -> Result<(), AllocError> {
    match structure.hover_at(asked.alloc, asked.text(), asked.offset_of(position))? {
        None => json.null(),
        Some(hover) => {
            json.begin_object();
            write_contents(asked, hover.markdown.as_str(), json);
            let range = places.range_of(hover.span.start, hover.span.end);
            json.range_member("range", range);
            json.end_object();
        }
    }
    Ok(())
}

// Writes a text for people ("MarkupContent").
fn write_contents(asked: Asked<'_>, markdown: &str, json: &mut JsonWriter) {
    json.object_member("contents");
    if asked.client.likes_markdown {
        json.text_member("kind", "markdown");
        json.text_member("value", markdown);
    } else {
        json.text_member("kind", "plaintext");
        write_plain(markdown, json);
    }
    json.end_object();
}

// Writes a text in Markdown that begins with a block of code, without the lines before and after the code, each of which begins with as
// many backticks. No line of the code has so many.
fn write_plain(markdown: &str, json: &mut JsonWriter) {
    let (first, rest) = markdown.split_once('\n').unwrap_or(("", markdown));
    let fence = first.strip_suffix("graphql").unwrap_or(first);
    let (code, rest) = rest.split_once(fence).unwrap_or((rest, ""));
    json.words(code.trim_end_matches('\n'));
    json.words(rest);
    json.said_member("value");
}

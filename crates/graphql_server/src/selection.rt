//! What a selection grows to (Language Server Protocol 3.17, "Selection Range Request").

use crate::places::Places;
use crate::results::Asked;
use crate::writer::JsonWriter;
use graphql_editor::selection_at;
use std::alloc::AllocError;

// A request may make the server go over this many bytes.
const MOST_BYTES: usize = 128 * 1024 * 1024;

/// Whether there are too many positions to be answered in good time, since the text is read anew for each: so many that more than 128
/// MiB would be read, and more than one (this project's choice).
pub fn are_too_many(positions: usize, text: &str) -> bool {
    positions > 1 && text.len() > MOST_BYTES / positions
}

/// Writes the ranges around an offset of the text: that of a token, in it that of the node around it, and so on up to the whole text.
///
/// It fails only if memory runs out.
pub fn write_selection(
    asked: Asked<'_>,
    places: &mut Places<'_>,
    offset: usize,
    json: &mut JsonWriter,
) -> Result<(), AllocError> {
    let spans = selection_at(asked.alloc, asked.text(), offset)?;
    for (index, span) in spans.iter().enumerate() {
        if index > 0 {
            json.name("parent");
        }
        json.begin_object();
        json.range_member("range", places.range_of(span.start, span.end));
    }
    for _ in 0..spans.len() {
        json.end_object();
    }
    Ok(())
}

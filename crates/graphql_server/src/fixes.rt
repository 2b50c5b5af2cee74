//! What mends a text (Language Server Protocol 3.17, "Code Action Request").

use crate::diagnostics::{diagnostic_of, found_in, other_place, range_of};
use crate::line_ends::{line_end_of, with_line_end};
use crate::messages::{write_diagnostic, write_edit};
use crate::results::Asked;
use crate::writer::JsonWriter;
use graphql_parser::Limits;
use graphql_texts::{Diagnosis, Fix, Missing, Other};
use std::alloc::AllocError;
use text_edits::Range;

/// The kind of all actions ("CodeActionKind").
pub const QUICK_FIX: &str = "quickfix";

/// Writes the quick fixes of the diagnostics that touch this range of the text, and of those of brackets that aren't closed, if it
/// touches the line of such a bracket.
///
/// It fails only if memory runs out.
pub fn write_fixes(
    asked: Asked<'_>,
    range: Range,
    json: &mut JsonWriter,
) -> Result<(), AllocError> {
    let language = asked.language()?;
    json.begin_list();
    for diagnosis in found_in(asked.alloc, language, asked.document)? {
        let missing = diagnosis.missing(asked.alloc, language, asked.text(), Limits::default())?;
        let other = other_place(asked.text(), &diagnosis, missing.as_ref());
        if touches(asked, range, &diagnosis, other) {
            write_action(asked, diagnosis, missing.as_ref(), other, json)?;
        }
    }
    json.end_list();
    Ok(())
}

// Whether a range touches a diagnosis, or the line of its other place.
fn touches(asked: Asked<'_>, range: Range, diagnosis: &Diagnosis, other: Option<Other>) -> bool {
    let touches_span = diagnosis.span.start <= asked.offset_of(range.end)
        && diagnosis.span.end >= asked.offset_of(range.start);
    touches_span
        || match other {
            Some(other) => {
                let span = other.span;
                let encoding = asked.client.encoding;
                let place = range_of(encoding, asked.document, span.start, span.end);
                range.start.line <= place.end.line && range.end.line >= place.start.line
            }
            None => false,
        }
}

// Writes a "CodeAction" if there is a fix for this. Its "WorkspaceEdit" is of one text.
fn write_action(
    asked: Asked<'_>,
    diagnosis: Diagnosis,
    missing: Option<&Missing>,
    other: Option<Other>,
    json: &mut JsonWriter,
) -> Result<(), AllocError> {
    let Some(fix) = diagnosis.fix(asked.alloc, asked.text(), missing)? else {
        return Ok(());
    };
    let document = asked.document;
    let encoding = asked.client.encoding;
    let diagnostic = diagnostic_of(asked.uri, encoding, document, diagnosis, other);
    json.begin_object();
    json.text_member("title", fix.title.as_str());
    json.text_member("kind", QUICK_FIX);
    json.list_member("diagnostics");
    write_diagnostic(&diagnostic, asked.client, json);
    json.end_list();
    json.boolean_member("isPreferred", true);
    write_fix(asked, &fix, json)?;
    json.end_object();
    Ok(())
}

// Writes what a fix changes.
fn write_fix(asked: Asked<'_>, fix: &Fix, json: &mut JsonWriter) -> Result<(), AllocError> {
    let range = range_of(
        asked.client.encoding,
        asked.document,
        fix.span.start,
        fix.span.end,
    );
    let new = with_line_end(asked.alloc, fix.new.as_str(), line_end_of(asked.text()))?;
    json.object_member("edit");
    json.object_member("changes");
    json.named_list(asked.uri);
    write_edit(range, new.as_str(), json);
    json.end_list();
    json.end_object();
    json.end_object();
    Ok(())
}

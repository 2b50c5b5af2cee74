//! Fronts of documents, and reports that no program makes.
use graphql_parser::{Error, Limits, parse_query_limited, parse_schema_limited};
use graphql_report::{Language, explain, is_front};
use rows::{Shown, limits_of, pair};
use std::alloc::{AllocError, Global};

/// Whether some document continues a text, in a language and within limits.
pub fn front(shown: &mut Shown, reading: &str, text: &str) {
    let Some((language, limits)) = read_as(reading) else {
        return shown.word("no such reading");
    };
    match is_viable(shown.alloc(), language, text, limits) {
        Ok(true) => shown.word("a front"),
        Ok(false) => shown.word("none"),
        Err(_) => shown.leave_out(),
    }
}

fn is_viable(
    alloc: Global,
    language: Language,
    text: &str,
    limits: Limits,
) -> Result<bool, AllocError> {
    let mut line = String::from_str(alloc, text)?;
    line.push('\n')?;
    is_front(alloc, language, line.as_str(), limits)
}

/// The report as it is, between `'`: of a text that is read so, or else that there was no memory for it. The file's name
/// stands before the text, with ` in ` between them.
pub fn exact(shown: &mut Shown, reading: &str, row: &str) {
    let (file, text) = pair(row, " in ");
    let alloc = shown.alloc();
    if reading == "no memory" {
        write_exact(shown, Language::Schemas, file, text, &Error::OutOfMemory);
    } else if let Some((language, limits)) = read_as(reading)
        && let Some(error) = refused(alloc, language, text, limits)
    {
        write_exact(shown, language, file, text, &error);
    } else {
        shown.word("accepted");
    }
}

fn write_exact(shown: &mut Shown, language: Language, file: &str, text: &str, error: &Error) {
    let alloc = shown.alloc();
    let report = explain(alloc, language, file, text, Limits::default(), error);
    shown.made("'", report);
    shown.word("'");
}

// The language and the limits at which a text is read, as `query 64 64 64`.
fn read_as(reading: &str) -> Option<(Language, Limits)> {
    let (language, limits) = pair(reading, " ");
    let language = match language {
        "query" => Language::Requests,
        "schema" => Language::Schemas,
        _ => return None,
    };
    Some((language, limits_of(limits)?))
}

// The error of a text, if it is rejected.
fn refused(alloc: Global, language: Language, text: &str, limits: Limits) -> Option<Error> {
    match language {
        Language::Requests => parse_query_limited(alloc, text, limits).err(),
        Language::Schemas => parse_schema_limited(alloc, text, limits).err(),
    }
}

//! What is wrong with a text, as diagnostics (Language Server Protocol 3.17, "Diagnostic").

ghost use Rattle.std.specs.Prelude.{◌≡◌, [], true, All, IfOk};
ghost use Rattle.graphql_texts.specs.checked.Diagnosed.{IsDiagnosisOf};
ghost use Rattle.graphql_texts.specs.checked.Good.{IsGoodText};
ghost use Rattle.graphql_parser.specs.notation.Limits.{default_limits};
ghost use Rattle.text_edits.specs.Positions.{position_of};
ghost use Rattle.graphql_server.specs.Ranges.{IsRange, IsDiagnosticOf, Shows, AllShown};

use crate::messages::{Diagnostic, Location, Related};
use graphql_parser::Limits;
use graphql_texts::{Diagnosis, Language, Missing, Other, diagnoses_of};
use std::alloc::{AllocError, Global};
use text_edits::{Document, Encoding, Range};

/// The range of a text between two offsets in bytes, with columns in units of the encoding.
pub fn range_of(encoding: Encoding, document: &Document, start: usize, end: usize) -> Range
    ensures starts { result.start ≡ position_of encoding document.now start }
    ensures ends { result.end ≡ position_of encoding document.now end }
    ensures is { IsRange encoding document.now result }
{
    Range {
        start: document.position_of(encoding, start),
        end: document.position_of(encoding, end),
    }
}

/// All that is wrong with a text that is read as this language.
///
/// It fails only if memory runs out.
pub fn found_in(
    alloc: Global,
    language: Language,
    document: &Document,
) -> Result<Vec<Diagnosis>, AllocError>
    ensures { IfOk result (λ found. found.items ≡ [] → IsGoodText true language default_limits document.now) }
{
    diagnoses_of(alloc, language, document.text(), Limits::default())
}

/// The diagnostics of a text that is read as this language, each with the range of what is rejected, and, for a name that is defined
/// twice, with the place of the other definition, or, for a bracket that isn't closed, with that of the bracket, if such places are
/// wanted. They are made from this text alone, and there is none only if the text is good.
///
/// It fails only if memory runs out.
pub fn diagnostics_of<'a>(
    alloc: Global,
    uri: &'a str,
    language: Language,
    encoding: Encoding,
    document: &Document,
    takes_related: bool,
) -> Result<Vec<Diagnostic<'a>>, AllocError>
    ensures good { IfOk result (λ told. told.items ≡ [] → IsGoodText true language default_limits document.now) }
    ensures ranges { IfOk result (λ told. All (IsDiagnosticOf encoding document.now) told.items) }
{
    let found = found_in(alloc, language, document)?;
    let diagnostics = shown(
        alloc,
        uri,
        language,
        encoding,
        document,
        found,
        takes_related,
    )?;
    Ok(diagnostics)
}

/// The diagnostics that show what was found in this text: one for each diagnosis, in their order.
///
/// It fails only if memory runs out.
pub fn shown<'a>(
    alloc: Global,
    uri: &'a str,
    language: Language,
    encoding: Encoding,
    document: &Document,
    found: Vec<Diagnosis>,
    takes_related: bool,
) -> Result<Vec<Diagnostic<'a>>, AllocError>
    ensures shown { IfOk result (λ told. AllShown encoding document.now found.items told.items) }
    ensures ranges { IfOk result (λ told. All (IsDiagnosticOf encoding document.now) told.items) }
{
    let mut diagnostics = Vec::new(alloc);
    for diagnosis in found {
        let other = other_of(alloc, language, document.text(), &diagnosis, takes_related)?;
        diagnostics.push(diagnostic_of(uri, encoding, document, diagnosis, other))?;
    }
    Ok(diagnostics)
}

// The other place of a diagnosis of this text, if it is wanted.
fn other_of(
    alloc: Global,
    language: Language,
    text: &str,
    diagnosis: &Diagnosis,
    is_wanted: bool,
) -> Result<Option<Other>, AllocError> {
    if !is_wanted {
        return Ok(None);
    }
    let missing = diagnosis.missing(alloc, language, text, Limits::default())?;
    Ok(other_place(text, diagnosis, missing.as_ref()))
}

/// The other place of a diagnosis of this text: that of the other definition, or of the bracket that isn't closed.
pub fn other_place(text: &str, diagnosis: &Diagnosis, missing: Option<&Missing>) -> Option<Other> {
    match (diagnosis.other, missing) {
        (None, Some(missing)) => Some(missing.opening(text)),
        (other, _) => other,
    }
}

/// A diagnosis with its other place as a diagnostic of the text.
pub fn diagnostic_of<'a>(
    uri: &'a str,
    encoding: Encoding,
    document: &Document,
    diagnosis: Diagnosis,
    other: Option<Other>,
) -> Diagnostic<'a>
    ensures ranges { IsDiagnosticOf encoding document.now result }
    ensures shows { Shows encoding document.now diagnosis result }
{
    let Diagnosis {
        span,
        status,
        message,
        ..
    } = diagnosis;
    let related = match other {
        None => None,
        Some(other) => Some(Related {
            location: Location {
                uri,
                range: range_of(encoding, document, other.span.start, other.span.end),
            },
            message: other.message,
        }),
    };
    Diagnostic {
        range: range_of(encoding, document, span.start, span.end),
        code: status,
        message,
        related,
    }
}

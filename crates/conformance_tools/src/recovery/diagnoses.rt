//! What is wrong with a text, as data for an editor, and texts that are mended by it.
use graphql_parser::Limits;
use graphql_report::Language;
use graphql_texts::{Diagnosis, Fix, Missing, Other, Span, diagnoses_of};
use rows::Shown;

/// What is wrong with a text: of each thing where it is, as byte offsets with what stands there, its status, and the other place
/// with what is said of it; what mends it stands behind, and there are commas between them. A text without any is `good`.
pub fn told(shown: &mut Shown, language: Language, text: &str) {
    match diagnoses_of(shown.alloc(), language, text, Limits::default()) {
        Ok(found) => {
            if found.is_empty() {
                shown.word("good");
            }
            for (index, diagnosis) in found.iter().enumerate() {
                shown.word(if index > 0 { ", " } else { "" });
                write_diagnosis(shown, language, text, diagnosis);
            }
        }
        Err(_) => shown.leave_out(),
    }
}

/// What the first fix makes of a text, with its title before it, and how many things were wrong before and are then.
pub fn mended(shown: &mut Shown, language: Language, text: &str) {
    match diagnoses_of(shown.alloc(), language, text, Limits::default()) {
        Ok(found) => match first_fix(shown, language, text, &found) {
            Some(fix) => {
                shown.item("", &found.len());
                write_mended(shown, language, text, &fix);
            }
            None => shown.word("no fix"),
        },
        Err(_) => shown.leave_out(),
    }
}

fn first_fix(
    shown: &mut Shown,
    language: Language,
    text: &str,
    found: &Vec<Diagnosis>,
) -> Option<Fix> {
    for diagnosis in found {
        let missing = missing_of(shown, language, text, diagnosis);
        let fix = fix_of(shown, text, diagnosis, missing.as_ref());
        if fix.is_some() {
            return fix;
        }
    }
    None
}

fn missing_of(
    shown: &mut Shown,
    language: Language,
    text: &str,
    diagnosis: &Diagnosis,
) -> Option<Missing> {
    match diagnosis.missing(shown.alloc(), language, text, Limits::default()) {
        Ok(missing) => missing,
        Err(_) => {
            shown.leave_out();
            None
        }
    }
}

fn fix_of(
    shown: &mut Shown,
    text: &str,
    diagnosis: &Diagnosis,
    missing: Option<&Missing>,
) -> Option<Fix> {
    match diagnosis.fix(shown.alloc(), text, missing) {
        Ok(fix) => fix,
        Err(_) => {
            shown.leave_out();
            None
        }
    }
}

// The other definition, or the bracket that isn't closed.
fn other_of(text: &str, diagnosis: &Diagnosis, missing: Option<&Missing>) -> Option<Other> {
    match (diagnosis.other, missing) {
        (Some(other), _) => Some(other),
        (None, Some(missing)) => Some(missing.opening(text)),
        (None, None) => None,
    }
}

// Writes how many things are wrong with the text that a fix makes, the fix's title, and the text.
fn write_mended(shown: &mut Shown, language: Language, text: &str, fix: &Fix) {
    let mut new = Shown::new(shown.alloc(), true);
    new.word(text.get(..fix.span.start).unwrap_or("outside"));
    new.word(fix.new.as_str());
    new.word(text.get(fix.span.end..).unwrap_or("outside"));
    let new = new.whole().unwrap_or("out of memory");
    write_count(shown, language, new);
    shown.item(" ", &fix.title);
    shown.item(": ", &new);
}

fn write_count(shown: &mut Shown, language: Language, text: &str) {
    match diagnoses_of(shown.alloc(), language, text, Limits::default()) {
        Ok(left) => shown.item(" ", &left.len()),
        Err(_) => shown.leave_out(),
    }
}

fn write_diagnosis(shown: &mut Shown, language: Language, text: &str, diagnosis: &Diagnosis) {
    write_span(shown, text, diagnosis.span);
    shown.word(diagnosis.status);
    let missing = missing_of(shown, language, text, diagnosis);
    if let Some(other) = other_of(text, diagnosis, missing.as_ref()) {
        write_other(shown, text, other);
    }
    if let Some(fix) = fix_of(shown, text, diagnosis, missing.as_ref()) {
        write_fix(shown, &fix);
    }
}

fn write_other(shown: &mut Shown, text: &str, other: Other) {
    shown.word(" (");
    write_span(shown, text, other.span);
    shown.word(other.message);
    shown.word(")");
}

fn write_fix(shown: &mut Shown, fix: &Fix) {
    shown.item(" [", &fix.title);
    shown.item(": ", &fix.span.start);
    shown.item("-", &fix.span.end);
    shown.item(" \"", &fix.new);
    shown.word("\"]");
}

// Writes between which offsets something stands, and what that is.
fn write_span(shown: &mut Shown, text: &str, span: Span) {
    shown.item("", &span.start);
    shown.item("-", &span.end);
    shown.word(" \"");
    shown.word(text.get(span.start..span.end).unwrap_or("outside"));
    shown.word("\" ");
}

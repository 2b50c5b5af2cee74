//! What is wrong with texts in which reading continues after a mistake.
mod diagnoses;
mod lines;
mod strings;

use graphql_report::Language;
use rows::Shown;

/// What is found in a text.
///
/// - `unclosed string`, `unclosed string from`, `opening`: which block string isn't closed
/// - `later line`: the line that a text is read from
/// - `diagnoses`, `mended`: what is wrong with a text as data, and what the first fix makes of it
pub fn answer(shown: &mut Shown, part: &str, text: &str) {
    match part {
        "diagnoses query" => diagnoses::told(shown, Language::Requests, text),
        "diagnoses schema" => diagnoses::told(shown, Language::Schemas, text),
        "mended query" => diagnoses::mended(shown, Language::Requests, text),
        "mended schema" => diagnoses::mended(shown, Language::Schemas, text),
        _ => answer_string(shown, part, text),
    }
}

fn answer_string(shown: &mut Shown, part: &str, text: &str) {
    match part {
        "unclosed string" => strings::unclosed(shown, text),
        "unclosed string from" => strings::unclosed_from(shown, text),
        "opening" => strings::opening(shown, text),
        "later line" => lines::later_line(shown, text),
        _ => shown.word("no such part of a text"),
    }
}

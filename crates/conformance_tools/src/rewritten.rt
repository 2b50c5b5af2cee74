//! Texts rewritten: without what is ignored in them and isn't needed, and laid out.
use graphql_parser::{Limits, Result as Answer};
use graphql_printer::{format_query, format_schema, minify_query, minify_schema};
use rows::{Parser, Shown, limits_of, pair, write_error};
use std::alloc::Global;

/// What is done to a text.
#[derive(Clone, Copy)]
pub enum Rewriting {
    Minified,
    Formatted,
}

/// What a text becomes, or its error. What is asked is the language, and then:
///
/// - `whole`: at the default limits
/// - `limited`: within limits. They stand before the text, with ` in ` between them.
pub fn answer(shown: &mut Shown, rewriting: Rewriting, asked: &str, text: &str) {
    let (limits, text) = match asked {
        "query whole" | "schema whole" => (Some(Limits::default()), text),
        "query limited" | "schema limited" => {
            let (limits, text) = pair(text, " in ");
            (limits_of(limits), text)
        }
        _ => (None, text),
    };
    let language = if asked.starts_with("query") {
        Parser::Query
    } else {
        Parser::Schema
    };
    match limits {
        Some(limits) => write_anew(shown, rewriting, language, text, limits),
        None => shown.word("nothing to write anew"),
    }
}

// Writes what a text becomes, and whether it's rewritten again as something else.
fn write_anew(
    shown: &mut Shown,
    rewriting: Rewriting,
    language: Parser,
    text: &str,
    limits: Limits,
) {
    let alloc = shown.alloc();
    match rewritten(alloc, rewriting, language, text, limits) {
        Ok(written) => {
            let again = rewritten(alloc, rewriting, language, written.as_str(), limits);
            shown.item("", &written);
            if !is_text(&again, written.as_str()) {
                shown.word(", but written anew again it differs");
            }
        }
        Err(error) => write_error(shown, &error),
    }
}

fn is_text(written: &Answer<String>, text: &str) -> bool {
    match written {
        Ok(written) => written.as_str() == text,
        Err(_) => false,
    }
}

/// What a text of a language becomes, or its error.
pub fn rewritten(
    alloc: Global,
    rewriting: Rewriting,
    language: Parser,
    text: &str,
    limits: Limits,
) -> Answer<String> {
    match (rewriting, language) {
        (Rewriting::Minified, Parser::Query) => minify_query(alloc, text, limits),
        (Rewriting::Minified, Parser::Schema) => minify_schema(alloc, text, limits),
        (Rewriting::Formatted, Parser::Query) => format_query(alloc, text, limits),
        (Rewriting::Formatted, Parser::Schema) => format_schema(alloc, text, limits),
    }
}

//! The JSON of errors, and of a tree that a program built. That of trees is judged by `gql tree`, in `tests/tables.py`.
//!
//! In the tables a blank stands after each comma and each colon of the JSON, and nowhere else. Then `@1:2` stands for
//! `"line": 1, "column": 2`.
use graphql_json::{Places, error_json, schema_json};
use graphql_parser::types::{ServiceDocument, TypeDefinition, TypeKind, TypeSystemDefinition};
use graphql_parser::value::Name;
use graphql_parser::{Error, Memory, Pos, Positioned};
use rows::{Parser, Shown, refused_within};
use std::alloc::{AllocError, Global};
use std::str;

/// The JSON that is asked for so.
///
/// - `query`, `schema`: that of the error of a text
/// - `error`: that of the error of this name
/// - `built`: the definitions of a tree that a program built
pub fn answer(shown: &mut Shown, part: &str, text: &str) {
    match part {
        "query" => write_refused(shown, Parser::Query, text),
        "schema" => write_refused(shown, Parser::Schema, text),
        "error" => write_named(shown, text),
        "built" => write_built(shown, text),
        _ => shown.word("no such part"),
    }
}

fn write_named(shown: &mut Shown, name: &str) {
    let alloc = shown.alloc();
    match named(alloc, name) {
        Some(error) => write_json(shown, error_json(alloc, &error)),
        None => shown.word("no such error"),
    }
}

// An error that no parser makes.
fn named(alloc: Global, name: &str) -> Option<Error> {
    match name {
        "memory" => Some(Error::OutOfMemory),
        "syntax with a far end" => Some(Error::Syntax {
            message: String::from_str(alloc, "no \"a\"\nbut a \\").ok()?,
            start: Pos { line: 1, column: 2 },
            end: Some(Pos {
                line: usize::MAX,
                column: 0,
            }),
        }),
        _ => None,
    }
}

fn write_built(shown: &mut Shown, name: &str) {
    let alloc = shown.alloc();
    match lone_type(alloc, name) {
        Some(file) => write_json(shown, schema_json(alloc, &file, Places::Written)),
        None => shown.leave_out(),
    }
}

// A file of one scalar with this name, which stands somewhere, and its name nowhere.
fn lone_type(alloc: Global, name: &str) -> Option<ServiceDocument> {
    let definition = TypeDefinition {
        extend: false,
        description: None,
        name: Positioned::new(Name::new(alloc, name).ok()?, Pos::default()),
        directives: Vec::new(alloc),
        kind: TypeKind::Scalar,
    };
    let place = Pos { line: 0, column: 1 };
    let mut definitions = Vec::new(alloc);
    definitions
        .push(TypeSystemDefinition::TypeDef(Positioned::new(definition, place)))
        .ok()?;
    Some(ServiceDocument { definitions })
}

// Writes the JSON of a text's error, unless the check answers otherwise.
fn write_refused(shown: &mut Shown, parser: Parser, text: &str) {
    let alloc = shown.alloc();
    let error = refused_within(&mut Memory::new(alloc), parser, false, text);
    if error != refused_within(&mut Memory::new(alloc), parser, true, text) {
        return shown.word("checked otherwise");
    }
    match &error {
        Some(error) => write_json(shown, error_json(alloc, error)),
        None => shown.word("accepted"),
    }
}

// Writes this JSON as the rows do; of a document only its definitions.
fn write_json(shown: &mut Shown, json: Result<Vec<u8>, AllocError>) {
    match json {
        Ok(json) => {
            let json = str::from_utf8(json.as_slice()).unwrap_or("no UTF-8");
            let json = between(json, "{\"kind\":\"Document\",\"definitions\":[", "]}");
            let mut spaced = Shown::new(shown.alloc(), true);
            write_spaced(&mut spaced, json);
            write_places(shown, spaced.whole().unwrap_or(""));
        }
        Err(_) => shown.leave_out(),
    }
}

// What stands between these two; all of the text where they don't stand at its ends.
fn between<'a>(text: &'a str, before: &str, after: &str) -> &'a str {
    match text.strip_prefix(before) {
        Some(rest) => rest.strip_suffix(after).unwrap_or(text),
        None => text,
    }
}

// Writes JSON with a blank after each comma and each colon that stands in no string.
fn write_spaced(shown: &mut Shown, json: &str) {
    let mut is_in_string = false;
    let mut is_escaped = false;
    for c in json.chars() {
        shown.letter(c);
        if c == '"' && !is_escaped {
            is_in_string = !is_in_string;
        }
        is_escaped = c == '\\' && !is_escaped;
        if !is_in_string && (c == ',' || c == ':') {
            shown.word(" ");
        }
    }
}

// Writes each line and column of this JSON as `@1:2`, and the rest as it is.
fn write_places(shown: &mut Shown, json: &str) {
    for (index, part) in json.split("\"line\": ").enumerate() {
        shown.word(if index > 0 { "@" } else { "" });
        for (index, part) in part.split(", \"column\": ").enumerate() {
            shown.word(if index > 0 { ":" } else { "" });
            shown.word(part);
        }
    }
}

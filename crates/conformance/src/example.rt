//! What the calls of `example_checker` return.
use example_checker::{
    Fault, Refusal, cost_within, fields_of, first_fault, first_unnamed, is_silently_deprecated,
    is_spread,
};
use graphql_parser::types::{ExecutableDocument, ServiceDocument};
use graphql_parser::{Error, parse_query, parse_schema};
use rows::Shown;

/// Writes what a request costs if that is at most the limit, or why it is refused, and then what is wrong with it, each after its
/// place. `schema` asks for what is wrong with a schema file.
pub fn write_checked(shown: &mut Shown, limit: &str, text: &str) {
    match limit.parse() {
        Ok(limit) => write_request(shown, limit, text),
        Err(_) => write_schema(shown, text),
    }
}

fn write_request(shown: &mut Shown, limit: u32, text: &str) {
    match parse_query(shown.alloc(), text) {
        Ok(document) => {
            write_cost(shown, &document, limit);
            write_request_faults(shown, &document);
        }
        Err(error) => write_error(shown, &error),
    }
}

fn write_schema(shown: &mut Shown, text: &str) {
    match parse_schema(shown.alloc(), text) {
        Ok(document) => write_schema_faults(shown, &document),
        Err(error) => write_error(shown, &error),
    }
}

fn write_cost(shown: &mut Shown, document: &ExecutableDocument, limit: u32) {
    match cost_within(shown.alloc(), document, limit) {
        Ok(cost) => shown.item("cost ", &cost),
        Err(Refusal::TooDear) => shown.item("refused: costs more than ", &limit),
        Err(Refusal::Endless) => write_fault(shown, document),
        Err(Refusal::OutOfMemory) => shown.leave_out(),
    }
}

// Why the spreads of a request never end.
fn write_fault(shown: &mut Shown, document: &ExecutableDocument) {
    match first_fault(shown.alloc(), document) {
        Ok(Some(Fault::Missing(name))) => shown.item("refused: there is no fragment ", name),
        Ok(Some(Fault::SpreadsItself(name))) => {
            shown.item("refused: the fragment ", name);
            shown.word(" spreads itself");
        }
        Ok(None) => shown.word("refused: its spreads never end"),
        Err(_) => shown.leave_out(),
    }
}

fn write_request_faults(shown: &mut Shown, document: &ExecutableDocument) {
    if let Some(place) = first_unnamed(document) {
        shown.place(" ", &place);
        shown.word(": an operation has no name");
    }
    for (name, fragment) in document.fragments.iter() {
        if !is_spread(document, name.as_str()) {
            shown.place(" ", &fragment.pos);
            shown.item(": the fragment ", name);
            shown.word(" is not used");
        }
    }
}

fn write_schema_faults(shown: &mut Shown, document: &ServiceDocument) {
    for definition in &document.definitions {
        for field in fields_of(definition) {
            if is_silently_deprecated(&field.node) {
                shown.place(" ", &field.pos);
                shown.item(": the field ", &field.node.name.node);
                shown.word(" is deprecated without a reason");
            }
        }
    }
}

// Writes an error after its first place.
fn write_error(shown: &mut Shown, error: &Error) {
    if let Some(place) = error.positions().next() {
        shown.place("", &place);
    }
    shown.item(": ", error);
}

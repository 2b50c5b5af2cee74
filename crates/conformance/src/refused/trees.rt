//! Calls that are given trees, parts of them, or an error.
use super::answers::{show_constant, show_copy, show_json, show_node};
use super::free;
use graphql_parser::Error;
use graphql_parser::types::{ConstDirective, Directive, ExecutableDocument};
use graphql_parser::value::{ConstValue, Value};
use rows::Shown;

/// Makes a call that is given a request.
pub fn make_of_request(shown: &mut Shown, call: &str, document: &mut ExecutableDocument) -> bool {
    match call {
        "clone" => return show_copy(shown, document),
        "look up" => free::show_found(shown, document),
        "operations" => free::show_operations(shown, document),
        "change" => free::show_changed(shown, document),
        _ => free::show_compared(shown, document),
    }
    true
}

/// Makes a call that is given an error.
pub fn make_of_error(shown: &mut Shown, call: &str, error: &Error) -> bool {
    if call == "places as JSON" {
        return show_json(shown, &error.positions());
    }
    free::show_error_places(shown, error);
    true
}

/// Makes a call that is given a value, of which there are copies.
pub fn make_of_values(shown: &mut Shown, call: &str, values: &mut Vec<Value>) -> bool {
    if call == "clone" {
        return match values.first() {
            Some(value) => show_node(shown, value.clone()),
            None => false,
        };
    }
    let Some(value) = values.pop() else {
        return false;
    };
    if call == "into const" {
        return show_constant(shown, value.into_const(shown.alloc()));
    }
    free::show_made(shown, value);
    true
}

/// The same of a value without variables.
pub fn make_of_constants(shown: &mut Shown, call: &str, values: &mut Vec<ConstValue>) -> bool {
    let Some(value) = values.pop() else {
        return false;
    };
    if call == "into value" {
        return show_node(shown, value.into_value(shown.alloc()));
    }
    free::show_made_constants(shown, value);
    true
}

/// The same of a directive.
pub fn make_of_directives(shown: &mut Shown, directives: &mut Vec<Directive>) -> bool {
    match directives.pop() {
        Some(directive) => show_constant(shown, directive.into_const(shown.alloc())),
        None => false,
    }
}

/// The same of a directive without variables.
pub fn make_of_constant_directives(
    shown: &mut Shown,
    directives: &mut Vec<ConstDirective>,
) -> bool {
    match directives.pop() {
        Some(directive) => show_node(shown, directive.into_directive(shown.alloc())),
        None => false,
    }
}

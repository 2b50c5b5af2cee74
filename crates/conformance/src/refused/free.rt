//! Calls that take no memory, and how their answers show.
use super::given::first_field;
use crate::compared::hash_of;
use crate::trees::{Written, write_default_value, write_directives};
use graphql_parser::lexer::Tokens;
use graphql_parser::pos::PositionCalculator;
use graphql_parser::types::{DocumentOperations, ExecutableDocument, Field, SelectionSet};
use graphql_parser::value::{ConstValue, Literal, Value};
use graphql_parser::{Error, Limits, Pos, Positioned};
use rows::Shown;
use std::alloc::AllocError;

/// The places of a text's tokens, how many were taken, and whether they have ended.
pub fn show_tokens(shown: &mut Shown, text: &str) -> bool {
    let mut tokens = Tokens::new(text);
    for _ in 0..=text.len() {
        if let Some(token) = tokens.next() {
            shown.item("", &token.pos);
            shown.word(" ");
        }
    }
    shown.item("taken ", &tokens.taken());
    shown.word(if tokens.is_ended() { " ended" } else { "" });
    true
}

/// The places where a text begins and ends, after each how many characters were gone over for it; and what is made of
/// places, of nodes, of limits and of a set.
pub fn show_places(shown: &mut Shown, text: &str) -> bool {
    let mut calculator = PositionCalculator::new(text);
    if !text.is_char_boundary(0) || !text.is_char_boundary(text.len()) {
        return true;
    }
    let first = calculator.step(0);
    shown.item("", &first);
    shown.item(" ", &calculator.stepped());
    let last = calculator.step(text.len());
    shown.item(" ", &last);
    shown.item(" ", &calculator.stepped());
    show_nodes(shown, text);
    shown.debugged(" ", &first.cmp(&last));
    true
}

// A node, another in its place, and whether they are made as they have to be, with the limits and an empty set.
fn show_nodes(shown: &mut Shown, text: &str) {
    let node = Positioned::new(text, Pos::from((1, 2)));
    let other = node.position_node(9usize);
    shown.item(" ", &other);
    shown.item("@", &other.pos);
    let length = node.map(|text| text.len());
    shown.item(" ", &length);
    shown.item("@", &length.pos);
    let is_made = Limits::new(64, 64, 64) == Some(Limits::default())
        && length.into_inner() == text.len()
        && SelectionSet::new(shown.alloc()).items.is_empty();
    shown.item(" ", &is_made);
}

/// How many places a copy of those of an error has; and they in turn, the last first, after each how many are left. How
/// the error compares with another and with itself.
pub fn show_error_places(shown: &mut Shown, error: &Error) {
    let mut left = error.positions();
    if let Ok(copy) = left.clone() {
        shown.item("", &copy.len());
    }
    for is_back in [true, false, false] {
        match if is_back {
            left.next_back()
        } else {
            left.next()
        } {
            Some(place) => shown.item(" ", &place),
            None => shown.word(" none"),
        }
        shown.item(" ", &left.len());
    }
    shown.item(" ", &(*error == Error::from(AllocError)));
    shown.item(" ", &(error == error));
}

/// How many operations a copy of those of a request has; and they in turn, after each how many are left.
pub fn show_operations(shown: &mut Shown, document: &ExecutableDocument) {
    let mut left = document.operations.iter();
    if let Ok(copy) = left.clone() {
        shown.item("", &copy.len());
    }
    for _ in 0..3 {
        match left.next() {
            Some((name, operation)) => {
                match name {
                    Some(name) => shown.item(" ", name),
                    None => shown.word(" unnamed"),
                }
                shown.item("@", &operation.pos);
            }
            None => shown.word(" none"),
        }
        shown.item(" ", &left.len());
    }
}

/// The key of the first field, its argument `b`, the operation `A`, the fragment `F`, and how many operations there are.
pub fn show_found(shown: &mut Shown, document: &ExecutableDocument) {
    if let Some(field) = first_field(document) {
        show_field(shown, field);
    }
    if let Some(operation) = document.operations.get("A") {
        shown.item(" A@", &operation.pos);
        for variable in &operation.node.variable_definitions {
            write_default_value(shown, &variable.node);
        }
    }
    if let Some(fragment) = document.fragment("F") {
        shown.item(" F@", &fragment.pos);
    }
    shown.item(" ", &document.operations.iter().len());
}

fn show_field(shown: &mut Shown, field: &Field) {
    shown.item("", &field.response_key().node);
    if let Some(value) = field.get_argument("b") {
        shown.word(" b=");
        value.node.write(shown);
    }
}

/// The directives of the first selection, after each was put into line 7.
pub fn show_changed(shown: &mut Shown, document: &mut ExecutableDocument) {
    if let DocumentOperations::Single(operation) = &mut document.operations
        && let Some(selection) = operation.node.selection_set.node.items.first_mut()
    {
        for directive in selection.node.directives_mut() {
            directive.pos.line = 7;
        }
        write_directives(shown, selection.node.directives());
    }
}

/// How the first two arguments of the first field compare: the value of the first with itself and with the other, the
/// order of their names, and the hash of a name with that of its node.
pub fn show_compared(shown: &mut Shown, document: &ExecutableDocument) {
    if let Some(field) = first_field(document)
        && let [one, other] = field.arguments.as_slice()
    {
        shown.item(" ", &(one.1 == one.1));
        shown.item(" ", &(one.1.node == other.1.node));
        shown.debugged(" ", &one.0.cmp(&other.0));
        shown.item(" ", &(hash_of(&one.0) == hash_of(&one.0.node)));
    }
}

/// The items of a list, each made again of its parts.
pub fn show_made(shown: &mut Shown, value: Value) {
    if let Value::List(items) = value {
        for item in items {
            shown.word(" ");
            made_again(item).write(shown);
        }
    }
}

fn made_again(value: Value) -> Value {
    match value {
        Value::Variable(name) => Value::variable(name).unwrap_or(Value::Null),
        Value::Null => Value::null(),
        Value::Number(number) => Value::number(number),
        Value::String(text) => Value::string(text),
        Value::Boolean(value) => Value::boolean(value),
        Value::Enum(name) => Value::enumeration(name),
        Value::List(items) => Value::list(items),
        Value::Object(fields) => Value::object(fields),
    }
}

/// The same of a list without variables.
pub fn show_made_constants(shown: &mut Shown, value: ConstValue) {
    if let ConstValue::List(items) = value {
        for item in items {
            shown.word(" ");
            constant_made_again(item).write(shown);
        }
    }
}

fn constant_made_again(value: ConstValue) -> ConstValue {
    match value {
        ConstValue::Null => ConstValue::null(),
        ConstValue::Number(number) => ConstValue::number(number),
        ConstValue::String(text) => ConstValue::string(text),
        ConstValue::Boolean(value) => ConstValue::boolean(value),
        ConstValue::Enum(name) => ConstValue::enumeration(name),
        ConstValue::List(items) => ConstValue::list(items),
        ConstValue::Object(fields) => ConstValue::object(fields),
    }
}

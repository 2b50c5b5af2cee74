//! How long fields are on one line.
use graphql_syntax::value::{Name, Value};
use graphql_tokens::pos::Positioned;
use graphql_trees::Field;

// The arguments of a field are broken over lines where it would be longer than this with them.
const LONGEST_CALL: usize = 80;

type Argument = (Positioned<Name>, Positioned<Value>);

/// Whether a field with its alias and arguments would be longer on one line than a line is to be. Its length is counted in units
/// of UTF-16, as in GraphQL.js.
pub fn is_long(field: &Field) -> bool {
    !field.arguments.is_empty() && room_after(field).is_none()
}

// How many columns are left of a line after a field with its alias and arguments; None where there are too few.
fn room_after(field: &Field) -> Option<usize> {
    let mut room = LONGEST_CALL;
    if let Some(alias) = &field.alias {
        room = after_name(room, &alias.node)?.checked_sub(2)?;
    }
    room = after_name(room, &field.name.node)?;
    after_arguments(room, &field.arguments)
}

fn after_name(room: usize, name: &Name) -> Option<usize> {
    room.checked_sub(name.as_str().len())
}

// Each argument stands after the opening parenthesis, or a comma and a blank.
fn after_arguments(room: usize, arguments: &[Argument]) -> Option<usize> {
    let mut left = room;
    let mut before = 1;
    for argument in arguments {
        left = after_name(left.checked_sub(before)?, &argument.0.node)?.checked_sub(2)?;
        left = after_value(left, &argument.1.node)?;
        before = 2;
    }
    left.checked_sub(1)
}

#[cycle(value)]
fn after_value(room: usize, value: &Value) -> Option<usize> {
    match value {
        Value::Variable(name) => after_name(room, name)?.checked_sub(1),
        Value::Null => room.checked_sub("null".len()),
        Value::Number(number) => room.checked_sub(number.as_str().len()),
        Value::String(text) => after_string(room, text.as_str()),
        Value::Boolean(value) => room.checked_sub(if *value { 4 } else { 5 }),
        Value::Enum(name) => after_name(room, name),
        Value::List(items) => after_items(room, items),
        Value::Object(fields) => after_fields(room, fields),
    }
}

#[cycle(value)]
fn after_items(room: usize, items: &Vec<Value>) -> Option<usize> {
    let mut left = room;
    let mut before = 1;
    for item in items {
        left = after_value(left.checked_sub(before)?, item)?;
        before = 2;
    }
    left.checked_sub(if items.is_empty() { 2 } else { 1 })
}

#[cycle(value)]
fn after_fields(room: usize, fields: &Vec<(Name, Value)>) -> Option<usize> {
    let mut left = room;
    let mut before = 1;
    for field in fields {
        left = after_name(left.checked_sub(before)?, &field.0)?.checked_sub(2)?;
        left = after_value(left, &field.1)?;
        before = 2;
    }
    left.checked_sub(if fields.is_empty() { 2 } else { 1 })
}

// A string in its quotes.
fn after_string(room: usize, text: &str) -> Option<usize> {
    let mut left = room.checked_sub(2)?;
    for c in text.chars() {
        left = left.checked_sub(width_of(c))?;
    }
    Some(left)
}

// How much a character adds to a string's length.
fn width_of(c: char) -> usize {
    match c {
        '"' | '\\' | '\n' | '\r' | '\t' | '\u{8}' | '\u{c}' => 2,
        _ if c.is_control() => "\\u0000".len(),
        _ => c.len_utf16(),
    }
}

//! What serde reads and writes.
use graphql_syntax::types::{BaseType, OperationType, Type};
use graphql_syntax::value::Name;
use graphql_tokens::pos::Pos;
use rows::Shown;
use serde::{Deserialize, Serialize};
use std::fmt::Debug;

/// Writes what a developer is shown of the value that is read of JSON, at the type that the call names, and what is written of it
/// where that is not the same JSON.
pub fn write_read_back(shown: &mut Shown, call: &str, text: &str) {
    match call {
        "place as JSON" => write_value::<Pos>(shown, text),
        "operation as JSON" => write_value::<OperationType>(shown, text),
        "name as JSON" => write_value::<Name>(shown, text),
        "type as JSON" => write_value::<Type>(shown, text),
        "base type as JSON" => write_value::<BaseType>(shown, text),
        _ => shown.word("no such call"),
    }
}

fn write_value<'a, T: Serialize + Deserialize<'a> + Debug + Drop>(
    shown: &mut Shown,
    text: &'a str,
) {
    match serde_json::from_str::<T>(shown.alloc(), text) {
        Ok(value) => {
            shown.debugged("", &value);
            write_json(shown, text, &value);
        }
        Err(_) => shown.word("no such JSON"),
    }
}

fn write_json<T: Serialize>(shown: &mut Shown, text: &str, value: &T) {
    match serde_json::to_string(shown.alloc(), value) {
        Ok(written) => {
            if written.as_str() != text {
                shown.item(" written as ", &written);
            }
        }
        Err(_) => shown.word(" not written"),
    }
}

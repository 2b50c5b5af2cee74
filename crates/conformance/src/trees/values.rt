//! Values as text.
use crate::trees::plain::Plain;
use graphql_syntax::value::{ConstValue, Value};
use rows::Shown;

/// What is written as a part of a tree.
pub trait Written {
    /// Writes it after what was written.
    fn write(&self, shown: &mut Shown);
}

// Writes a value: the cases in which the types of values differ are handed over.
macro_rules! write_value {
    ($values:ident, $write:ident, $shown:ident, $value:ident, { $($own:tt)* }) => {
        match $value {
            $($own)*
            $values::Number(number) => $shown.item("", number),
            $values::Enum(name) => $shown.item(".", name),
            $values::List(items) => {
                $shown.word("[");
                for item in items {
                    $shown.word(" ");
                    $write($shown, item);
                }
                $shown.word(" ]");
            }
            $values::Object(fields) => {
                $shown.word("{");
                for field in fields {
                    $shown.item(" ", &field.0);
                    $shown.word("=");
                    $write($shown, &field.1);
                }
                $shown.word(" }");
            }
        }
    };
}

fn write_string(shown: &mut Shown, text: &String) {
    shown.item("'", text);
    shown.word("'");
}

fn write_value(shown: &mut Shown, value: &Value) {
    write_value!(Value, write_value, shown, value, {
        Value::Variable(name) => shown.item("$", name),
        Value::Null => shown.word("null"),
        Value::String(text) => write_string(shown, text),
        Value::Boolean(value) => shown.item("", value),
    })
}

fn write_constant(shown: &mut Shown, value: &ConstValue) {
    write_value!(ConstValue, write_constant, shown, value, {
        ConstValue::Null => shown.word("null"),
        ConstValue::String(text) => write_string(shown, text),
        ConstValue::Boolean(value) => shown.item("", value),
    })
}

fn write_plain(shown: &mut Shown, value: &Plain) {
    write_value!(Plain, write_plain, shown, value, {
        Plain::Null => shown.word("Null"),
        Plain::Text(text) => write_string(shown, text),
        Plain::Yes => shown.word("Yes"),
        Plain::No => shown.word("No"),
    })
}

impl Written for Value {
    fn write(&self, shown: &mut Shown) {
        write_value(shown, self);
    }
}

impl Written for ConstValue {
    fn write(&self, shown: &mut Shown) {
        write_constant(shown, self);
    }
}

/// As the values of the crates, but that its words are `Null`, `Yes` and `No`.
impl Written for Plain {
    fn write(&self, shown: &mut Shown) {
        write_plain(shown, self);
    }
}

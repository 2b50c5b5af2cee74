//! Values of each type that are made by callers of the contracts, and what no clause says.
ghost use Rattle.std.specs.Prelude.{◌≡◌, ◌∷◌, [], IsTrue, IfOk};
ghost use Rattle.graphql_syntax.specs.trees.ValueTree.{null, boolean, list, object, trees_of, fields_of};

use crate::trees::Written;
use crate::trees::plain::Plain;
use graphql_syntax::value::{ConstValue, Literal, Name, Value};
use rows::{Shown, pair};
use std::alloc::{AllocError, Global};

// `{name: [boolean, null]}`, at any type of values.
fn example<V: Literal>(alloc: Global, name: Name, b: bool) -> Result<V, AllocError>
    ensures { IfOk result (λ v. V.tree v
        ≡ object (fields_of ((name, list (trees_of (boolean b ∷ null ∷ []))) ∷ []))) }
{
    let mut items = Vec::new(alloc);
    items.push(V::boolean(b))?;
    items.push(V::null())?;
    let mut fields = Vec::new(alloc);
    fields.push((name, V::list(items)))?;
    Ok(V::object(fields))
}

// A variable, where the type has them, and else its name as a value of an enum.
fn variable_or_enum<V: Literal>(name: Name, again: Name) -> V {
    match V::variable(name) {
        Some(value) => value,
        None => V::enumeration(again),
    }
}

// A clone is equal to its source.
fn equals_its_clone(value: &ConstValue) -> Result<bool, AllocError>
    ensures { IfOk result IsTrue }
{
    let copy = value.clone()?;
    Ok(copy == *value)
}

// The value of this name, at a type.
fn value_of<V: Literal>(alloc: Global, what: &str) -> Result<V, AllocError> {
    match what {
        "example" => example(alloc, Name::new(alloc, "a")?, true),
        "yes" => Ok(V::boolean(true)),
        "no" => Ok(V::boolean(false)),
        "string" => Ok(V::string(String::from_str(alloc, "a")?)),
        _ => Ok(variable_or_enum(Name::new(alloc, "a")?, Name::new(alloc, "b")?)),
    }
}

fn write_made<V: Literal + Written>(shown: &mut Shown, what: &str) {
    match value_of::<V>(shown.alloc(), what) {
        Ok(value) => value.write(shown),
        Err(_) => shown.leave_out(),
    }
}

fn write_equal(shown: &mut Shown, what: &str) {
    match value_of(shown.alloc(), what) {
        Ok(value) => match equals_its_clone(&value) {
            Ok(is_equal) => shown.item("equal ", &is_equal),
            Err(_) => shown.leave_out(),
        },
        Err(_) => shown.leave_out(),
    }
}

/// Writes the value of a name, at the type after ` of `; and whether a clone of it is equal.
pub fn write_value(shown: &mut Shown, text: &str) {
    match pair(text, " of ") {
        (what, "Value") => write_made::<Value>(shown, what),
        (what, "ConstValue") => write_made::<ConstValue>(shown, what),
        (what, "Plain") => write_made::<Plain>(shown, what),
        (what, "ConstValue and a clone") => write_equal(shown, what),
        _ => shown.word("no such value"),
    }
}

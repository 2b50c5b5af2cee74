//! `clone` of values: the same tree.
//!
//! It is written out, since a derived one says nothing of a type that holds itself.
ghost use Rattle.std.specs.Prelude.{◌≡◌, IfOk};
ghost use Rattle.graphql_syntax.specs.trees.ValueViews.{const_tree, value_tree, trees_by, fields_by};

use super::{ConstValue, Name, Value};
use std::alloc::AllocError;

impl Clone for ConstValue {
    ghost is_clone = { λ value clone. const_tree clone ≡ const_tree value };

    fn clone(&self) -> Result<ConstValue, AllocError> {
        clone_const(self)
    }
}

impl Clone for Value {
    ghost is_clone = { λ value clone. value_tree clone ≡ value_tree value };

    fn clone(&self) -> Result<Value, AllocError> {
        clone_value(self)
    }
}

#[cycle(clone_const)]
fn clone_const(value: &ConstValue) -> Result<ConstValue, AllocError>
    ensures { IfOk result (λ clone. const_tree clone ≡ const_tree value.now) }
{
    match value {
        ConstValue::Null => Ok(ConstValue::Null),
        ConstValue::Number(n) => Ok(ConstValue::Number(n.clone()?)),
        ConstValue::String(s) => Ok(ConstValue::String(s.clone()?)),
        ConstValue::Boolean(b) => Ok(ConstValue::Boolean(*b)),
        ConstValue::Enum(n) => Ok(ConstValue::Enum(n.clone()?)),
        ConstValue::List(items) => Ok(ConstValue::List(clone_const_items(items)?)),
        ConstValue::Object(fields) => Ok(ConstValue::Object(clone_const_fields(fields)?)),
    }
}

#[cycle(clone_const)]
fn clone_const_items(items: &Vec<ConstValue>) -> Result<Vec<ConstValue>, AllocError>
    ensures { IfOk result (λ clones. trees_by const_tree clones.items ≡
        trees_by const_tree items.now.items) }
{
    let mut clones = Vec::with_capacity(*items.allocator(), items.len())?;
    for item in items {
        clones.push(clone_const(item)?)?;
    }
    Ok(clones)
}

#[cycle(clone_const)]
fn clone_const_fields(
    fields: &Vec<(Name, ConstValue)>,
) -> Result<Vec<(Name, ConstValue)>, AllocError>
    ensures { IfOk result (λ clones. fields_by const_tree clones.items ≡
        fields_by const_tree fields.now.items) }
{
    let mut clones = Vec::with_capacity(*fields.allocator(), fields.len())?;
    for field in fields {
        clones.push((field.0.clone()?, clone_const(&field.1)?))?;
    }
    Ok(clones)
}

#[cycle(clone_value)]
fn clone_value(value: &Value) -> Result<Value, AllocError>
    ensures { IfOk result (λ clone. value_tree clone ≡ value_tree value.now) }
{
    match value {
        Value::Variable(n) => Ok(Value::Variable(n.clone()?)),
        Value::Null => Ok(Value::Null),
        Value::Number(n) => Ok(Value::Number(n.clone()?)),
        Value::String(s) => Ok(Value::String(s.clone()?)),
        Value::Boolean(b) => Ok(Value::Boolean(*b)),
        Value::Enum(n) => Ok(Value::Enum(n.clone()?)),
        Value::List(items) => Ok(Value::List(clone_value_items(items)?)),
        Value::Object(fields) => Ok(Value::Object(clone_value_fields(fields)?)),
    }
}

#[cycle(clone_value)]
fn clone_value_items(items: &Vec<Value>) -> Result<Vec<Value>, AllocError>
    ensures { IfOk result (λ clones. trees_by value_tree clones.items ≡
        trees_by value_tree items.now.items) }
{
    let mut clones = Vec::with_capacity(*items.allocator(), items.len())?;
    for item in items {
        clones.push(clone_value(item)?)?;
    }
    Ok(clones)
}

#[cycle(clone_value)]
fn clone_value_fields(fields: &Vec<(Name, Value)>) -> Result<Vec<(Name, Value)>, AllocError>
    ensures { IfOk result (λ clones. fields_by value_tree clones.items ≡
        fields_by value_tree fields.now.items) }
{
    let mut clones = Vec::with_capacity(*fields.allocator(), fields.len())?;
    for field in fields {
        clones.push((field.0.clone()?, clone_value(&field.1)?))?;
    }
    Ok(clones)
}

//! Values in which variables may stand to values in which none does, and back.
ghost use Rattle.std.specs.Prelude.{◌≡◌, MatchOption, IfOk, Ok, None, true, false};
ghost use Rattle.graphql_syntax.specs.trees.ValueTree.{has_variable, trees_have_variable, fields_have_variable};
ghost use Rattle.graphql_syntax.specs.trees.ValueViews.{const_tree, value_tree, trees_by, fields_by};

use super::{ConstValue, Name, Value};
use std::alloc::{AllocError, Global};

impl ConstValue {
    /// The same value as one in which variables may stand: the same cases, names and order. None stands
    /// in it, so that `into_const` of it gives the value back unless memory runs out.
    ///
    /// Fails only where no memory is left for its lists and objects; the value is then gone.
    pub fn into_value(self, alloc: Global) -> Result<Value, AllocError>
        ensures value { IfOk result (λ value. value_tree value ≡ const_tree self) }
        ensures constant { IfOk result (λ value. has_variable (value_tree value) ≡ false) }
    {
        value_of(self, alloc)
    }
}

impl Value {
    /// The same value as one without variables, with the same cases, names and order; None exactly
    /// where a variable stands in it at any depth.
    ///
    /// That is found before any memory is taken, so where a variable stands the answer is always
    /// `Ok(None)`. Fails only where no memory is left for the lists and objects of a value without
    /// variables. The value is gone in each case.
    pub fn into_const(self, alloc: Global) -> Result<Option<ConstValue>, AllocError>
        ensures variable { has_variable (value_tree self) ≡ true → result ≡ Ok None }
        ensures value { IfOk result (λ answer. MatchOption answer
            (has_variable (value_tree self) ≡ true)
            (λ value. (has_variable (value_tree self) ≡ false) × (const_tree value ≡ value_tree self))) }
    {
        if holds_variable(&self) {
            return Ok(None);
        }
        Ok(Some(const_of(self, alloc)?))
    }
}

/// Whether a variable stands in the value at any depth. Takes no memory.
#[cycle(holds)]
pub(crate) fn holds_variable(value: &Value) -> bool
    ensures { result ≡ has_variable (value_tree value.now) }
{
    match value {
        Value::Variable(_) => true,
        Value::List(items) => items_hold(items),
        Value::Object(fields) => fields_hold(fields),
        _ => false,
    }
}

#[cycle(holds)]
fn items_hold(items: &Vec<Value>) -> bool
    ensures { result ≡ trees_have_variable (trees_by value_tree items.now.items) }
{
    for item in items {
        if holds_variable(item) {
            return true;
        }
    }
    false
}

#[cycle(holds)]
fn fields_hold(fields: &Vec<(Name, Value)>) -> bool
    ensures { result ≡ fields_have_variable (fields_by value_tree fields.now.items) }
{
    for field in fields {
        if holds_variable(&field.1) {
            return true;
        }
    }
    false
}

// The same value as one in which variables may stand.
#[cycle(value_of)]
fn value_of(value: ConstValue, alloc: Global) -> Result<Value, AllocError>
    ensures { IfOk result (λ v. value_tree v ≡ const_tree value) }
{
    match value {
        ConstValue::Null => Ok(Value::Null),
        ConstValue::Number(n) => Ok(Value::Number(n)),
        ConstValue::String(s) => Ok(Value::String(s)),
        ConstValue::Boolean(b) => Ok(Value::Boolean(b)),
        ConstValue::Enum(n) => Ok(Value::Enum(n)),
        ConstValue::List(items) => Ok(Value::List(values_of(items, alloc)?)),
        ConstValue::Object(fields) => Ok(Value::Object(fields_of(fields, alloc)?)),
    }
}

#[cycle(value_of)]
fn values_of(items: Vec<ConstValue>, alloc: Global) -> Result<Vec<Value>, AllocError>
    ensures { IfOk result (λ v. trees_by value_tree v.items ≡ trees_by const_tree items.items) }
{
    let mut values = Vec::with_capacity(alloc, items.len())?;
    for item in items {
        values.push(value_of(item, alloc)?)?;
    }
    Ok(values)
}

#[cycle(value_of)]
fn fields_of(
    fields: Vec<(Name, ConstValue)>,
    alloc: Global,
) -> Result<Vec<(Name, Value)>, AllocError>
    ensures { IfOk result (λ v. fields_by value_tree v.items ≡ fields_by const_tree fields.items) }
{
    let mut values = Vec::with_capacity(alloc, fields.len())?;
    for (name, field) in fields {
        values.push((name, value_of(field, alloc)?))?;
    }
    Ok(values)
}

/// The same value as one without variables, where none stands in it.
///
/// Fails only where no memory is left for its lists and objects; the value is then gone.
#[cycle(const_of)]
pub(crate) fn const_of(value: Value, alloc: Global) -> Result<ConstValue, AllocError>
    requires { has_variable (value_tree value) ≡ false }
    ensures { IfOk result (λ v. const_tree v ≡ value_tree value) }
{
    match value {
        Value::Variable(_) => unreachable!(),
        Value::Null => Ok(ConstValue::Null),
        Value::Number(n) => Ok(ConstValue::Number(n)),
        Value::String(s) => Ok(ConstValue::String(s)),
        Value::Boolean(b) => Ok(ConstValue::Boolean(b)),
        Value::Enum(n) => Ok(ConstValue::Enum(n)),
        Value::List(items) => Ok(ConstValue::List(consts_of(items, alloc)?)),
        Value::Object(fields) => Ok(ConstValue::Object(const_fields_of(fields, alloc)?)),
    }
}

#[cycle(const_of)]
fn consts_of(items: Vec<Value>, alloc: Global) -> Result<Vec<ConstValue>, AllocError>
    requires { trees_have_variable (trees_by value_tree items.items) ≡ false }
    ensures { IfOk result (λ v. trees_by const_tree v.items ≡ trees_by value_tree items.items) }
{
    let mut values = Vec::with_capacity(alloc, items.len())?;
    for item in items {
        values.push(const_of(item, alloc)?)?;
    }
    Ok(values)
}

#[cycle(const_of)]
fn const_fields_of(
    fields: Vec<(Name, Value)>,
    alloc: Global,
) -> Result<Vec<(Name, ConstValue)>, AllocError>
    requires { fields_have_variable (fields_by value_tree fields.items) ≡ false }
    ensures { IfOk result (λ v. fields_by const_tree v.items ≡ fields_by value_tree fields.items) }
{
    let mut values = Vec::with_capacity(alloc, fields.len())?;
    for (name, field) in fields {
        values.push((name, const_of(field, alloc)?))?;
    }
    Ok(values)
}

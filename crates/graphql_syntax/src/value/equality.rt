//! Equality of values: that of their trees.
//!
//! It is written out, since a derived one says nothing that a caller's proof can use of a type that
//! holds itself.
ghost use Rattle.std.specs.Prelude.{◌≡◌, ◌↔◌, IsTrue};
ghost use Rattle.std.specs.Cmp.{on_per, on_equiv, partial_equiv_from_equiv};
ghost use Rattle.graphql_syntax.specs.trees.TreeEquality.{same_tree, same_trees, same_fields};
ghost use Rattle.graphql_syntax.specs.trees.ValueViews.{const_tree, value_tree, trees_by, fields_by};
ghost use Rattle.graphql_syntax.specs.inner.TreeLaws.{same_tree_equiv};

use super::{ConstValue, Name, Value};

impl PartialEq for ConstValue {
    ghost eq = { λ x y. same_tree (const_tree x) (const_tree y) };

    ghost laws = { on_per const_tree (partial_equiv_from_equiv same_tree_equiv) };

    fn eq(&self, other: &ConstValue) -> bool
        ensures value { result ≡ same_tree (const_tree self.now) (const_tree other.now) }
        ensures same { IsTrue result ↔ (const_tree self.now ≡ const_tree other.now) }
    {
        same_const(self, other)
    }
}

impl Eq for ConstValue {
    ghost laws = { on_equiv const_tree same_tree_equiv };
}

impl PartialEq for Value {
    ghost eq = { λ x y. same_tree (value_tree x) (value_tree y) };

    ghost laws = { on_per value_tree (partial_equiv_from_equiv same_tree_equiv) };

    fn eq(&self, other: &Value) -> bool
        ensures value { result ≡ same_tree (value_tree self.now) (value_tree other.now) }
        ensures same { IsTrue result ↔ (value_tree self.now ≡ value_tree other.now) }
    {
        same_value(self, other)
    }
}

impl Eq for Value {
    ghost laws = { on_equiv value_tree same_tree_equiv };
}

#[cycle(same_const)]
fn same_const(a: &ConstValue, b: &ConstValue) -> bool
    ensures { result ≡ same_tree (const_tree a.now) (const_tree b.now) }
{
    match (a, b) {
        (ConstValue::Null, ConstValue::Null) => true,
        (ConstValue::Number(m), ConstValue::Number(n)) => m == n,
        (ConstValue::String(s), ConstValue::String(t)) => s == t,
        (ConstValue::Boolean(p), ConstValue::Boolean(q)) => p == q,
        (ConstValue::Enum(m), ConstValue::Enum(n)) => m == n,
        (ConstValue::List(xs), ConstValue::List(ys)) => same_const_items(xs, ys),
        (ConstValue::Object(xs), ConstValue::Object(ys)) => same_const_fields(xs, ys),
        _ => false,
    }
}

#[cycle(same_const)]
#[tactic(auto, using(crate::proofs::TreeLists::same_trees_of_other_length))]
fn same_const_items(xs: &Vec<ConstValue>, ys: &Vec<ConstValue>) -> bool
    ensures { result ≡ same_trees (trees_by const_tree xs.now.items)
        (trees_by const_tree ys.now.items) }
{
    if xs.len() != ys.len() {
        return false;
    }
    for (i, x) in xs.iter().enumerate() {
        if !same_const(x, &ys[i]) {
            return false;
        }
    }
    true
}

#[cycle(same_const)]
#[tactic(auto, using(crate::proofs::TreeLists::same_fields_of_other_length))]
fn same_const_fields(xs: &Vec<(Name, ConstValue)>, ys: &Vec<(Name, ConstValue)>) -> bool
    ensures { result ≡ same_fields (fields_by const_tree xs.now.items)
        (fields_by const_tree ys.now.items) }
{
    if xs.len() != ys.len() {
        return false;
    }
    for (i, x) in xs.iter().enumerate() {
        let y = &ys[i];
        if x.0 != y.0 || !same_const(&x.1, &y.1) {
            return false;
        }
    }
    true
}

#[cycle(same_value)]
fn same_value(a: &Value, b: &Value) -> bool
    ensures { result ≡ same_tree (value_tree a.now) (value_tree b.now) }
{
    match (a, b) {
        (Value::Variable(m), Value::Variable(n)) => m == n,
        (Value::Null, Value::Null) => true,
        (Value::Number(m), Value::Number(n)) => m == n,
        (Value::String(s), Value::String(t)) => s == t,
        (Value::Boolean(p), Value::Boolean(q)) => p == q,
        (Value::Enum(m), Value::Enum(n)) => m == n,
        (Value::List(xs), Value::List(ys)) => same_value_items(xs, ys),
        (Value::Object(xs), Value::Object(ys)) => same_value_fields(xs, ys),
        _ => false,
    }
}

#[cycle(same_value)]
#[tactic(auto, using(crate::proofs::TreeLists::same_trees_of_other_length))]
fn same_value_items(xs: &Vec<Value>, ys: &Vec<Value>) -> bool
    ensures { result ≡ same_trees (trees_by value_tree xs.now.items)
        (trees_by value_tree ys.now.items) }
{
    if xs.len() != ys.len() {
        return false;
    }
    for (i, x) in xs.iter().enumerate() {
        if !same_value(x, &ys[i]) {
            return false;
        }
    }
    true
}

#[cycle(same_value)]
#[tactic(auto, using(crate::proofs::TreeLists::same_fields_of_other_length))]
fn same_value_fields(xs: &Vec<(Name, Value)>, ys: &Vec<(Name, Value)>) -> bool
    ensures { result ≡ same_fields (fields_by value_tree xs.now.items)
        (fields_by value_tree ys.now.items) }
{
    if xs.len() != ys.len() {
        return false;
    }
    for (i, x) in xs.iter().enumerate() {
        let y = &ys[i];
        if x.0 != y.0 || !same_value(&x.1, &y.1) {
            return false;
        }
    }
    true
}

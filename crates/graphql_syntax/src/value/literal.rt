//! What a reader of values needs of the type that it makes.
ghost use Rattle.std.specs.Prelude.{◌≡◌, ◌≤◌, ◌+◌, MatchOption, map, string_bytes, true, false, Bool};
ghost use Rattle.graphql_syntax.specs.trees.ValueTree.{Tree, variable, null, number, string, boolean, enumeration, list, object, trees_of, fields_of};
ghost use Rattle.graphql_memory.specs.Memory.{price};
ghost use Rattle.graphql_syntax.specs.inner.Rows.{field_row, argument_row, merging};
ghost use Rattle.std.proofs.Common.{arith};
ghost use Rattle.graphql_syntax.specs.trees.ValueViews.{const_tree, value_tree, trees_by, fields_by};

use super::{ConstValue, Name, Number, Value};

/// A type of values, made from the parts of a value as they are read (this project's own trait).
///
/// A contract sees each value as a value tree, and each constructor gives the case of its name over
/// the trees of its parts. None of them takes memory. The parsers' reader of values is written once,
/// over this trait, and makes [`Value`] and [`ConstValue`].
pub trait Literal: Sized + Drop {
    /// The tree that a value stands for.
    ghost tree: { Self → Tree };

    /// Whether a variable may stand in the values of this type.
    ghost VARIABLES: { Bool };

    /// Whether a variable may stand in the values of this type.
    const VARIABLES: bool;

    /// `null`.
    fn null() -> Self
        ensures { tree result ≡ null };

    /// This number.
    fn number(n: Number) -> Self
        ensures { tree result ≡ number n };

    /// This text, which a string or a block string stands for.
    fn string(s: String) -> Self
        ensures { tree result ≡ string (string_bytes s) };

    /// `true` or `false`.
    fn boolean(b: bool) -> Self
        ensures { tree result ≡ boolean b };

    /// A value of an enum, by its name.
    fn enumeration(n: Name) -> Self
        ensures { tree result ≡ enumeration n };

    /// A list of these items, in their order.
    fn list(items: Vec<Self>) -> Self
        ensures { tree result ≡ list (trees_of (map tree items.items)) };

    /// An object of these fields, in their order. A name may come more than once.
    fn object(fields: Vec<(Name, Self)>) -> Self
        ensures { tree result ≡ object (fields_of (map (λ f. (f.0, tree f.1)) fields.items)) };

    /// The variable of this name, without its `$`: Some exactly where `VARIABLES` is true.
    fn variable(n: Name) -> Option<Self>
        ensures { MatchOption result (VARIABLES ≡ false)
            (λ v. (VARIABLES ≡ true) × (tree v ≡ variable n)) };

    // What a list pays for a value of this type, for a field with one, with what it takes to merge it, and for an argument with
    // one.
    ghost value_fits: { price Self.row ≤ 512 };

    ghost field_fits: { price (field_row Self.row) + merging Self.row ≤ 512 };

    ghost argument_fits: { price (argument_row Self.row) ≤ 512 };
}

impl Literal for ConstValue {
    ghost value_fits = { Prim.omega arith };

    ghost field_fits = { Prim.omega arith };

    ghost argument_fits = { Prim.omega arith };

    ghost tree = { const_tree };

    ghost VARIABLES = { false };

    const VARIABLES: bool = false;

    fn null() -> Self {
        ConstValue::Null
    }

    fn number(n: Number) -> Self {
        ConstValue::Number(n)
    }

    fn string(s: String) -> Self {
        ConstValue::String(s)
    }

    fn boolean(b: bool) -> Self {
        ConstValue::Boolean(b)
    }

    fn enumeration(n: Name) -> Self {
        ConstValue::Enum(n)
    }

    fn list(items: Vec<Self>) -> Self
        ensures { const_tree result ≡ list (trees_by const_tree items.items) }
    {
        ConstValue::List(items)
    }

    fn object(fields: Vec<(Name, Self)>) -> Self
        ensures { const_tree result ≡ object (fields_by const_tree fields.items) }
    {
        ConstValue::Object(fields)
    }

    fn variable(_n: Name) -> Option<Self> {
        None
    }
}

impl Literal for Value {
    ghost value_fits = { Prim.omega arith };

    ghost field_fits = { Prim.omega arith };

    ghost argument_fits = { Prim.omega arith };

    ghost tree = { value_tree };

    ghost VARIABLES = { true };

    const VARIABLES: bool = true;

    fn null() -> Self {
        Value::Null
    }

    fn number(n: Number) -> Self {
        Value::Number(n)
    }

    fn string(s: String) -> Self {
        Value::String(s)
    }

    fn boolean(b: bool) -> Self {
        Value::Boolean(b)
    }

    fn enumeration(n: Name) -> Self {
        Value::Enum(n)
    }

    fn list(items: Vec<Self>) -> Self
        ensures { value_tree result ≡ list (trees_by value_tree items.items) }
    {
        Value::List(items)
    }

    fn object(fields: Vec<(Name, Self)>) -> Self
        ensures { value_tree result ≡ object (fields_by value_tree fields.items) }
    {
        Value::Object(fields)
    }

    fn variable(n: Name) -> Option<Self> {
        Some(Value::Variable(n))
    }
}

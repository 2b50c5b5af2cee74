//! Names, numbers and values.
mod clones;
mod convert;
mod equality;
mod literal;
mod text;
mod view;

pub(crate) use convert::{const_of, holds_variable};
pub use graphql_tokens::name::Name;
pub use graphql_tokens::number::Number;
pub use literal::Literal;
pub use view::{ListItems, ListView, ObjectFields, ObjectView, ValueView};

/// A value in which no variable stands, as in the default value of a variable.
///
/// Two values are equal where they are the same case over equal parts: lists in their order, objects
/// as lists of pairs in theirs, numbers by their literals.
#[derive(Debug, Drop)]
pub enum ConstValue {
    /// `null`.
    Null,
    /// A number, by its literal.
    Number(Number),
    /// What a string or a block string stands for.
    String(String),
    /// `true` or `false`.
    Boolean(bool),
    /// A value of an enum: a name other than `true`, `false` and `null`.
    Enum(Name),
    /// The items of a list, in their order.
    List(Vec<ConstValue>),
    /// The fields of an object. A parser gives each name once, in the order of first occurrence.
    Object(Vec<(Name, ConstValue)>),
}

/// A value in which variables may stand, as in an argument of a field.
///
/// Two values are equal where they are the same case over equal parts, as for [`ConstValue`].
#[derive(Debug, Drop)]
pub enum Value {
    /// A variable, by its name without the `$`.
    Variable(Name),
    /// `null`.
    Null,
    /// A number, by its literal.
    Number(Number),
    /// What a string or a block string stands for.
    String(String),
    /// `true` or `false`.
    Boolean(bool),
    /// A value of an enum: a name other than `true`, `false` and `null`.
    Enum(Name),
    /// The items of a list, in their order.
    List(Vec<Value>),
    /// The fields of an object. A parser gives each name once, in the order of first occurrence.
    Object(Vec<(Name, Value)>),
}

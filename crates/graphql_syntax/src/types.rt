//! What the trees of requests and of schema files share, by the GraphQL specification, October 2021.
//!
//! A tree keeps each node at its place: a node stands where its first token begins. All fields are
//! public, and a tree that a caller builds is as good as one that was read.
mod convert;
mod directive_clones;
mod equality;
pub mod lookup;
mod type_clones;
mod type_text;

ghost use Rattle.std.specs.Prelude.{◌≡◌, Some, option_map};
ghost use Rattle.graphql_syntax.specs.calls.Named.{argument_named};
ghost use Rattle.graphql_syntax.specs.calls.Words.{operation_word};

use crate::pos::Positioned;
use crate::value::{ConstValue, Name, Value};
use serde::{Deserialize, Serialize};
use std::fmt;

/// The kind of an operation (section 2.3), and of a root of a schema (section 3.3.1).
#[derive(Clone, Copy, Debug, PartialEq, Eq, Serialize, Deserialize)]
pub enum OperationType {
    /// A read, `query`.
    Query,
    /// A write that is followed by a read, `mutation`.
    Mutation,
    /// A long-lived request for events, `subscription`.
    Subscription,
}

/// The keyword: `query`, `mutation` or `subscription` (October 2021, section 2.3). A width, a precision or
/// another option of the format changes nothing (this project's choice).
impl fmt::Display for OperationType {
    ghost output = { λ kind. Some (operation_word kind) };

    ghost styled_output = { λ kind _. Some (operation_word kind) };

    fn fmt<W: fmt::Write>(&self, f: &mut fmt::Formatter<W>) -> fmt::Result {
        f.write_str(match self {
            OperationType::Query => "query",
            OperationType::Mutation => "mutation",
            OperationType::Subscription => "subscription",
        })
    }
}

/// A type reference, as `[Int!]` (section 2.11).
///
/// Two type references are equal where they have the same names, lists and marks.
#[cycle(types)]
#[derive(Debug, Drop, Serialize, Deserialize)]
#[serde(recursive)]
pub struct Type {
    /// The type without its mark.
    #[serde(recursive)]
    pub base: BaseType,
    /// Whether null is a value of the type: no `!` follows it.
    pub nullable: bool,
}

/// A type reference without its mark: a name, or a list.
#[cycle(types)]
#[derive(Debug, Drop, Serialize, Deserialize)]
#[serde(recursive)]
pub enum BaseType {
    /// A type by its name.
    Named(Name),
    /// The lists of a type.
    List(#[serde(recursive)] Box<Type>),
}

/// A directive in whose arguments no variable stands, as in a schema file (section 2.12).
///
/// The node stands at its `@`.
#[derive(Debug, Drop)]
pub struct ConstDirective {
    /// The name after the `@`.
    pub name: Positioned<Name>,
    /// The arguments, in source order. One name may come twice.
    pub arguments: Vec<(Positioned<Name>, Positioned<ConstValue>)>,
}

/// A directive in whose arguments variables may stand (section 2.12).
///
/// The node stands at its `@`.
#[derive(Debug, Drop)]
pub struct Directive {
    /// The name after the `@`.
    pub name: Positioned<Name>,
    /// The arguments, in source order. One name may come twice.
    pub arguments: Vec<(Positioned<Name>, Positioned<Value>)>,
}

impl ConstDirective {
    /// The value of the first argument of this name; None where there is none.
    pub fn get_argument(&self, name: &str) -> Option<&Positioned<ConstValue>>
        ensures { option_map (λ v. v.now) result ≡
            argument_named name.now self.now.arguments.items }
    {
        lookup::find_argument(&self.arguments, name)
    }
}

impl Directive {
    /// The value of the first argument of this name; None where there is none.
    pub fn get_argument(&self, name: &str) -> Option<&Positioned<Value>>
        ensures { option_map (λ v. v.now) result ≡
            argument_named name.now self.now.arguments.items }
    {
        lookup::find_argument(&self.arguments, name)
    }
}

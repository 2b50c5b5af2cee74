//! What the trees of GraphQL texts (October 2021) share: values, types, directives and the kinds of operations.
//!
//! Proved of it: `Type::new` accepts exactly its texts; conversions keep trees, and a constant can be made a
//! value and back; equality of values and types is that of their trees; a clone of a value, a type or a
//! directive has the same tree; accessors give what stands in the tree; a view of a value has the value's tree, and
//! its text is the written one, in which a string in quotes means what it stands for.
//!
//! Places, names, numbers, tokens and what strings mean are those of `graphql_tokens`, whose modules this crate
//! exports too. What a reader of the contracts has to believe stands in `specs/trees` and `specs/calls`, and in
//! the public specs of `graphql_tokens`; `specs/inner` is inner. Every call that takes memory is handed the
//! allocator, and answers an error where memory runs out.
#![tactic(auto)]

pub use graphql_tokens::{lexer, pos, text};

pub mod types;
pub mod value;

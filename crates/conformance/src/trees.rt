//! Trees as text, with the place of every node, so that a table compares an answer whole.
//!
//! A name, a type or a value stands before its place, as `a@1:2`; any other node is written in brackets,
//! after the word for it, as `(field 1:2 a@1:2)`. A selection set is `{1:1 ..}`, and nothing where a text
//! leaves it out: then it is empty and stands at 0:0. An argument is `name@1:4=value@1:6`. Strings are
//! written between `'` as they are, an enum's name after a point. Where two places belong to one node, as
//! those of a selection and of the field in it, both are written only where they differ, as `1:2/1:3`.
mod parts;
pub mod plain;
mod request;
mod schema;
mod values;

pub use parts::{write_directives, write_value};
pub use request::write_default_value;
pub use schema::keyword;
pub use values::Written;

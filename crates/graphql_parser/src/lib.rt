//! A parser of GraphQL: a text goes in, a request or a schema file; one tree with the place of each node, or one
//! named error, comes out.
//!
//! Proved of `parse_query` and `parse_schema`, and of their `_limited` and `_from` forms, unless the answer is `OutOfMemory`:
//! where the text's tokens have a tree within the limits, it is the only one, and it is given, or else the first rule that it
//! breaks is told. Where they have none, the answer is `RecursionLimitExceeded` or `Syntax`, at the first token whose
//! front no document completes, and which of the two it is depends on whether a deeper one does. The texts and the
//! places of each `Error` are written definitions too. `check_query`, `check_schema` and
//! their forms answer as the parses do, and make no tree.
//!
//! Proved of their `_within` forms also: by the count of the caller's [`Memory`] a text of n bytes and t tokens takes at most
//! 1,104 t + n + 57 bytes, so at most 1,105 n + 1,161, and `OutOfMemory` is returned only if by that count a request was denied,
//! by the heap or because less than that was left. That nothing is allocated beside the `Memory`, and that it denies only if the
//! heap or the budget does, is kept by the shape of the code, and tested.
//!
//! A user names this crate alone: the checks stand in the module `check`, and all else is given out from the crates
//! below. What a reader of the contracts has to believe is given out by `specs/Lib.antt`.
#![tactic(auto)]

mod check;
pub mod types;

pub use check::{
    check_query, check_query_from, check_query_limited, check_query_to, check_query_within,
    check_schema, check_schema_from, check_schema_limited, check_schema_to, check_schema_within,
};
pub use graphql_grammar::error::{Error, Result};
pub use graphql_grammar::positions::ErrorPositions;
pub use graphql_memory::Memory;
pub use graphql_reading::limits::Limits;
pub use graphql_requests::{
    parse_query, parse_query_from, parse_query_limited, parse_query_within,
};
pub use graphql_schemas::{
    parse_schema, parse_schema_from, parse_schema_limited, parse_schema_within,
};
pub use graphql_syntax::value;
pub use graphql_tokens::pos::{Pos, Positioned};
pub use graphql_tokens::{lexer, pos, text};
pub use indexmap::IndexMap;

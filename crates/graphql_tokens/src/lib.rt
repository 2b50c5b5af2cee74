//! The pieces of GraphQL texts (October 2021): places, names, numbers, what strings mean, and tokens.
//!
//! Proved of it: `lexer::Tokens` gives the one token list of each text, with spellings, byte offsets and
//! places; `pos::PositionCalculator` finds places in one walk that never goes back; `string_value` and
//! `block_string_value` give what strings and block strings mean; `Number::new` accepts exactly the number
//! literals; equality and clones of names and numbers are those of their texts.
//!
//! What a reader of the contracts has to believe stands in `specs/tokens` and `specs/calls`; `specs/inner` is
//! inner. Every call that takes memory is handed the allocator, and fails where memory runs out.
#![tactic(auto)]

pub mod lexer;
pub mod name;
pub mod number;
pub mod pos;
mod small_text;
pub mod text;

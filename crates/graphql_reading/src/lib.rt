//! What the grammars of requests and schema files are written in and read with, whatever their trees are: the
//! notation of the grammar, limits, fronts and verdicts; the parser with one token of lookahead; and the theory of
//! readers that follow a production exactly.
//!
//! Proved of it: the parser shows the tokens that are left of the lexer's list and takes one only when the one in
//! hand is used up. Proved of any grammar whose reader keeps the laws of `proofs/ReadsExactly`, `proofs/IgnoresPlaces` and
//! `proofs/Extra`: what the reader gives is the one tree, and what it refuses is the refused token, as
//! `specs/grammar/Fronts` defines both.
//!
//! It is for the parsers of this project; users meet `Limits` alone, which `graphql_parser` gives out. What a reader
//! of the parsers' contracts has to believe stands in `specs/grammar`; `specs/reading` is inner.
#![tactic(auto)]

pub mod limits;
pub mod names;
pub mod parser;
pub mod production;
mod room;

//! What requests and schema files share: types, values, arguments, directives and default values (GraphQL
//! October 2021, sections 2.6 and 2.9 to 2.12), each as a written production and as a reader; the errors of the
//! parsers, and what an answer of a parser means, whichever language it reads.
//!
//! Proved of each reader, unless memory runs out: where a phrase within the limits begins with the lookahead, its
//! tree is given, and the token after it is the lookahead; else the reading stops with the first lookahead with which no
//! phrase goes on, and says whether a deeper one does. Proved of any language whose reader follows its grammar
//! exactly: the clauses of the public calls.
//!
//! Its readers are for the parsers of this project, not for users. What a reader of the parsers' contracts has
//! to believe stands in `specs/grammar`, `specs/answers` and `specs/errors`; `specs/reading` is inner.
#![tactic(auto)]

pub mod arguments;
pub mod document;
pub mod error;
pub mod operations;
pub mod positions;
pub mod refusals;
pub mod strings;
pub mod types;
pub mod value;

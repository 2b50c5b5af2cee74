//! What is done with one text: whether it is good ([`check`]), what it is read as ([`language`]), its errors one after
//! another ([`errors`]) and where reading goes on after each ([`recovery`]), what is wrong with it as data, with what
//! mends it ([`diagnoses`]), and the text written anew ([`rewriting`]).
//!
//! Proved: it is safe and ends on every input; a text is found good only if its tokens have a tree; a text without a
//! diagnosis is good, and all that a diagnosis shows is within it; a text that is written anew means the same, and so
//! does what is printed of its tree.
#![tactic(auto)]

pub mod check;
mod closing;
pub mod diagnoses;
pub mod errors;
pub mod language;
pub mod recovery;
pub mod rewriting;

pub use closing::Missing;
pub use diagnoses::{Diagnosis, Fix, Other, Span, diagnoses_from, diagnoses_of};
pub use graphql_report::Language;

//! Reports for people: what is wrong with a text, where, and what could have stood there.
//!
//! [`explain`] makes a report of an error that a parser of `graphql_parser` returned: the message with the file, the line
//! and the column, the line itself with a caret under the place, and the second place if an error has two. Of a
//! rejected token it reports what was found, and what is expected: exactly those of the samples in the module `samples`
//! that the parser takes there. Of a limit it reports which one, and how great it is.
//!
//! [`finding_of`] returns the same in parts, for a program that shows it in its own way: the place, where the rejected
//! token ends, the name of the error's status, and the message. [`refused_token`] returns the rejected token itself.
//!
//! One check of the text finds the rejected token. The text before it is read once more, to find what is left to be
//! read of a document after it, as a list of phrases of the grammar: what begins that list is expected, and the end if
//! it is empty but for the end. If that text is no viable front, each sample is asked of a check. So a report of a
//! rejected text takes two readings by the grammar, whatever the text is, and a third for a limit; the list is as long
//! as the text nests, and one copy of the text is kept. A caller that read a text from a later line on says so, and
//! what stands before isn't checked again: it has the rejected token from [`refused_token_from`], and hands it on with
//! what it knows ([`ReadUpTo`], [`explain_from`], [`finding_from`]).
//!
//! Proved of it, unless memory runs out: `is_front` returns true exactly if the tokens of a text are a viable front, in
//! both languages and at all limits; the token that is returned is the one at which the text is rejected; what is
//! expected is exactly those of the samples, in their order, that can stand after the text before the rejected token, a
//! keyword only if a name can't, and the end of the text if that text is a whole document; if that text has no fault,
//! every token that can stand after it is called by one of the names that are reported, and every name by which no end
//! is meant is that of such a token; a hint has one of a few forms, and the word that it asks for is expected; what is
//! wrong where no token begins is reported in the words of a table; a report begins with the place of the error, or of
//! the first bad escape of the rejected string, and its message, and a finding stands at that place, with the word that
//! its hint asks for; the offsets of an error about definitions are those of tokens that have its places; and every
//! call is safe and ends. What a report says in words besides is tested, in `conformance`.
#![tactic(auto)]

mod definitions;
mod excerpt;
mod expected;
mod faults;
mod findings;
mod fronts;
mod hints;
mod left;
mod phrases;
mod probes;
mod productions;
mod refused;
mod report;
mod rests;
mod samples;
mod steps;
mod style;
mod words;

pub use definitions::{ErrorOffsets, SecondPlace, error_offsets};
pub use findings::{Finding, finding_from, finding_of};
pub use fronts::{Language, is_front};
pub use refused::{refused_token, refused_token_from};
pub use report::{explain, explain_from, explain_in};
pub use rests::{ReadFrom, ReadUpTo};
pub use style::Style;

//! The work of the program `gql`, over any source of texts and any writers.
//!
//! [`command_of`] reads what the arguments ask for, and [`run`] does it. The modules have the parts: what a call asks for
//! ([`command`]), where texts come from and go to ([`texts`]), what of a folder is ignored ([`ignoring`]), which files
//! are good ([`check`]), what is reported of them ([`telling`]), files that are rewritten ([`rewriting`]), and lists
//! of tokens ([`listed`]). What is done with one text is `graphql_texts`.
//!
//! Proved of it: it is safe and ends on every input; the status is 0, 1 or 2; a text is found good only if its tokens
//! have a tree, in the language that the options or the file's name say, or if it has no token and may have none, and
//! the files that are checked end with status 0 only if each of them was found good; only a good text is rewritten,
//! and it means the same then, and so does what is printed of a tree; what is put in the place of a file is what was
//! read of it, laid out. What else it prints is tested, in `tests/tables`.
#![tactic(auto)]

pub mod check;
pub mod command;
mod described;
pub mod ignoring;
pub mod listed;
mod output;
mod program;
mod replacing;
pub mod rewriting;
pub mod telling;
pub mod texts;
mod walking;

pub use command::{Command, command_of};
pub use graphql_report::{Language, Style};
pub use program::run;

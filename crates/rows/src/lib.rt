//! What the programs that judge tables of calls share: rows, how they are judged, also at the end of memory, and errors as text.
//!
//! A row is a text, and what a call makes of it.
//!
//! A table begins with the name of its call, and has a row a line:
//!
//! ```text
//! == query whole
//! -- Selections are separated by blanks or by nothing.
//! {a ?} ⇒ syntax 1:4
//! {a b} ⇒ single (query 1:1 {1:1
//!   (field 1:2 a@1:2) (field 1:4 b@1:4)})
//! ```
//!
//! The text stands before the arrow, from the line's first column on: a column of the text is a column of
//! the line. What the call makes of it stands after the arrow, and goes on in each line that begins with two
//! blanks; any number of blanks there is one, and those at its ends don't count. A line that begins with `-- `
//! is a remark, and empty lines are passed over.
//!
//! On both sides of the arrow ␊, ␍ and ␉ stand for a line feed, a carriage return and a tab, and ␠ for a blank
//! where it would not be seen. ⟨1F600⟩ is the character of that number, and ⟨64×a{⟩ is `a{` written 64 times;
//! ⟨3×a№ ⟩ is `a0 a1 a2 `.
//!
//! A table with a line that is only `⇒` is one row: the text stands before the last of these lines, as it is, and what the
//! call makes of it after that, over as many lines as it takes.
//!
//! The tables are the files of the folders `tables` and `refused`. The calls of `tables` are made once. The call of a row of
//! `refused` is made again and again at the end of memory, with a piece of memory more each time: it answers as the row says, or
//! reports that memory was refused. The name of such a table has the kind of what its calls are given, and what they do; if it
//! begins with `without memory, `, they answer each time, and else they have to be refused some memory, too.
//!
//! A program prints how many rows each table has, and the rows that don't hold: its file `stdout` has the counts, and no such row.
//! So a new row is a line of a table, and counts there. Words of the program name the tables to judge. With the word `once` it makes
//! the call of one row once, and prints what came of it: the name of the table and the row stand on standard input. The script
//! `tests/refuse_each.sh` has its requests for memory refused, one after the other.
#![tactic(auto)]

mod answers;
mod errors;
mod little_memory;
mod notation;
mod parsers;
mod row;
mod shown;
mod tables;
mod trying;

pub use answers::{show, show_error, show_made};
pub use errors::write_error;
pub use notation::{meant, number_in, pair};
pub use parsers::{Parser, limits_of, narrow, refused_within};
pub use row::Row;
pub use shown::Shown;
pub use tables::{judge, words};
pub use trying::{Input, try_call};

/// What the calls of a program's tables make of texts.
pub trait Calls: Copy {
    /// Writes what the call of this name makes of a text.
    fn answer(self, shown: &mut Shown, call: &str, text: &str);

    /// Tries the call of a row of the folder `refused`, by `try_call`. False where there is no memory for what it is given.
    fn try_row(self, shown: &mut Shown, row: &Row<'_>) -> bool;
}

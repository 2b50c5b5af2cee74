//! The answers of the parsers, and their errors, as text; and what the rows of a table ask of a parser. Whatever is asked of
//! a parser is asked of its check too, and where that answers otherwise, the row fails.
mod answers;
mod asked;
mod budgets;
mod hostile;
mod taken;
mod views;

pub use asked::write_asked;
pub use views::{constant_directive, constant_of};

//! How answers show at the end of memory. Showing takes no memory, and each function says whether there was an answer to show: else memory
//! was refused.
use crate::Shown;
use graphql_parser::Error;
use std::alloc::AllocError;
use std::fmt;

/// Shows an answer.
pub fn show<T: fmt::Display>(shown: &mut Shown, item: &T) -> bool {
    shown.item("", item);
    true
}

/// Shows what was made, if it was.
pub fn show_made<T: fmt::Display + Drop>(shown: &mut Shown, made: Result<T, AllocError>) -> bool {
    match made {
        Ok(item) => show(shown, &item),
        Err(_) => false,
    }
}

/// Shows an error with its places.
pub fn show_error(shown: &mut Shown, error: &Error) -> bool {
    if matches!(error, Error::OutOfMemory) {
        return false;
    }
    shown.item("", error);
    for place in error.positions() {
        shown.item(" ", &place);
    }
    true
}

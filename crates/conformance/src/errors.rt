//! Errors: what they print, and the places that they name.
use graphql_parser::types::OperationType;
use graphql_parser::value::Name;
use graphql_parser::{Error, ErrorPositions, Pos};
use rows::{Shown, pair, write_error};
use std::alloc::{AllocError, Global};

const A: Pos = Pos { line: 1, column: 2 };

const B: Pos = Pos { line: 3, column: 4 };

const C: Pos = Pos { line: 1, column: 5 };

/// Writes what is said of the errors that a row names.
///
/// - `printed`: what an error prints, and its places as JSON; and whether a copy is equal and shown as the error is
/// - `equality`: how two errors compare
/// - `places`: what the places of an error return when they are taken from the front, by `next`, and from the back, by
///   `back`: after each place those that are left
pub fn write_part(shown: &mut Shown, part: &str, row: &str) {
    let (what, rest) = match part {
        "equality" => pair(row, " and "),
        "places" => pair(row, ": "),
        _ => (row, ""),
    };
    match named(shown.alloc(), what) {
        Some(error) => write_part_of(shown, part, &error, rest),
        None => shown.word("no such error"),
    }
}

fn write_part_of(shown: &mut Shown, part: &str, error: &Error, rest: &str) {
    match part {
        "printed" => write_printed(shown, error),
        "equality" => match named(shown.alloc(), rest) {
            Some(other) => shown.word(if *error == other {
                "equal"
            } else {
                "different"
            }),
            None => shown.word("no such error"),
        },
        "places" => write_steps(shown, error.positions(), rest),
        _ => shown.word("no such part"),
    }
}

// The error of this name.
fn named(alloc: Global, what: &str) -> Option<Error> {
    match what {
        "queries" => Some(several_roots(OperationType::Query)),
        "mutations" => Some(several_roots(OperationType::Mutation)),
        "subscriptions" => Some(several_roots(OperationType::Subscription)),
        "no query" => Some(Error::MissingQueryRoot { pos: A }),
        "no query elsewhere" => Some(Error::MissingQueryRoot { pos: B }),
        _ => request_named(alloc, what),
    }
}

fn several_roots(root: OperationType) -> Error {
    Error::MultipleRoots {
        root,
        schema: A,
        pos: B,
    }
}

fn request_named(alloc: Global, what: &str) -> Option<Error> {
    match what {
        "operations" => Some(Error::MultipleOperations {
            anonymous: A,
            operation: B,
        }),
        "operation twice" => operation_twice(Name::new(alloc, "Q_1")),
        "fragment twice" => fragment_twice(Name::new(alloc, "F")),
        "no operation" => Some(Error::MissingOperation),
        _ => other_named(alloc, what),
    }
}

fn operation_twice(operation: Result<Name, AllocError>) -> Option<Error> {
    Some(Error::OperationDuplicated {
        operation: operation.ok()?,
        first: A,
        second: B,
    })
}

fn fragment_twice(fragment: Result<Name, AllocError>) -> Option<Error> {
    Some(Error::FragmentDuplicated {
        fragment: fragment.ok()?,
        first: A,
        second: B,
    })
}

fn other_named(alloc: Global, what: &str) -> Option<Error> {
    match what {
        "limit" => Some(Error::RecursionLimitExceeded),
        "memory" => Some(Error::OutOfMemory),
        "refused memory" => Some(Error::from(AllocError)),
        _ => syntax_named(alloc, what),
    }
}

fn syntax_named(alloc: Global, what: &str) -> Option<Error> {
    let (message, end) = match what {
        "syntax" => ("syntax error at 1:2", None),
        "syntax with an end" => ("syntax error at 1:2", Some(B)),
        "syntax with another end" => ("syntax error at 1:2", Some(C)),
        "syntax with a message" => ("no\n\u{e9}", None),
        "syntax without a message" => ("", None),
        _ => return None,
    };
    Some(Error::Syntax {
        message: String::from_str(alloc, message).ok()?,
        start: A,
        end,
    })
}

// What an error prints, and its places as JSON.
fn write_printed(shown: &mut Shown, error: &Error) {
    shown.item("", error);
    write_places(shown, &error.positions());
    match error.clone() {
        Ok(copy) if copy == *error => write_unless_alike(shown, error, &copy),
        Ok(_) => shown.word(" with another copy"),
        Err(_) => shown.leave_out(),
    }
}

fn write_places(shown: &mut Shown, places: &ErrorPositions) {
    match serde_json::to_string(shown.alloc(), places) {
        Ok(places) => shown.item(" ", &places),
        Err(_) => shown.leave_out(),
    }
}

fn write_unless_alike(shown: &mut Shown, error: &Error, copy: &Error) {
    let mut one = Shown::new(shown.alloc(), true);
    write_error(&mut one, error);
    let mut other = Shown::new(shown.alloc(), true);
    write_error(&mut other, copy);
    if one.whole() != other.whole() {
        shown.word(" with a copy that is shown otherwise");
    }
}

// What places return when they are taken from both ends, and what is left after each.
fn write_steps(shown: &mut Shown, mut places: ErrorPositions, steps: &str) {
    shown.word("all");
    write_left(shown, &places);
    for step in steps.split_whitespace() {
        let place = match step {
            "back" => places.next_back(),
            _ => places.next(),
        };
        match place {
            Some(place) => shown.place(" ", &place),
            None => shown.word(" none"),
        }
        write_left(shown, &places);
    }
}

// What is left, by a copy, and that its number is another, if it is.
fn write_left(shown: &mut Shown, left: &ErrorPositions) {
    let Ok(copy) = left.clone() else {
        return shown.leave_out();
    };
    let mut count = 0usize;
    shown.word(" [");
    for place in copy {
        shown.place(" ", &place);
        count = count.saturating_add(1);
    }
    shown.word(" ]");
    if left.len() != count || left.size_hint() != (count, Some(count)) {
        shown.word(" (not counted)");
    }
}

//! Errors as text.
use crate::Shown;
use graphql_parser::value::Name;
use graphql_parser::{Error, Pos};

/// Writes an error, with its fields. One of syntax with the usual message and no end is `syntax 1:4`.
pub fn write_error(shown: &mut Shown, error: &Error) {
    match error {
        Error::Syntax {
            message,
            start,
            end,
        } => write_syntax(shown, message, start, end),
        Error::MultipleRoots { root, schema, pos } => {
            shown.item("multiple roots ", root);
            write_two(shown, " schema ", *schema, " pos ", *pos);
        }
        Error::MissingQueryRoot { pos } => shown.place("missing query root pos ", pos),
        Error::MultipleOperations {
            anonymous,
            operation,
        } => {
            shown.word("multiple operations");
            write_two(shown, " anonymous ", *anonymous, " operation ", *operation);
        }
        Error::OperationDuplicated {
            operation,
            first,
            second,
        } => write_duplicated(shown, "operation ", operation, *first, *second),
        Error::FragmentDuplicated {
            fragment,
            first,
            second,
        } => write_duplicated(shown, "fragment ", fragment, *first, *second),
        Error::MissingOperation => shown.word("missing operation"),
        Error::RecursionLimitExceeded => shown.word("recursion limit exceeded"),
        Error::OutOfMemory => shown.word("out of memory"),
    }
}

// An error of syntax, with its message where that is not the usual one.
fn write_syntax(shown: &mut Shown, message: &String, start: &Pos, end: &Option<Pos>) {
    let mut usual = Shown::new(shown.alloc(), true);
    usual.item("syntax error at ", start);
    shown.place("syntax ", start);
    if usual.whole() != Some(message.as_str()) {
        shown.item(" '", message);
        shown.word("'");
    }
    if let Some(end) = end {
        shown.place(" end ", end);
    }
}

fn write_two(shown: &mut Shown, before: &str, first: Pos, between: &str, second: Pos) {
    shown.place(before, &first);
    shown.place(between, &second);
}

fn write_duplicated(shown: &mut Shown, what: &str, name: &Name, first: Pos, second: Pos) {
    shown.item(what, name);
    write_two(shown, " duplicated first ", first, " second ", second);
}

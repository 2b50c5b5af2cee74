//! Why a text is refused.
ghost use Rattle.std.specs.Prelude.{◌≡◌, Some};
ghost use Rattle.graphql_grammar.specs.errors.Errors.{error_text, error_places, AreEqualErrors};
ghost use Rattle.graphql_grammar.specs.errors.Small.{IsSmallError};
ghost use Rattle.graphql_grammar.specs.declared.error.Error.TheVariants.{OutOfMemory};

use crate::positions::ErrorPositions;
use graphql_syntax::pos::Pos;
use graphql_syntax::types::OperationType;
use graphql_syntax::value::Name;
use std::alloc::AllocError;
use std::fmt;

/// What a parser answers.
pub type Result<T> = std::result::Result<T, Error>;

/// Why a text is refused.
///
/// Each place is a line and a column, both counted from 1. The names of the cases and of their fields,
/// and the texts, are those of the Rust crate `async-graphql-parser`; `OutOfMemory` is this project's own.
#[derive(Debug, PartialEq, Eq, Drop)]
pub enum Error {
    /// The text has no tree: no tree completes the tokens up to and with the one at `start`.
    Syntax {
        /// What is printed; a parser writes `syntax error at L:C`, with the place of `start`.
        message: String,
        /// The place of the refused token.
        start: Pos,
        /// The end of what is refused, where it is known. A parser leaves it out.
        end: Option<Pos>,
    },
    /// A schema definition or extension names a root operation type twice (GraphQL October 2021,
    /// section 3.3.1).
    MultipleRoots {
        /// The kind of operation that was given twice.
        root: OperationType,
        /// The place of the definition or extension.
        schema: Pos,
        /// The place of the repeated keyword.
        pos: Pos,
    },
    /// A schema definition names no query root (GraphQL October 2021, section 3.3.1).
    MissingQueryRoot {
        /// The place of the definition.
        pos: Pos,
    },
    /// An operation without a name is not the only operation (GraphQL October 2021, section 5.2.2.1).
    MultipleOperations {
        /// The place of the operation without a name.
        anonymous: Pos,
        /// The place of another operation.
        operation: Pos,
    },
    /// Two operations have one name (GraphQL October 2021, section 5.2.1.1).
    OperationDuplicated {
        /// The name.
        operation: Name,
        /// The place of the earlier one.
        first: Pos,
        /// The place of the later one.
        second: Pos,
    },
    /// Two fragments have one name (GraphQL October 2021, section 5.5.1.1).
    FragmentDuplicated {
        /// The name.
        fragment: Name,
        /// The place of the earlier one.
        first: Pos,
        /// The place of the later one.
        second: Pos,
    },
    /// A request has fragments alone (this project's choice, as the Rust crate's).
    MissingOperation,
    /// Selection sets, values or types nest too deep: within the limits no tree completes the text up to
    /// and with the refused token, and without limits one does.
    RecursionLimitExceeded,
    /// Memory ran out.
    OutOfMemory,
}

impl Error {
    /// The places that the error names, from the most important to the least: none, one or two. It takes
    /// no memory.
    pub fn positions(&self) -> ErrorPositions
        ensures { result ≡ error_places self.now }
    {
        match self {
            Error::Syntax {
                start,
                end: Some(end),
                ..
            } => ErrorPositions::two(*start, *end),
            Error::Syntax {
                start,
                end: None,
                ..
            } => ErrorPositions::one(*start),
            Error::MultipleRoots { schema, pos, .. } => ErrorPositions::two(*pos, *schema),
            Error::MissingQueryRoot { pos } => ErrorPositions::one(*pos),
            Error::MultipleOperations {
                anonymous,
                operation,
            } => ErrorPositions::two(*anonymous, *operation),
            Error::OperationDuplicated { first, second, .. } => {
                ErrorPositions::two(*second, *first)
            }
            Error::FragmentDuplicated { first, second, .. } => {
                ErrorPositions::two(*second, *first)
            }
            Error::MissingOperation | Error::RecursionLimitExceeded | Error::OutOfMemory => {
                ErrorPositions::none()
            }
        }
    }
}

/// An equal error. A clone fails only where no memory is left for its message, or for a name of more than 22 bytes.
impl Clone for Error {
    ghost is_clone = { AreEqualErrors };

    ghost is_infallible = { IsSmallError };

    fn clone(&self) -> std::result::Result<Error, AllocError> {
        match self {
            Error::Syntax {
                message,
                start,
                end,
            } => Ok(Error::Syntax {
                message: message.clone()?,
                start: *start,
                end: *end,
            }),
            Error::MultipleRoots { root, schema, pos } => Ok(Error::MultipleRoots {
                root: *root,
                schema: *schema,
                pos: *pos,
            }),
            Error::MissingQueryRoot { pos } => Ok(Error::MissingQueryRoot { pos: *pos }),
            Error::MultipleOperations {
                anonymous,
                operation,
            } => Ok(Error::MultipleOperations {
                anonymous: *anonymous,
                operation: *operation,
            }),
            Error::OperationDuplicated {
                operation,
                first,
                second,
            } => Ok(Error::OperationDuplicated {
                operation: operation.clone()?,
                first: *first,
                second: *second,
            }),
            Error::FragmentDuplicated {
                fragment,
                first,
                second,
            } => Ok(Error::FragmentDuplicated {
                fragment: fragment.clone()?,
                first: *first,
                second: *second,
            }),
            Error::MissingOperation => Ok(Error::MissingOperation),
            Error::RecursionLimitExceeded => Ok(Error::RecursionLimitExceeded),
            Error::OutOfMemory => Ok(Error::OutOfMemory),
        }
    }
}

/// One line, without the places of `positions`; only a message of `Syntax` may be longer.
impl fmt::Display for Error {
    ghost output = { λ e. Some (error_text e) };

    fn fmt<W: fmt::Write>(&self, f: &mut fmt::Formatter<W>) -> fmt::Result {
        match self {
            Error::Syntax { message, .. } => f.write_str(message.as_str()),
            Error::MultipleRoots { root, .. } => {
                let root = *root;
                write!(f, "multiple {root} roots in schema definition")
            }
            Error::MissingQueryRoot { .. } => f.write_str(
                "schema definition is missing query root",
            ),
            Error::MultipleOperations { .. } => f.write_str(
                "document contains multiple operations",
            ),
            Error::OperationDuplicated { operation, .. } => {
                write!(f, "operation {operation} is defined twice")
            }
            Error::FragmentDuplicated { fragment, .. } => {
                write!(f, "fragment {fragment} is defined twice")
            }
            Error::MissingOperation => f.write_str("document does not contain an operation"),
            Error::RecursionLimitExceeded => f.write_str("recursion limit exceeded."),
            Error::OutOfMemory => f.write_str("out of memory"),
        }
    }
}

impl std::error::Error for Error {}

impl From<AllocError> for Error {
    ghost from_gives = { λ _ error. error ≡ OutOfMemory };

    fn from(_refused: AllocError) -> Self {
        Self::OutOfMemory
    }
}

//! The statuses.
ghost use Rattle.std.specs.Prelude.{◌≡◌};
ghost use Rattle.graphql_parser_c.specs.Statuses.{number_of, error_status};

use graphql_parser::Error;

/// What a call says of its text. The numbers are part of the interface and never change.
#[derive(Clone, Copy, Debug, PartialEq, Eq)]
pub enum Status {
    /// The text has its one tree within the limits, and breaks no rule.
    Accepted = 0,
    /// Memory ran out; nothing is said of the text.
    OutOfMemory = 1,
    /// The text isn't UTF-8, so it wasn't read.
    NotUtf8 = 2,
    /// One of the three limits is over 256, so the text wasn't read.
    LimitTooLarge = 3,
    /// The text has no tree: the token at the first place is the first with which no document continues.
    Syntax = 4,
    /// The text has no tree within the limits, and its rejected token could continue without them.
    RecursionLimitExceeded = 5,
    /// A request has an operation without a name beside another: at the first place, and at the second.
    MultipleOperations = 6,
    /// Two operations have one name: the later stands at the first place, the earlier at the second.
    OperationDuplicated = 7,
    /// Two fragments have one name: the later stands at the first place, the earlier at the second.
    FragmentDuplicated = 8,
    /// A request has fragments alone.
    MissingOperation = 9,
    /// A schema names a root twice: again at the first place; the schema stands at the second.
    MultipleRoots = 10,
    /// The schema at the first place names no query root.
    MissingQueryRoot = 11,
}

impl Status {
    /// The number that stands for this status in C.
    pub fn number(self) -> u32
        ensures { result ≡ number_of self }
    {
        self as u32
    }
}

/// The status of an error.
pub fn status_of_error(error: &Error) -> Status
    ensures { result ≡ error_status error.now }
{
    match error {
        Error::Syntax { .. } => Status::Syntax,
        Error::MultipleRoots { .. } => Status::MultipleRoots,
        Error::MissingQueryRoot { .. } => Status::MissingQueryRoot,
        Error::MultipleOperations { .. } => Status::MultipleOperations,
        Error::OperationDuplicated { .. } => Status::OperationDuplicated,
        Error::FragmentDuplicated { .. } => Status::FragmentDuplicated,
        Error::MissingOperation => Status::MissingOperation,
        Error::RecursionLimitExceeded => Status::RecursionLimitExceeded,
        Error::OutOfMemory => Status::OutOfMemory,
    }
}

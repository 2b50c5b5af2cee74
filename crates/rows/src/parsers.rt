//! The two parsers, and limits in rows.
use crate::notation::{number_in, pair};
use graphql_parser::{
    Error, Limits, Memory, check_query_within, check_schema_within, parse_query_within,
    parse_schema_within,
};

/// A parser, and its check.
#[derive(Clone, Copy)]
pub enum Parser {
    /// The parser of requests.
    Query,
    /// The parser of schema files.
    Schema,
}

/// The error of a parser or of its check within a budget and the default limits, if it returns one.
pub fn refused_within(
    memory: &mut Memory,
    parser: Parser,
    is_check: bool,
    text: &str,
) -> Option<Error> {
    let limits = Limits::default();
    match parser {
        Parser::Query if is_check => check_query_within(memory, text, limits).err(),
        Parser::Query => parse_query_within(memory, text, limits).err(),
        Parser::Schema if is_check => check_schema_within(memory, text, limits).err(),
        Parser::Schema => parse_schema_within(memory, text, limits).err(),
    }
}

/// The limits of three numbers in one text, with blanks between them.
pub fn limits_of(text: &str) -> Option<Limits> {
    let (selections, rest) = pair(text, " ");
    let (values, types) = pair(rest, " ");
    Limits::new(number_in(selections), number_in(values), number_in(types))
}

/// Limits within which little may nest.
pub fn narrow() -> Limits {
    Limits::new(1, 1, 1).unwrap_or(Limits::default())
}

//! The reader of type references that makes no tree, by GraphQL October 2021, section 2.11.
ghost use Rattle.graphql_parser.specs.Checked.{Checks, Calm};
ghost use Rattle.graphql_grammar.specs.reading.Types.{type_at};

use graphql_grammar::types::open_lists;
use graphql_reading::limits::Limits;
use graphql_reading::parser::{Parser, Reading};

/// Reads a type reference (GraphQL October 2021, section 2.11). A list of it opens at each `[`, and as many close after
/// the name.
///
/// `Type : Name '!'? | '[' Type ']' '!'?`
pub fn check_type(parser: &mut Parser, limits: Limits) -> Reading<()>
    ensures checks { Checks result parser.old parser.new (type_at limits.types) }
    ensures calm { Calm parser.old parser.new }
{
    let opened = open_lists(parser, limits)?;
    parser.expect_name()?;
    parser.take_punct("!");
    for _ in 0..opened {
        parser.expect_punct("]")?;
        parser.take_punct("!");
    }
    Ok(())
}

//! The check of the fields of object types and interfaces, by GraphQL October 2021, section 3.6.
ghost use Rattle.graphql_tokens.specs.declared.pos.Positioned.{Positioned};
ghost use Rattle.graphql_trees.specs.trees.Schema as trees;
ghost use Rattle.graphql_schemas.specs.reading.Fields.{field_definition_at};
ghost use Rattle.graphql_schemas.specs.reading.InputValues.{member_first};

use crate::check::arguments::check_const_directives;
use crate::check::production::Phrase;
use crate::check::schemas::descriptions::check_maybe_description;
use crate::check::schemas::input_values::check_maybe_arguments_definition;
use crate::check::types::check_type;
use graphql_reading::limits::Limits;
use graphql_reading::parser::{Parser, Reading};
use graphql_schemas::input_values::is_at_member;

/// `FieldDefinition : Description? Name ArgumentsDefinition? ':' Type Directives[Const]?` (GraphQL October 2021,
/// section 3.6)
pub struct FieldPhrase;

impl Phrase for FieldPhrase {
    ghost Tree = { Positioned trees.FieldDefinition };

    ghost first = { member_first };

    ghost reader = { field_definition_at };

    fn is_next(parser: &Parser) -> bool {
        is_at_member(parser)
    }

    fn check(parser: &mut Parser, limits: Limits) -> Reading<()> {
        check_maybe_description(parser)?;
        parser.expect_name()?;
        check_maybe_arguments_definition(parser, limits)?;
        parser.expect_punct(":")?;
        check_type(parser, limits)?;
        check_const_directives(parser, limits)
    }
}

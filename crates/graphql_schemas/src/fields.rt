//! Readers of the fields of object types and interfaces, by GraphQL October 2021, section 3.6.
ghost use Rattle.graphql_reading.specs.reading.Worth.{per_token};
ghost use Rattle.graphql_tokens.specs.declared.pos.Positioned.{Positioned};
ghost use Rattle.graphql_syntax.specs.trees.Parts.{placed};
ghost use Rattle.graphql_trees.specs.trees.Schema as trees;
ghost use Rattle.graphql_trees.specs.trees.SchemaViews.{field_definition_tree};
ghost use Rattle.graphql_schemas.specs.reading.Fields.{field_definition_at};
ghost use Rattle.graphql_schemas.specs.reading.InputValues.{member_first};

use crate::descriptions::{place_of, read_maybe_description};
use crate::input_values::{is_at_member, read_maybe_arguments_definition};
use graphql_grammar::arguments::read_const_directives;
use graphql_grammar::types::read_type;
use graphql_reading::limits::Limits;
use graphql_reading::names::read_name;
use graphql_reading::parser::{Parser, Reading};
use graphql_reading::production::Production;
use graphql_syntax::pos::Positioned;
use graphql_trees::FieldDefinition;

/// `FieldDefinition : Description? Name ArgumentsDefinition? ':' Type Directives[Const]?`
pub struct FieldPhrase;

impl Production for FieldPhrase {
    type Node = Positioned<FieldDefinition>;

    ghost Tree = { Positioned trees.FieldDefinition };

    ghost tree = { placed field_definition_tree };

    ghost first = { member_first };

    ghost spare = { per_token };

    ghost reader = { field_definition_at };

    const ROOM: usize = 4;

    #[inline(always)]
    fn is_next(parser: &Parser) -> bool {
        is_at_member(parser)
    }

    fn read(parser: &mut Parser, limits: Limits) -> Reading<Positioned<FieldDefinition>> {
        let description = read_maybe_description(parser)?;
        let name = read_name(parser)?;
        let pos = place_of(&description, name.pos);
        let arguments = read_maybe_arguments_definition(parser, limits)?;
        parser.expect_punct(":")?;
        let ty = read_type(parser, limits)?;
        let directives = read_const_directives(parser, limits)?;
        let field = FieldDefinition {
            description,
            name,
            arguments,
            ty,
            directives,
        };
        Ok(Positioned::new(field, pos))
    }
}

//! Readers of definitions and of schema files, by GraphQL October 2021, section 3.1.
ghost use Rattle.std.specs.Prelude.{◌≡◌};
ghost use Rattle.graphql_reading.specs.reading.Funds.{Pays};
ghost use Rattle.graphql_reading.specs.reading.Worth.{per_token};
ghost use Rattle.graphql_reading.specs.reading.Given.{Gives};
ghost use Rattle.graphql_schemas.specs.grammar.SchemaFile.{Definition as SpecDefinition};
ghost use Rattle.graphql_schemas.specs.reading.SchemaFile.{described_at, extension_at, definition_first, definition_at};
ghost use Rattle.graphql_schemas.specs.reading.Views.{definition_tree};

use crate::descriptions::{is_at_description, place_of, read_maybe_description};
use crate::directives::read_directive_definition;
use crate::schema::{Schema, read_schema, read_schema_extension};
use crate::types::{read_type_body, type_with, word_in_hand};
use graphql_reading::limits::Limits;
use graphql_reading::parser::{Parser, Reading};
use graphql_reading::production::Production;
use graphql_syntax::pos::Positioned;
use graphql_trees::{DirectiveDefinition, TypeDefinition};

/// A definition or an extension, before the rules of schema files are looked at.
#[derive(Drop)]
pub enum Definition {
    /// Of a schema.
    Schema(Positioned<Schema>),
    /// Of a type.
    TypeDef(Positioned<TypeDefinition>),
    /// Of a directive.
    Directive(Positioned<DirectiveDefinition>),
}

/// Whether the lookahead is a definition or an extension.
pub fn is_at_definition(parser: &Parser) -> bool
    ensures { result ≡ definition_first parser.now.hand.bare }
{
    is_at_description(parser)
        || parser.is_at_keyword("extend")
        || parser.is_at_keyword("schema")
        || parser.is_at_keyword("directive")
        || word_in_hand(parser).is_some()
}

/// `TypeSystemExtension : SchemaExtension | TypeExtension`
fn read_extension(parser: &mut Parser, limits: Limits) -> Reading<Definition>
    ensures gives { Gives definition_tree result parser.old parser.new (extension_at limits) }
    ensures pays { Pays per_token result parser.old parser.new }
{
    let extend = parser.expect_keyword("extend")?;
    if parser.is_at_keyword("schema") {
        let schema = read_schema_extension(parser, limits, extend)?;
        return Ok(Definition::Schema(schema));
    }
    let body = read_type_body(parser, limits, true)?;
    let extension = type_with(true, None, body);
    Ok(Definition::TypeDef(Positioned::new(extension, extend.pos)))
}

/// `TypeSystemDefinition : SchemaDefinition | TypeDefinition | DirectiveDefinition`: each may have a description.
fn read_described(parser: &mut Parser, limits: Limits) -> Reading<Definition>
    ensures gives { Gives definition_tree result parser.old parser.new (described_at limits) }
    ensures pays { Pays per_token result parser.old parser.new }
{
    let description = read_maybe_description(parser)?;
    if parser.is_at_keyword("schema") {
        let (word, (directives, roots)) = read_schema(parser, limits)?;
        let pos = place_of(&description, word.pos);
        let schema = Schema {
            description,
            extend: false,
            directives,
            roots,
        };
        return Ok(Definition::Schema(Positioned::new(schema, pos)));
    }
    if parser.is_at_keyword("directive") {
        let directive = read_directive_definition(parser, limits, description)?;
        return Ok(Definition::Directive(directive));
    }
    let body = read_type_body(parser, limits, false)?;
    let pos = place_of(&description, body.word.pos);
    let definition = type_with(false, description, body);
    Ok(Definition::TypeDef(Positioned::new(definition, pos)))
}

impl Production for Definition {
    type Node = Definition;

    ghost Tree = { SpecDefinition };

    ghost tree = { definition_tree };

    ghost first = { definition_first };

    ghost spare = { per_token };

    ghost reader = { definition_at };

    fn is_next(parser: &Parser) -> bool {
        is_at_definition(parser)
    }

    /// `TypeSystemDefinitionOrExtension : TypeSystemDefinition | TypeSystemExtension`
    fn read(parser: &mut Parser, limits: Limits) -> Reading<Definition> {
        if parser.is_at_keyword("extend") {
            return read_extension(parser, limits);
        }
        read_described(parser, limits)
    }
}

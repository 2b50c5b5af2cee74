//! The check of definitions and of schema files, by GraphQL October 2021, section 3.1.
ghost use Rattle.graphql_parser.specs.Checked.{Calm};
ghost use Rattle.std.specs.Prelude.{[]};
ghost use Rattle.graphql_parser.specs.SchemaRules.{first_breach};
ghost use Rattle.graphql_reading.specs.reading.Given.{Gives};
ghost use Rattle.graphql_reading.specs.reading.Outcome.{mapped_at};
ghost use Rattle.graphql_schemas.specs.grammar.Rules.{breach_of};
ghost use Rattle.graphql_schemas.specs.reading.SchemaFile.{described_at, extension_at, definition_at, definitions_at};

use crate::check::schemas::descriptions::check_maybe_description;
use crate::check::schemas::directives::check_directive_definition;
use crate::check::schemas::schema::{check_schema_definition, check_schema_extension};
use crate::check::schemas::types::check_body;
use graphql_grammar::error::Error;
use graphql_reading::limits::Limits;
use graphql_reading::parser::{Parser, Reading};
use graphql_schemas::definitions::is_at_definition;

/// `TypeSystemExtension : SchemaExtension | TypeExtension`: the rule that it breaks, if it breaks one.
fn check_extension(parser: &mut Parser, limits: Limits) -> Reading<Option<Error>>
    ensures gives { Gives (λ breach. breach) result parser.old parser.new
        (mapped_at (breach_of []) (extension_at limits)) }
    ensures calm { Calm parser.old parser.new }
{
    let extend = parser.expect_keyword("extend")?;
    if parser.is_at_keyword("schema") {
        let roots = check_schema_extension(parser, limits)?;
        return Ok(roots.breach(extend.pos, true));
    }
    check_body(parser, limits, true)?;
    Ok(None)
}

/// `TypeSystemDefinition : SchemaDefinition | TypeDefinition | DirectiveDefinition`, each of which may have a
/// description: the rule that it breaks, if it breaks one.
fn check_described(parser: &mut Parser, limits: Limits) -> Reading<Option<Error>>
    ensures gives { Gives (λ breach. breach) result parser.old parser.new
        (mapped_at (breach_of []) (described_at limits)) }
    ensures calm { Calm parser.old parser.new }
{
    let pos = parser.hand().pos;
    check_maybe_description(parser)?;
    if parser.is_at_keyword("schema") {
        let roots = check_schema_definition(parser, limits)?;
        return Ok(roots.breach(pos, false));
    }
    if parser.is_at_keyword("directive") {
        check_directive_definition(parser, limits)?;
    } else {
        check_body(parser, limits, false)?;
    }
    Ok(None)
}

/// `TypeSystemDefinitionOrExtension : TypeSystemDefinition | TypeSystemExtension`: the rule that it breaks, if it
/// breaks one.
fn check_definition(parser: &mut Parser, limits: Limits) -> Reading<Option<Error>>
    ensures gives { Gives (λ breach. breach) result parser.old parser.new
        (mapped_at (breach_of []) (definition_at limits)) }
    ensures calm { Calm parser.old parser.new }
{
    if parser.is_at_keyword("extend") {
        return check_extension(parser, limits);
    }
    check_described(parser, limits)
}

/// `TypeSystemExtensionDocument : TypeSystemDefinitionOrExtension+` (GraphQL October 2021, section 3.1): the first rule
/// that one of them breaks, if one breaks a rule.
pub fn check_definitions(parser: &mut Parser, limits: Limits) -> Reading<Option<Error>>
    ensures gives { Gives (λ breach. breach) result parser.old parser.new
        (mapped_at first_breach (definitions_at limits)) }
    ensures calm { Calm parser.old parser.new }
{
    let mut first: Option<Error> = None;
    loop {
        first = first.or(check_definition(parser, limits)?);
        if !is_at_definition(parser) {
            return Ok(first);
        }
    }
}

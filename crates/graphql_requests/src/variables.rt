//! Readers of variable definitions, by GraphQL October 2021, section 2.10.
ghost use Rattle.std.specs.Prelude.{option_map};
ghost use Rattle.graphql_tokens.specs.declared.pos.Positioned.{Positioned};
ghost use Rattle.graphql_syntax.specs.trees.Parts.{placed};
ghost use Rattle.graphql_trees.specs.trees.Request.{VariableDefinition as SpecVariable};
ghost use Rattle.graphql_syntax.specs.trees.PartViews.{directive_tree};
ghost use Rattle.graphql_trees.specs.trees.RequestViews.{variable_definition_tree};
ghost use Rattle.graphql_syntax.specs.trees.ValueViews.{const_tree};
ghost use Rattle.graphql_reading.specs.grammar.Tests.{punct};
ghost use Rattle.graphql_reading.specs.reading.Funds.{Pays};
ghost use Rattle.graphql_reading.specs.reading.Worth.{per_token};
ghost use Rattle.graphql_reading.specs.reading.Given.{Gives, trees_in};
ghost use Rattle.graphql_requests.specs.reading.Variables.{default_and_directives_at, variable_definition_at};

use graphql_grammar::arguments::{read_directives, read_maybe_default};
use graphql_grammar::types::read_type;
use graphql_reading::limits::Limits;
use graphql_reading::names::read_name;
use graphql_reading::parser::{Parser, Reading};
use graphql_reading::production::Production;
use graphql_syntax::pos::Positioned;
use graphql_syntax::types::Directive;
use graphql_syntax::value::ConstValue;
use graphql_trees::VariableDefinition;

/// A default value and directives, in either order.
///
/// `DefaultValue? Directives? | Directives DefaultValue`
fn read_default_and_directives(
    parser: &mut Parser,
    limits: Limits,
) -> Reading<(Option<Positioned<ConstValue>>, Vec<Positioned<Directive>>)>
    ensures gives { Gives (λ both.
        (option_map (placed const_tree) both.0, trees_in (placed directive_tree) both.1)) result
        parser.old parser.new (default_and_directives_at limits.values) }
    ensures pays { Pays 0 result parser.old parser.new }
{
    if parser.is_at_punct("=") {
        let default_value = read_maybe_default(parser, limits)?;
        let directives = read_directives(parser, limits)?;
        return Ok((default_value, directives));
    }
    let directives = read_directives(parser, limits)?;
    let default_value = read_maybe_default(parser, limits)?;
    Ok((default_value, directives))
}

/// `VariableDefinition : Variable ':' Type (DefaultValue? Directives? | Directives DefaultValue)`, of which
/// `VariableDefinitions : '(' VariableDefinition+ ')'` has one or more.
pub struct VariablePhrase;

impl Production for VariablePhrase {
    type Node = Positioned<VariableDefinition>;

    ghost Tree = { Positioned SpecVariable };

    ghost tree = { placed variable_definition_tree };

    ghost first = { punct "$" };

    ghost spare = { per_token };

    ghost reader = { λ limits. variable_definition_at limits.values limits.types };

    const ROOM: usize = 2;

    #[inline(always)]
    fn is_next(parser: &Parser) -> bool {
        parser.is_at_punct("$")
    }

    fn read(parser: &mut Parser, limits: Limits) -> Reading<Positioned<VariableDefinition>> {
        let dollar = parser.expect_punct("$")?;
        let name = read_name(parser)?;
        parser.expect_punct(":")?;
        let var_type = read_type(parser, limits)?;
        let (default_value, directives) = read_default_and_directives(parser, limits)?;
        let definition = VariableDefinition {
            name,
            var_type,
            directives,
            default_value,
        };
        Ok(Positioned::new(definition, dollar.pos))
    }
}

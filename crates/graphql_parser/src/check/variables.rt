//! Readers of variable definitions that make no tree, by GraphQL October 2021, section 2.10.
ghost use Rattle.graphql_parser.specs.Checked.{Checks, Calm};
ghost use Rattle.graphql_tokens.specs.declared.pos.Positioned.{Positioned};
ghost use Rattle.graphql_trees.specs.trees.Request.{VariableDefinition};
ghost use Rattle.graphql_reading.specs.grammar.Tests.{punct};
ghost use Rattle.graphql_reading.specs.reading.Outcome.{opt_at};
ghost use Rattle.graphql_requests.specs.reading.Variables.{default_and_directives_at, variable_definition_at, variable_definitions_at};

use crate::check::arguments::{check_directives, check_maybe_default};
use crate::check::production::{Phrase, check_maybe_bracketed};
use crate::check::types::check_type;
use graphql_reading::limits::Limits;
use graphql_reading::parser::{Parser, Reading};

/// A default value and directives, in either order.
///
/// `DefaultValue? Directives? | Directives DefaultValue`
fn check_default_and_directives(parser: &mut Parser, limits: Limits) -> Reading<()>
    ensures checks { Checks result parser.old parser.new (default_and_directives_at limits.values) }
    ensures calm { Calm parser.old parser.new }
{
    if parser.is_at_punct("=") {
        check_maybe_default(parser, limits)?;
        return check_directives(parser, limits);
    }
    check_directives(parser, limits)?;
    check_maybe_default(parser, limits)
}

/// `VariableDefinition : Variable ':' Type (DefaultValue? Directives? | Directives DefaultValue)`.
struct VariablePhrase;

impl Phrase for VariablePhrase {
    ghost Tree = { Positioned VariableDefinition };

    ghost first = { punct "$" };

    ghost reader = { λ limits. variable_definition_at limits.values limits.types };

    #[inline(always)]
    fn is_next(parser: &Parser) -> bool {
        parser.is_at_punct("$")
    }

    fn check(parser: &mut Parser, limits: Limits) -> Reading<()> {
        parser.expect_punct("$")?;
        parser.expect_name()?;
        parser.expect_punct(":")?;
        check_type(parser, limits)?;
        check_default_and_directives(parser, limits)
    }
}

/// Reads variable definitions with their brackets, if the lookahead is a `(`; else there are none.
///
/// `VariableDefinitions? : ('(' VariableDefinition+ ')')?` (GraphQL October 2021, section 2.10)
pub fn check_maybe_variable_definitions(parser: &mut Parser, limits: Limits) -> Reading<()>
    ensures checks { Checks result parser.old parser.new
        (opt_at (punct "(") (variable_definitions_at limits.values limits.types)) }
    ensures calm { Calm parser.old parser.new }
{
    check_maybe_bracketed::<VariablePhrase>(parser, "(", ")", limits)
}

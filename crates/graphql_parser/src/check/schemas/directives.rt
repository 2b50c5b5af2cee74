//! The check of definitions of directives, by GraphQL October 2021, section 3.13.
ghost use Rattle.std.specs.Prelude.{Ok};
ghost use Rattle.graphql_tokens.specs.declared.pos.Positioned.{Positioned};
ghost use Rattle.graphql_trees.specs.declared.service.DirectiveLocation.{DirectiveLocation};
ghost use Rattle.graphql_parser.specs.Checked.{Checks, Calm};
ghost use Rattle.graphql_reading.specs.grammar.Tests.{any_name, keyword};
ghost use Rattle.graphql_reading.specs.reading.Outcome.{opt_at, one_at};
ghost use Rattle.graphql_schemas.specs.reading.Directives.{location_at, locations_at, directive_rest_at};

use crate::check::production::Phrase;
use crate::check::schemas::input_values::check_maybe_arguments_definition;
use crate::check::separated::check_separated;
use graphql_reading::limits::Limits;
use graphql_reading::parser::{Parser, Reading, Refusal};
use graphql_schemas::directives::location_of;

/// `DirectiveLocation`: a name that is one of the 19 words.
struct LocationPhrase;

impl Phrase for LocationPhrase {
    ghost Tree = { Positioned DirectiveLocation };

    ghost first = { any_name };

    ghost reader = { λ _. location_at };

    fn is_next(parser: &Parser) -> bool {
        parser.is_at_name()
    }

    fn check(parser: &mut Parser, _limits: Limits) -> Reading<()> {
        let token = parser.hand();
        if !token.kind.is_name() || location_of(token.text).is_none() {
            return Err(Refusal::Syntax);
        }
        parser.advance();
        Ok(())
    }
}

/// `'on' DirectiveLocations`, where `DirectiveLocations : '|'? DirectiveLocation ('|' DirectiveLocation)*`
fn check_locations(parser: &mut Parser, limits: Limits) -> Reading<()>
    ensures checks { Checks result parser.old parser.new locations_at }
    ensures calm { Calm parser.old parser.new }
{
    parser.expect_keyword("on")?;
    check_separated::<LocationPhrase>(parser, "|", limits)
}

/// `'repeatable'?`
#[tactic(auto, unfolding(graphql_reading::specs::reading::Outcome::opt_at))]
fn pass_repeatable(parser: &mut Parser)
    ensures checks { Checks (Ok result) parser.old parser.new
        (opt_at (keyword "repeatable") (one_at (keyword "repeatable"))) }
    ensures calm { Calm parser.old parser.new }
{
    if parser.is_at_keyword("repeatable") {
        parser.advance();
    }
}

/// The definition of a directive after its description:
/// `'directive' '@' Name ArgumentsDefinition? 'repeatable'? 'on' DirectiveLocations`
/// (GraphQL October 2021, section 3.13)
pub fn check_directive_definition(parser: &mut Parser, limits: Limits) -> Reading<()>
    ensures checks { Checks result parser.old parser.new (directive_rest_at limits) }
    ensures calm { Calm parser.old parser.new }
{
    parser.expect_keyword("directive")?;
    parser.expect_punct("@")?;
    parser.expect_name()?;
    check_maybe_arguments_definition(parser, limits)?;
    pass_repeatable(parser);
    check_locations(parser, limits)
}

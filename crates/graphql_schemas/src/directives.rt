//! The reader of definitions of directives, by GraphQL October 2021, section 3.13.
ghost use Rattle.std.specs.Prelude.{◌≡◌};
ghost use Rattle.graphql_tokens.specs.declared.pos.Positioned.{Positioned};
ghost use Rattle.graphql_trees.specs.declared.service.DirectiveLocation.{DirectiveLocation};
ghost use Rattle.graphql_syntax.specs.trees.Parts.{placed};
ghost use Rattle.graphql_trees.specs.trees.SchemaViews.{description_tree, directive_definition_tree};
ghost use Rattle.graphql_reading.specs.grammar.Tests.{any_name};
ghost use Rattle.graphql_reading.specs.reading.Funds.{Pays, Spares};
ghost use Rattle.graphql_reading.specs.reading.Worth.{per_token};
ghost use Rattle.graphql_reading.specs.reading.Given.{Gives};
ghost use Rattle.graphql_reading.specs.reading.Outcome.{mapped_at};
ghost use Rattle.graphql_schemas.specs.grammar.Directives as grammar;
ghost use Rattle.graphql_schemas.specs.reading.Directives.{location_named, location_at, locations_at, repeatable_at, directive_rest_at};

use crate::descriptions::place_of;
use crate::input_values::read_maybe_arguments_definition;
use graphql_reading::limits::Limits;
use graphql_reading::names::read_name;
use graphql_reading::parser::{Parser, Reading, Refusal};
use graphql_reading::production::{Production, separated};
use graphql_syntax::pos::Positioned;
use graphql_trees::{DirectiveDefinition, DirectiveLocation};

/// The location that a word names, if it names one.
pub fn location_of(word: &str) -> Option<DirectiveLocation>
    ensures { result ≡ location_named word.now }
{
    match word {
        "QUERY" => Some(DirectiveLocation::Query),
        "MUTATION" => Some(DirectiveLocation::Mutation),
        "SUBSCRIPTION" => Some(DirectiveLocation::Subscription),
        "FIELD" => Some(DirectiveLocation::Field),
        "FRAGMENT_DEFINITION" => Some(DirectiveLocation::FragmentDefinition),
        "FRAGMENT_SPREAD" => Some(DirectiveLocation::FragmentSpread),
        "INLINE_FRAGMENT" => Some(DirectiveLocation::InlineFragment),
        "SCHEMA" => Some(DirectiveLocation::Schema),
        "SCALAR" => Some(DirectiveLocation::Scalar),
        "OBJECT" => Some(DirectiveLocation::Object),
        "FIELD_DEFINITION" => Some(DirectiveLocation::FieldDefinition),
        "ARGUMENT_DEFINITION" => Some(DirectiveLocation::ArgumentDefinition),
        "INTERFACE" => Some(DirectiveLocation::Interface),
        "UNION" => Some(DirectiveLocation::Union),
        "ENUM" => Some(DirectiveLocation::Enum),
        "ENUM_VALUE" => Some(DirectiveLocation::EnumValue),
        "INPUT_OBJECT" => Some(DirectiveLocation::InputObject),
        "INPUT_FIELD_DEFINITION" => Some(DirectiveLocation::InputFieldDefinition),
        "VARIABLE_DEFINITION" => Some(DirectiveLocation::VariableDefinition),
        _ => None,
    }
}

/// `DirectiveLocation`: a name that is one of the 19 words.
struct LocationPhrase;

impl Production for LocationPhrase {
    type Node = Positioned<DirectiveLocation>;

    ghost Tree = { Positioned DirectiveLocation };

    ghost tree = { λ location. location };

    ghost first = { any_name };

    ghost spare = { per_token };

    ghost reader = { λ _. location_at };

    const ROOM: usize = 4;

    #[inline(always)]
    fn is_next(parser: &Parser) -> bool {
        parser.is_at_name()
    }

    fn read(parser: &mut Parser, _limits: Limits) -> Reading<Positioned<DirectiveLocation>> {
        let token = parser.hand();
        if !token.kind.is_name() {
            return Err(Refusal::Syntax);
        }
        let Some(location) = location_of(token.text) else {
            return Err(Refusal::Syntax);
        };
        parser.advance();
        Ok(Positioned::new(location, token.pos))
    }
}

/// `'on' DirectiveLocations`, where `DirectiveLocations : '|'? DirectiveLocation ('|' DirectiveLocation)*`
fn read_locations(
    parser: &mut Parser,
    limits: Limits,
) -> Reading<Vec<Positioned<DirectiveLocation>>>
    ensures gives { Gives (λ locations. locations.items) result parser.old parser.new locations_at }
    ensures pays { Pays 0 result parser.old parser.new }
{
    parser.expect_keyword("on")?;
    separated::<LocationPhrase>(parser, "|", limits)
}

/// Whether the directive may stand more than once at one place.
///
/// `'repeatable'?`
#[tactic(auto, unfolding(graphql_reading::specs::reading::Outcome::opt_at))]
fn read_is_repeatable(parser: &mut Parser) -> bool
    ensures gives { Gives (λ is_repeatable. is_repeatable) (Ok result) parser.old parser.new
        repeatable_at }
    ensures pays { Spares 0 parser.old parser.new }
{
    let is_repeatable = parser.is_at_keyword("repeatable");
    if is_repeatable {
        parser.advance();
    }
    is_repeatable
}

/// Reads the definition of a directive after its description.
///
/// `DirectiveDefinition : Description? 'directive' '@' Name ArgumentsDefinition? 'repeatable'? 'on' DirectiveLocations`
/// (GraphQL October 2021, section 3.13)
pub fn read_directive_definition(
    parser: &mut Parser,
    limits: Limits,
    description: Option<Positioned<String>>,
) -> Reading<Positioned<DirectiveDefinition>>
    ensures gives { Gives (placed directive_definition_tree) result parser.old parser.new
        (mapped_at (λ rest. grammar.directive_definition_of (description_tree description, rest))
        (directive_rest_at limits)) }
    ensures pays { Pays per_token result parser.old parser.new }
{
    let word = parser.expect_keyword("directive")?;
    let pos = place_of(&description, word.pos);
    parser.expect_punct("@")?;
    let name = read_name(parser)?;
    let arguments = read_maybe_arguments_definition(parser, limits)?;
    let is_repeatable = read_is_repeatable(parser);
    let locations = read_locations(parser, limits)?;
    let definition = DirectiveDefinition {
        description,
        name,
        arguments,
        is_repeatable,
        locations,
    };
    Ok(Positioned::new(definition, pos))
}

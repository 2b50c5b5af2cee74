//! Readers of input values: what arguments and input objects are given, by GraphQL October 2021, sections 3.6.1 and
//! 3.10.
ghost use Rattle.std.specs.Prelude.{◌≡◌};
ghost use Rattle.graphql_tokens.specs.declared.pos.Positioned.{Positioned};
ghost use Rattle.graphql_syntax.specs.trees.Parts.{placed};
ghost use Rattle.graphql_trees.specs.trees.Schema as trees;
ghost use Rattle.graphql_trees.specs.trees.SchemaViews.{input_value_tree};
ghost use Rattle.graphql_reading.specs.reading.Funds.{Pays};
ghost use Rattle.graphql_reading.specs.reading.Worth.{per_token};
ghost use Rattle.graphql_reading.specs.reading.Given.{Gives, trees_in};
ghost use Rattle.graphql_schemas.specs.reading.InputValues.{member_first, input_value_at, given_arguments_at};

use crate::descriptions::{is_at_description, place_of, read_maybe_description};
use graphql_grammar::arguments::{read_const_directives, read_maybe_default};
use graphql_grammar::types::read_type;
use graphql_reading::limits::Limits;
use graphql_reading::names::read_name;
use graphql_reading::parser::{Parser, Reading};
use graphql_reading::production::{Production, maybe_bracketed};
use graphql_syntax::pos::Positioned;
use graphql_trees::InputValueDefinition;

/// Whether the lookahead is a member with a name: its description, or its name.
#[inline(always)]
pub fn is_at_member(parser: &Parser) -> bool
    ensures { result ≡ member_first parser.now.hand.bare }
{
    is_at_description(parser) || parser.is_at_name()
}

/// `InputValueDefinition : Description? Name ':' Type DefaultValue? Directives[Const]?`
pub(crate) struct InputValuePhrase;

impl Production for InputValuePhrase {
    type Node = Positioned<InputValueDefinition>;

    ghost Tree = { Positioned trees.InputValueDefinition };

    ghost tree = { placed input_value_tree };

    ghost first = { member_first };

    ghost spare = { per_token };

    ghost reader = { input_value_at };

    const ROOM: usize = 2;

    #[inline(always)]
    fn is_next(parser: &Parser) -> bool {
        is_at_member(parser)
    }

    fn read(parser: &mut Parser, limits: Limits) -> Reading<Positioned<InputValueDefinition>> {
        let description = read_maybe_description(parser)?;
        let name = read_name(parser)?;
        let pos = place_of(&description, name.pos);
        parser.expect_punct(":")?;
        let ty = read_type(parser, limits)?;
        let default_value = read_maybe_default(parser, limits)?;
        let directives = read_const_directives(parser, limits)?;
        let value = InputValueDefinition {
            description,
            name,
            ty,
            default_value,
            directives,
        };
        Ok(Positioned::new(value, pos))
    }
}

/// Reads the definitions of arguments with their brackets, if the lookahead is a `(`; else there are none.
///
/// `ArgumentsDefinition? : ('(' InputValueDefinition+ ')')?` (GraphQL October 2021, section 3.6.1)
// Most fields have none: so the bracket is tested before the call.
#[tactic(auto, unfolding(graphql_reading::specs::reading::Outcome::opt_at))]
pub fn read_maybe_arguments_definition(
    parser: &mut Parser,
    limits: Limits,
) -> Reading<Vec<Positioned<InputValueDefinition>>>
    ensures gives { Gives (trees_in (placed input_value_tree)) result parser.old parser.new
        (given_arguments_at limits) }
    ensures pays { Pays 0 result parser.old parser.new }
{
    if !parser.is_at_punct("(") {
        return Ok(parser.empty_list());
    }
    maybe_bracketed::<InputValuePhrase>(parser, "(", ")", limits)
}

//! The check of input values, by GraphQL October 2021, sections 3.6.1 and 3.10.
ghost use Rattle.graphql_tokens.specs.declared.pos.Positioned.{Positioned};
ghost use Rattle.graphql_trees.specs.trees.Schema as trees;
ghost use Rattle.graphql_parser.specs.Checked.{Checks, Calm};
ghost use Rattle.graphql_reading.specs.grammar.Tests.{punct};
ghost use Rattle.graphql_reading.specs.reading.Outcome.{opt_at};
ghost use Rattle.graphql_schemas.specs.reading.InputValues.{member_first, input_value_at, arguments_definition_at};

use crate::check::arguments::{check_const_directives, check_maybe_default};
use crate::check::production::{Phrase, check_maybe_bracketed};
use crate::check::schemas::descriptions::check_maybe_description;
use crate::check::types::check_type;
use graphql_reading::limits::Limits;
use graphql_reading::parser::{Parser, Reading};
use graphql_schemas::input_values::is_at_member;

/// `InputValueDefinition : Description? Name ':' Type DefaultValue? Directives[Const]?`
pub struct InputValuePhrase;

impl Phrase for InputValuePhrase {
    ghost Tree = { Positioned trees.InputValueDefinition };

    ghost first = { member_first };

    ghost reader = { input_value_at };

    fn is_next(parser: &Parser) -> bool {
        is_at_member(parser)
    }

    fn check(parser: &mut Parser, limits: Limits) -> Reading<()> {
        check_maybe_description(parser)?;
        parser.expect_name()?;
        parser.expect_punct(":")?;
        check_type(parser, limits)?;
        check_maybe_default(parser, limits)?;
        check_const_directives(parser, limits)
    }
}

/// `ArgumentsDefinition? : ('(' InputValueDefinition+ ')')?` (GraphQL October 2021, section 3.6.1)
pub fn check_maybe_arguments_definition(parser: &mut Parser, limits: Limits) -> Reading<()>
    ensures checks { Checks result parser.old parser.new
        (opt_at (punct "(") (arguments_definition_at limits)) }
    ensures calm { Calm parser.old parser.new }
{
    check_maybe_bracketed::<InputValuePhrase>(parser, "(", ")", limits)
}

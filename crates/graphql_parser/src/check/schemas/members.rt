//! The check of the interfaces of a type, the types of a union and the values of an enum, by GraphQL October 2021,
//! sections 3.6, 3.8 and 3.9.
ghost use Rattle.std.specs.Prelude.{ℕ, List};
ghost use Rattle.graphql_tokens.specs.declared.pos.Positioned.{Positioned};
ghost use Rattle.graphql_trees.specs.trees.Schema as trees;
ghost use Rattle.graphql_parser.specs.Checked.{Checks, Calm};
ghost use Rattle.graphql_reading.specs.grammar.Tests.{any_name, keyword, punct};
ghost use Rattle.graphql_reading.specs.reading.Outcome.{opt_at};
ghost use Rattle.graphql_schemas.specs.reading.Members.{name_at, implements_at, members_at, enum_value_first, enum_value_at};

use crate::check::arguments::check_const_directives;
use crate::check::production::Phrase;
use crate::check::schemas::descriptions::check_maybe_description;
use crate::check::separated::check_separated;
use graphql_reading::limits::Limits;
use graphql_reading::parser::{Parser, Reading};
use graphql_schemas::descriptions::is_at_description;
use graphql_schemas::members::{expect_enum_name, is_at_enum_name};

/// `Name`
struct NamePhrase;

impl Phrase for NamePhrase {
    ghost Tree = { Positioned (List ℕ) };

    ghost first = { any_name };

    ghost reader = { λ _. name_at };

    fn is_next(parser: &Parser) -> bool {
        parser.is_at_name()
    }

    fn check(parser: &mut Parser, _limits: Limits) -> Reading<()> {
        parser.expect_name()?;
        Ok(())
    }
}

/// `ImplementsInterfaces? : ('implements' '&'? Name ('&' Name)*)?` (GraphQL October 2021, section 3.6)
#[tactic(auto, unfolding(graphql_reading::specs::reading::Outcome::opt_at))]
pub fn check_maybe_implements(parser: &mut Parser, limits: Limits) -> Reading<()>
    ensures checks { Checks result parser.old parser.new (opt_at (keyword "implements") implements_at) }
    ensures calm { Calm parser.old parser.new }
{
    if !parser.is_at_keyword("implements") {
        return Ok(());
    }
    parser.expect_keyword("implements")?;
    check_separated::<NamePhrase>(parser, "&", limits)?;
    Ok(())
}

/// `UnionMemberTypes? : ('=' '|'? Name ('|' Name)*)?` (GraphQL October 2021, section 3.8)
#[tactic(auto, unfolding(graphql_reading::specs::reading::Outcome::opt_at))]
pub fn check_maybe_members(parser: &mut Parser, limits: Limits) -> Reading<()>
    ensures checks { Checks result parser.old parser.new (opt_at (punct "=") members_at) }
    ensures calm { Calm parser.old parser.new }
{
    if !parser.is_at_punct("=") {
        return Ok(());
    }
    parser.expect_punct("=")?;
    check_separated::<NamePhrase>(parser, "|", limits)?;
    Ok(())
}

/// `EnumValueDefinition : Description? EnumValue Directives[Const]?` (GraphQL October 2021, section 3.9)
pub struct EnumValuePhrase;

impl Phrase for EnumValuePhrase {
    ghost Tree = { Positioned trees.EnumValueDefinition };

    ghost first = { enum_value_first };

    ghost reader = { enum_value_at };

    fn is_next(parser: &Parser) -> bool {
        is_at_description(parser) || is_at_enum_name(parser)
    }

    fn check(parser: &mut Parser, limits: Limits) -> Reading<()> {
        check_maybe_description(parser)?;
        expect_enum_name(parser)?;
        check_const_directives(parser, limits)
    }
}

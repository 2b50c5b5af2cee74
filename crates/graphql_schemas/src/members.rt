//! Readers of the interfaces of a type, the types of a union and the values of an enum, by GraphQL October 2021,
//! sections 3.6, 3.8 and 3.9.
ghost use Rattle.std.specs.Prelude.{◌≡◌, ◌+◌, ◌-◌, length, IfOk};
ghost use Rattle.graphql_tokens.specs.declared.pos.Positioned.{Positioned};
ghost use Rattle.graphql_tokens.specs.tokens.Seen.{seen};
ghost use Rattle.graphql_tokens.specs.tokens.Within.{StandsIn};
ghost use Rattle.graphql_syntax.specs.trees.Parts.{placed};
ghost use Rattle.graphql_trees.specs.trees.Schema as trees;
ghost use Rattle.graphql_trees.specs.trees.SchemaViews.{enum_value_tree};
ghost use Rattle.graphql_reading.specs.grammar.Places.{name_of};
ghost use Rattle.graphql_reading.specs.reading.Funds.{Pays, Spares};
ghost use Rattle.graphql_reading.specs.reading.Worth.{per_token};
ghost use Rattle.graphql_reading.specs.reading.Given.{Gives};
ghost use Rattle.graphql_reading.specs.reading.Outcome.{one_at};
ghost use Rattle.graphql_schemas.specs.grammar.Members.{enum_name};
ghost use Rattle.graphql_schemas.specs.reading.Members.{given_implements_at, given_members_at, enum_value_first, enum_value_at};

use crate::descriptions::{is_at_description, place_of, read_maybe_description};
use graphql_grammar::arguments::read_const_directives;
use graphql_reading::limits::Limits;
use graphql_reading::names::NamePhrase;
use graphql_reading::parser::{Parser, Reading, Refusal};
use graphql_reading::production::{Production, separated};
use graphql_syntax::lexer::Token;
use graphql_syntax::pos::Positioned;
use graphql_syntax::value::Name;
use graphql_trees::EnumValueDefinition;

/// Reads the interfaces that a type implements, if the lookahead is `implements`; else there are none.
///
/// `ImplementsInterfaces? : ('implements' '&'? Name ('&' Name)*)?` (GraphQL October 2021, section 3.6)
#[tactic(auto, unfolding(graphql_reading::specs::reading::Outcome::opt_at))]
pub fn read_maybe_implements(parser: &mut Parser, limits: Limits) -> Reading<Vec<Positioned<Name>>>
    ensures gives { Gives (λ names. names.items) result parser.old parser.new given_implements_at }
    ensures pays { Pays 0 result parser.old parser.new }
{
    if !parser.is_at_keyword("implements") {
        return Ok(parser.empty_list());
    }
    parser.expect_keyword("implements")?;
    let names = separated::<NamePhrase>(parser, "&", limits)?;
    Ok(names)
}

/// Reads the types of a union, if the lookahead is a `=`; else there are none.
///
/// `UnionMemberTypes? : ('=' '|'? Name ('|' Name)*)?` (GraphQL October 2021, section 3.8)
#[tactic(auto, unfolding(graphql_reading::specs::reading::Outcome::opt_at))]
pub fn read_maybe_members(parser: &mut Parser, limits: Limits) -> Reading<Vec<Positioned<Name>>>
    ensures gives { Gives (λ names. names.items) result parser.old parser.new given_members_at }
    ensures pays { Pays 0 result parser.old parser.new }
{
    if !parser.is_at_punct("=") {
        return Ok(parser.empty_list());
    }
    parser.expect_punct("=")?;
    let names = separated::<NamePhrase>(parser, "|", limits)?;
    Ok(names)
}

/// Whether the lookahead is a name that an enum's value may have.
pub fn is_at_enum_name(parser: &Parser) -> bool
    ensures { result ≡ enum_name parser.now.hand.bare }
{
    parser.is_at_name()
        && !(parser.is_at_keyword("true")
            || parser.is_at_keyword("false")
            || parser.is_at_keyword("null"))
}

/// `EnumValue : a Name other than 'true', 'false', 'null'`
pub fn expect_enum_name<'a>(parser: &mut Parser<'a>) -> Reading<Token<'a>>
    ensures name { Gives seen result parser.old parser.new (one_at enum_name) }
    ensures saves { Spares 0 parser.old parser.new }
    ensures memory { parser.new.memory ≡ parser.old.memory }
    ensures pays { IfOk result (λ token. Spares (per_token + length token.text.now) parser.old parser.new) }
    ensures stands { IfOk result (λ token. StandsIn parser.new.source.text (seen token)) }
{
    if !is_at_enum_name(parser) {
        return Err(Refusal::Syntax);
    }
    Ok(parser.take())
}

/// Reads the name of an enum's value (GraphQL October 2021, section 2.9.6).
///
/// `EnumValue : a Name other than 'true', 'false', 'null'`
#[inline(always)]
fn read_enum_name(parser: &mut Parser) -> Reading<Positioned<Name>>
    ensures token { Gives (λ _. parser.old.hand) result parser.old parser.new (one_at enum_name) }
    ensures pays { Pays (per_token - 24) result parser.old parser.new }
    ensures name { IfOk result (λ name. name ≡ name_of parser.old.hand) }
{
    let token = expect_enum_name(parser)?;
    let name = parser.name(token)?;
    Ok(Positioned::new(name, token.pos))
}

/// `EnumValueDefinition : Description? EnumValue Directives[Const]?`
pub(crate) struct EnumValuePhrase;

impl Production for EnumValuePhrase {
    type Node = Positioned<EnumValueDefinition>;

    ghost Tree = { Positioned trees.EnumValueDefinition };

    ghost tree = { placed enum_value_tree };

    ghost first = { enum_value_first };

    ghost spare = { per_token - 24 };

    ghost reader = { enum_value_at };

    const ROOM: usize = 4;

    #[inline(always)]
    fn is_next(parser: &Parser) -> bool {
        is_at_description(parser) || is_at_enum_name(parser)
    }

    fn read(parser: &mut Parser, limits: Limits) -> Reading<Positioned<EnumValueDefinition>> {
        let description = read_maybe_description(parser)?;
        let value = read_enum_name(parser)?;
        let pos = place_of(&description, value.pos);
        let directives = read_const_directives(parser, limits)?;
        let definition = EnumValueDefinition {
            description,
            value,
            directives,
        };
        Ok(Positioned::new(definition, pos))
    }
}

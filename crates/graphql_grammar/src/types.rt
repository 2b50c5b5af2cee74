//! Readers of type references, by GraphQL October 2021, section 2.11.
ghost use Rattle.std.specs.Prelude.{◌≡◌, ◌-◌};
ghost use Rattle.graphql_syntax.specs.trees.Parts.{placed};
ghost use Rattle.graphql_syntax.specs.trees.TypeTree.{type_tree};
ghost use Rattle.graphql_reading.specs.reading.Funds.{Pays, Spares};
ghost use Rattle.graphql_reading.specs.reading.Worth.{per_token};
ghost use Rattle.graphql_reading.specs.reading.Given.{Gives};
ghost use Rattle.graphql_grammar.specs.reading.TypeSteps.{opens_at};
ghost use Rattle.graphql_grammar.specs.reading.Types.{type_at};

use graphql_reading::limits::Limits;
use graphql_reading::parser::{Parser, Reading, Refusal};
use graphql_syntax::pos::Positioned;
use graphql_syntax::types::{BaseType, Type};

/// Reads the brackets that open lists, and gives how many they are.
///
/// `'['*`, as many as the limit allows
#[inline(always)]
pub fn open_lists(parser: &mut Parser, limits: Limits) -> Reading<usize>
    ensures gives { Gives (λ opened. opened) result parser.old parser.new (opens_at 0 limits.types) }
    ensures pays { Pays 0 result parser.old parser.new }
    ensures saves { Spares 0 parser.old parser.new }
    ensures memory { parser.new.memory ≡ parser.old.memory }
{
    let limit = limits.types();
    let mut opened = 0;
    while parser.is_at_punct("[") {
        if opened == limit {
            return Err(Refusal::Limit);
        }
        opened += 1;
        parser.advance();
    }
    Ok(opened)
}

/// Reads a type reference (GraphQL October 2021, section 2.11). It stands at its first token, and may be null where
/// no `!` follows. A list of it opens at each `[`, and as many close after the name, the inmost first.
///
/// `Type : Name '!'? | '[' Type ']' '!'?`
pub fn read_type(parser: &mut Parser, limits: Limits) -> Reading<Positioned<Type>>
    ensures gives { Gives (placed type_tree) result parser.old parser.new (type_at limits.types) }
    ensures pays { Pays (per_token - 24) result parser.old parser.new }
{
    let pos = parser.hand().pos;
    let opened = open_lists(parser, limits)?;
    let token = parser.expect_name()?;
    let name = parser.name(token)?;
    let nullable = !parser.take_punct("!");
    let mut ty = Type {
        base: BaseType::Named(name),
        nullable,
    };
    for _ in 0..opened {
        parser.expect_punct("]")?;
        let nullable = !parser.take_punct("!");
        let item = parser.boxed(ty)?;
        ty = Type {
            base: BaseType::List(item),
            nullable,
        };
    }
    Ok(Positioned::new(ty, pos))
}

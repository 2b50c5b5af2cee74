//! Readers of names.
ghost use Rattle.std.specs.Prelude.{◌≡◌, ◌-◌, ℕ, List, IfOk};
ghost use Rattle.graphql_tokens.specs.declared.pos.Positioned as model;
ghost use Rattle.graphql_reading.specs.grammar.Places.{name_of};
ghost use Rattle.graphql_reading.specs.grammar.Tests.{any_name};
ghost use Rattle.graphql_reading.specs.reading.Funds.{Pays};
ghost use Rattle.graphql_reading.specs.reading.Worth.{per_token};
ghost use Rattle.graphql_reading.specs.reading.Given.{Gives};
ghost use Rattle.graphql_reading.specs.reading.Outcome.{one_at, mapped_at};

use crate::limits::Limits;
use crate::parser::{Parser, Reading};
use crate::production::Production;
use graphql_tokens::name::Name;
use graphql_tokens::pos::Positioned;

/// Reads a name (GraphQL October 2021, section 2.1.9), and gives it at its place.
///
/// `Name`
#[inline(always)]
pub fn read_name(parser: &mut Parser) -> Reading<Positioned<Name>>
    ensures token { Gives (λ _. parser.old.hand) result parser.old parser.new (one_at any_name) }
    ensures name { IfOk result (λ name. name ≡ name_of parser.old.hand) }
    ensures pays { Pays (per_token - 24) result parser.old parser.new }
{
    let token = parser.expect_name()?;
    let name = parser.name(token)?;
    Ok(Positioned::new(name, token.pos))
}

/// `Name`, so that lists of names can be read.
pub struct NamePhrase;

impl Production for NamePhrase {
    type Node = Positioned<Name>;

    ghost Tree = { model.Positioned (List ℕ) };

    ghost tree = { λ name. name };

    ghost first = { any_name };

    ghost spare = { per_token - 24 };

    ghost reader = { λ _. mapped_at name_of (one_at any_name) };

    const ROOM: usize = 2;

    #[inline(always)]
    fn is_next(parser: &Parser) -> bool {
        parser.is_at_name()
    }

    #[inline(always)]
    fn read(parser: &mut Parser, _limits: Limits) -> Reading<Positioned<Name>> {
        read_name(parser)
    }
}

//! The reader of descriptions, by GraphQL October 2021, section 3.2.
ghost use Rattle.std.specs.Prelude.{◌≡◌, string_bytes};
ghost use Rattle.graphql_syntax.specs.trees.Parts.{placed};
ghost use Rattle.graphql_trees.specs.trees.SchemaViews.{description_tree};
ghost use Rattle.graphql_reading.specs.reading.Funds.{Pays};
ghost use Rattle.graphql_reading.specs.reading.Worth.{per_token};
ghost use Rattle.graphql_reading.specs.reading.Given.{Gives};
ghost use Rattle.graphql_schemas.specs.grammar.Descriptions as grammar;
ghost use Rattle.graphql_schemas.specs.reading.Descriptions.{is_text, description_at, maybe_description_at};

use graphql_grammar::strings::{read_block, read_string};
use graphql_reading::parser::{Parser, Reading};
use graphql_syntax::pos::{Pos, Positioned};

/// Whether the lookahead is a description.
#[inline(always)]
pub fn is_at_description(parser: &Parser) -> bool
    ensures { result ≡ is_text parser.now.hand.bare }
{
    let kind = parser.hand().kind;
    kind.is_string() || kind.is_block()
}

/// `Description : StringValue`
fn read_description(parser: &mut Parser) -> Reading<Positioned<String>>
    ensures gives { Gives (placed string_bytes) result parser.old parser.new description_at }
    ensures pays { Pays per_token result parser.old parser.new }
{
    let quote = parser.hand();
    let text = if quote.kind.is_string() {
        read_string(parser)?
    } else {
        read_block(parser)?
    };
    Ok(Positioned::new(text, quote.pos))
}

/// Reads a description, if the lookahead is one.
///
/// `Description?` (GraphQL October 2021, section 3.2)
#[tactic(auto, unfolding(graphql_reading::specs::reading::Outcome::opt_at))]
#[inline(always)]
pub fn read_maybe_description(parser: &mut Parser) -> Reading<Option<Positioned<String>>>
    ensures gives { Gives description_tree result parser.old parser.new maybe_description_at }
    ensures pays { Pays 0 result parser.old parser.new }
{
    if !is_at_description(parser) {
        return Ok(None);
    }
    Ok(Some(read_description(parser)?))
}

/// Where a definition stands: at its description, or else at this first token of its own.
#[inline(always)]
pub fn place_of(description: &Option<Positioned<String>>, first: Pos) -> Pos
    ensures { result ≡ grammar.place_of (description_tree description.now) first }
{
    match description {
        Some(text) => text.pos,
        None => first,
    }
}

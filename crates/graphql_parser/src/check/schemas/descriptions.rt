//! The reader of descriptions that makes no tree, by GraphQL October 2021, section 3.2.
ghost use Rattle.graphql_parser.specs.Checked.{Checks, Calm};
ghost use Rattle.graphql_schemas.specs.reading.Descriptions.{description_at, maybe_description_at};

use crate::check::value::simple::{check_block, check_string};
use graphql_reading::parser::{Parser, Reading};
use graphql_schemas::descriptions::is_at_description;

/// `Description : StringValue`
fn check_description(parser: &mut Parser) -> Reading<()>
    ensures checks { Checks result parser.old parser.new description_at }
    ensures calm { Calm parser.old parser.new }
{
    if parser.hand().kind.is_string() {
        return check_string(parser);
    }
    check_block(parser)
}

/// `Description?` (GraphQL October 2021, section 3.2)
#[tactic(auto, unfolding(graphql_reading::specs::reading::Outcome::opt_at))]
#[inline(always)]
pub fn check_maybe_description(parser: &mut Parser) -> Reading<()>
    ensures checks { Checks result parser.old parser.new maybe_description_at }
    ensures calm { Calm parser.old parser.new }
{
    if !is_at_description(parser) {
        return Ok(());
    }
    check_description(parser)
}

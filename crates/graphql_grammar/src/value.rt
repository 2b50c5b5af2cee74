//! The reader of values: one loop over the lists and objects that are open.
ghost use Rattle.std.specs.Prelude.{◌-◌};
ghost use Rattle.graphql_syntax.specs.trees.Parts.{placed};
ghost use Rattle.graphql_reading.specs.reading.Funds.{Pays};
ghost use Rattle.graphql_reading.specs.reading.Worth.{per_token};
ghost use Rattle.graphql_reading.specs.reading.Given.{Gives};
ghost use Rattle.graphql_grammar.specs.reading.Values.{value_at};

mod contents;
mod fields;
mod frames;
mod simple;

use contents::{enter, read_fields, read_items};
use frames::{Frame, Open, Stop};
use graphql_reading::limits::Limits;
use graphql_reading::parser::{Parser, Reading};
use graphql_syntax::pos::Positioned;
use graphql_syntax::value::Literal;
use simple::read_simple;
use smallvec::SmallVec;

/// Reads a value (GraphQL October 2021, section 2.9), with variables where the type has them. It stands at its first
/// token.
///
/// `Value : Variable | IntValue | FloatValue | StringValue | BooleanValue | NullValue | EnumValue | ListValue |
/// ObjectValue`
pub fn read_value<V: Literal>(parser: &mut Parser, limits: Limits) -> Reading<Positioned<V>>
    ensures gives { Gives (placed V.tree) result parser.old parser.new
        (value_at V.VARIABLES limits.values) }
    ensures pays { Pays (per_token - 24) result parser.old parser.new }
{
    let pos = parser.hand().pos;
    let limit = limits.values();
    let Some(first) = enter(parser, limit)? else {
        return Ok(Positioned::new(read_simple(parser)?, pos));
    };
    // The lists and objects around the one that is read: two of them take no block.
    let mut outer: SmallVec<Frame<V>, 2> = parser.empty_small_list();
    let mut innermost = first;
    loop {
        // So many levels may open inside the one that is read.
        let left = limit - outer.len() - 1;
        let stop = match innermost {
            Open::List(items) => read_items(parser, items, left)?,
            Open::Object(fields) => read_fields(parser, fields, left)?,
        };
        innermost = match stop {
            Stop::Entered(frame, inner) => {
                parser.push_small(&mut outer, frame)?;
                inner
            }
            Stop::Closed(node) => match outer.pop() {
                None => return Ok(Positioned::new(node, pos)),
                Some(frame) => frame.fill(parser, node)?,
            },
        };
    }
}

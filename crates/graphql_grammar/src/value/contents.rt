//! What lists and objects contain, read up to their end or to a list or an object inside them.
ghost use Rattle.std.specs.Prelude.{map, option_map};
ghost use Rattle.graphql_grammar.specs.reading.OpenValues.{field_tree, opened, met, enter_at, list_rest, object_rest, Meets};
ghost use Rattle.graphql_memory.specs.Memory.{credit};
ghost use Rattle.graphql_grammar.specs.reading.OpenFunds.{Enters, Stops, object_credit};
ghost use Rattle.graphql_reading.specs.reading.Given.{Gives};

use super::fields::merge;
use super::frames::{Frame, Open, Stop};
use super::simple::read_simple;
use graphql_reading::parser::{Parser, Reading, Refusal};
use graphql_syntax::value::{Literal, Name};

/// A list or an object that begins here, where so many levels are left.
///
/// `('[' | '{')?`
pub fn enter<V: Literal>(parser: &mut Parser, left: usize) -> Reading<Option<Open<V>>>
    ensures gives { Gives (option_map (opened V.tree)) result parser.old parser.new (enter_at left) }
    ensures pays { Enters V.row result parser.old parser.new }
{
    let opening = if parser.is_at_punct("[") {
        Open::List(parser.empty_list())
    } else if parser.is_at_punct("{") {
        Open::Object(parser.empty_list())
    } else {
        return Ok(None);
    };
    if left == 0 {
        return Err(Refusal::Limit);
    }
    parser.advance();
    Ok(Some(opening))
}

/// Reads on in a list that holds these items.
///
/// `ListValue : '[' Value* ']'` (GraphQL October 2021, section 2.9.7)
pub fn read_items<V: Literal>(
    parser: &mut Parser,
    mut items: Vec<V>,
    left: usize,
) -> Reading<Stop<V>>
    ensures gives { Meets V.VARIABLES left (met V.tree) result parser.old parser.new
        (list_rest V.VARIABLES left (map V.tree items.items)) }
    ensures pays { Stops V.row (credit V.row items) result parser.old parser.new }
{
    while !parser.take_punct("]") {
        if let Some(inner) = enter(parser, left)? {
            return Ok(Stop::Entered(Frame::List(items), inner));
        }
        let item = read_simple(parser)?;
        parser.push(&mut items, item)?;
    }
    Ok(Stop::Closed(V::list(items)))
}

/// Reads on in an object that holds these fields.
///
/// `ObjectValue : '{' ObjectField* '}'`, where `ObjectField : Name ':' Value` (GraphQL October 2021, section 2.9.8)
pub fn read_fields<V: Literal>(
    parser: &mut Parser,
    mut fields: Vec<(Name, V)>,
    left: usize,
) -> Reading<Stop<V>>
    ensures gives { Meets V.VARIABLES left (met V.tree) result parser.old parser.new
        (object_rest V.VARIABLES left (map (field_tree V.tree) fields.items)) }
    ensures pays { Stops V.row (object_credit V.row fields) result parser.old parser.new }
{
    while !parser.take_punct("}") {
        let token = parser.expect_name()?;
        let name = parser.name(token)?;
        parser.expect_punct(":")?;
        if let Some(inner) = enter(parser, left)? {
            return Ok(Stop::Entered(Frame::Object(fields, name), inner));
        }
        let value = read_simple(parser)?;
        parser.push(&mut fields, (name, value))?;
    }
    Ok(Stop::Closed(V::object(merge(parser, fields)?)))
}

//! The fields of an object.
ghost use Rattle.std.specs.Prelude.{◌≡◌, ◌≤◌, ◌<◌, ◌+◌, ◌*◌, length, vec_len, vec_capacity, IfOk, OnOk, OnErr, []};
ghost use Rattle.graphql_memory.specs.Memory.{Refused, Takes};
ghost use Rattle.graphql_syntax.specs.inner.Rows.{merging};
ghost use Rattle.graphql_reading.specs.reading.Ahead.{Stays};
ghost use Rattle.graphql_grammar.specs.grammar.Merged as grammar;
ghost use Rattle.graphql_grammar.specs.reading.Fields.{are_distinct as distinct, place_among, places, put};

use graphql_reading::parser::Parser;
use graphql_syntax::value::Name;
use std::alloc::AllocError;
use std::collections::BTreeMap;

/// So many fields are compared one by one. The names of more are put in order.
const COMPARED_ONE_BY_ONE: usize = 16;

/// Whether no name comes twice.
fn are_distinct<V>(fields: &[(Name, V)]) -> bool
    ensures { result ≡ distinct fields.now }
{
    let mut rest = fields;
    while let [field, others @ ..] = rest {
        for other in others {
            if other.0 == field.0 {
                return false;
            }
        }
        rest = others;
    }
    true
}

/// For each field the place of its name among the names, each named once, where it comes first.
fn places_of<V>(parser: &mut Parser, fields: &[(Name, V)]) -> Result<Vec<usize>, AllocError>
    ensures places { IfOk result (λ found. found.items ≡ places [] fields.now) }
    ensures takes { Takes (40 * length fields.now) parser.old.memory parser.new.memory }
    ensures refused { OnErr result (Refused parser.new.memory) }
    ensures stays { Stays parser.old parser.new }
{
    let mut known: BTreeMap<&Name, usize> = parser.empty_ordered();
    let mut found = parser.list_for(fields)?;
    for (name, _) in fields {
        let place = match known.get(&name) {
            Some(place) => *place,
            None => {
                let next = known.len();
                parser.insert_ordered(&mut known, name, next)?;
                next
            }
        };
        parser.push(&mut found, place)?;
    }
    Ok(found)
}

/// The field goes last, or its value takes the place of the one that stands there.
fn put_at<V: Drop>(
    parser: &mut Parser,
    merged: &mut Vec<(Name, V)>,
    place: usize,
    field: (Name, V),
) -> Result<(), AllocError>
    requires place { place ≡ place_among merged.old.items field.0 }
    requires room { vec_len merged.old < vec_capacity merged.old }
    ensures put { OnOk result (merged.new.items ≡ put merged.old.items field) }
    ensures len { vec_len merged.new ≤ vec_len merged.old + 1 }
    ensures capacity { vec_capacity merged.new ≡ vec_capacity merged.old }
    ensures free { parser.new.memory ≡ parser.old.memory }
    ensures refused { OnErr result (Refused parser.new.memory) }
    ensures stays { Stays parser.old parser.new }
{
    match merged.get_mut(place) {
        Some(first) => first.1 = field.1,
        None => parser.push(merged, field)?,
    }
    Ok(())
}

/// Each name once: where it comes first, with the value with which it comes last.
pub fn merge<V: Drop>(
    parser: &mut Parser,
    fields: Vec<(Name, V)>,
) -> Result<Vec<(Name, V)>, AllocError>
    ensures merged { IfOk result (λ merged. merged.items ≡ grammar.merged fields.items) }
    ensures takes { Takes (merging V.row * vec_len fields) parser.old.memory parser.new.memory }
    ensures refused { OnErr result (Refused parser.new.memory) }
    ensures stays { Stays parser.old parser.new }
{
    if fields.len() <= COMPARED_ONE_BY_ONE && are_distinct(&fields) {
        return Ok(fields);
    }
    let places = places_of(parser, &fields)?;
    let mut merged = parser.list_for(&fields)?;
    for (field, place) in fields.into_iter().zip(places) {
        put_at(parser, &mut merged, place, field)?;
    }
    Ok(merged)
}

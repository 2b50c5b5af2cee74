//! In which order the fragments are priced: each after those that it spreads.
//!
//! The order decides how fast all prices are known, and not what they are.

use graphql_parser::types::{ExecutableDocument, Selection, SelectionSet};
use std::alloc::{AllocError, Global};

// Which fragments spread which, by their places.
#[derive(Drop)]
struct Spreads {
    // for each fragment, those that spread it, once for each spread
    users: Vec<Vec<usize>>,
    // for each fragment, how many of its spreads name one that isn't in the order, or none at all
    waiting: Vec<usize>,
}

/// The places of the fragments, each after those of the fragments that it spreads. Those are left out that lead to a
/// fragment that spreads itself, or to one that isn't there.
pub(crate) fn order_of(
    alloc: Global,
    document: &ExecutableDocument,
) -> Result<Vec<usize>, AllocError> {
    let mut spreads = Spreads {
        users: Vec::new(alloc),
        waiting: Vec::new(alloc),
    };
    note_fragments(&mut spreads, document)?;
    let mut order = Vec::new(alloc);
    put_in_order(&mut order, &mut spreads)?;
    Ok(order)
}

fn note_fragments(spreads: &mut Spreads, document: &ExecutableDocument) -> Result<(), AllocError> {
    for _ in 0..document.fragments.len() {
        spreads.users.push(Vec::new(*spreads.users.allocator()))?;
        spreads.waiting.push(0)?;
    }
    for (place, (_, fragment)) in document.fragments.iter().enumerate() {
        note_set(spreads, &fragment.node.selection_set.node, document, place)?;
    }
    Ok(())
}

// Notes what is spread in a set of the fragment at this place.
fn note_set(
    spreads: &mut Spreads,
    set: &SelectionSet,
    document: &ExecutableDocument,
    place: usize,
) -> Result<(), AllocError> {
    for item in &set.items {
        match &item.node {
            Selection::Field(field) => {
                note_set(spreads, &field.node.selection_set.node, document, place)?;
            }
            Selection::InlineFragment(inline) => {
                note_set(spreads, &inline.node.selection_set.node, document, place)?;
            }
            Selection::FragmentSpread(spread) => {
                if let Some(waiting) = spreads.waiting.get_mut(place) {
                    *waiting = waiting.saturating_add(1);
                }
                let name = &spread.node.fragment_name.node;
                if let Some(spread_place) = document.fragments.get_index_of(name)
                    && let Some(users) = spreads.users.get_mut(spread_place)
                {
                    users.push(place)?;
                }
            }
        }
    }
    Ok(())
}

// Adds each fragment as soon as it waits for no other.
fn put_in_order(order: &mut Vec<usize>, spreads: &mut Spreads) -> Result<(), AllocError> {
    for (place, waiting) in spreads.waiting.iter().enumerate() {
        if *waiting == 0 {
            order.push(place)?;
        }
    }
    for next in 0..spreads.users.len() {
        let Some(place) = order.get(next).copied() else {
            break;
        };
        let Some(users) = spreads.users.get(place) else {
            break;
        };
        for user in users {
            if let Some(waiting) = spreads.waiting.get_mut(*user) {
                *waiting = waiting.saturating_sub(1);
                if *waiting == 0 {
                    order.push(*user)?;
                }
            }
        }
    }
    Ok(())
}

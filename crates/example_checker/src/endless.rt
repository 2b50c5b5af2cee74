//! Why the spreads of a request never end: one names no fragment, or a fragment spreads itself.
//!
//! What has no price spreads something that has none. So a walk from such a spread in an operation to the next one in its
//! fragment, and so on, comes to a fragment that isn't there, or to one where it was before.

use crate::costs::{price_named, prices_of_fragments};
use graphql_parser::types::{ExecutableDocument, Selection, SelectionSet};
use graphql_parser::value::Name;
use std::alloc::{AllocError, Global};
use std::mem;

/// What is wrong with the spread of a fragment.
#[derive(Clone, Copy)]
pub enum Fault<'a> {
    /// There is no fragment of this name.
    Missing(&'a Name),
    /// The fragment of this name spreads itself, directly or through others.
    SpreadsItself(&'a Name),
}

/// A fault among the spreads that the operations lead to.
pub fn first_fault<'a>(
    alloc: Global,
    document: &'a ExecutableDocument,
) -> Result<Option<Fault<'a>>, AllocError> {
    let prices = prices_of_fragments(alloc, document, 0)?;
    let mut seen = vec![in alloc; false; document.fragments.len()]?;
    for (_, operation) in document.operations.iter() {
        let set = &operation.node.selection_set.node;
        if let Some(name) = first_in(set, document, prices.as_slice()) {
            return Ok(Some(fault_from(name, document, prices.as_slice(), &mut seen)));
        }
    }
    Ok(None)
}

// The fault to which a walk from a spread of this name comes, where no fragment was seen before.
fn fault_from<'a>(
    first: &'a Name,
    document: &'a ExecutableDocument,
    prices: &[Option<u64>],
    seen: &mut [bool],
) -> Fault<'a> {
    let mut name = first;
    for _ in 0..=document.fragments.len() {
        let Some((place, _, fragment)) = document.fragments.get_full(name) else {
            return Fault::Missing(name);
        };
        if let Some(was_seen) = seen.get_mut(place)
            && !mem::replace(was_seen, true)
            && let Some(next) = first_in(&fragment.node.selection_set.node, document, prices)
        {
            name = next;
        } else {
            break;
        }
    }
    Fault::SpreadsItself(name)
}

// The first name that a set spreads and that has no price.
fn first_in<'a>(
    set: &'a SelectionSet,
    document: &ExecutableDocument,
    prices: &[Option<u64>],
) -> Option<&'a Name> {
    for item in &set.items {
        let found = match &item.node {
            Selection::Field(field) => first_in(&field.node.selection_set.node, document, prices),
            Selection::InlineFragment(fragment) => {
                first_in(&fragment.node.selection_set.node, document, prices)
            }
            Selection::FragmentSpread(spread) => {
                let name = &spread.node.fragment_name.node;
                match price_named(document, prices, name) {
                    Some(_) => None,
                    None => Some(name),
                }
            }
        };
        if found.is_some() {
            return found;
        }
    }
    None
}

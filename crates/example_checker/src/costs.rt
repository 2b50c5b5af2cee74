//! What a request costs.
//!
//! The fragments are priced one after another, each after those that it spreads, so that their prices are known: the price
//! of a fragment is None while it isn't. Then rounds price each fragment by the prices of the round before, until one changes
//! nothing. That is the first, and it shows that what has no price then has no cost.
//!
//! A price greater than the limit is kept as one more than the limit, so that no sum overflows.

ghost use Rattle.std.specs.Prelude.{◌≡◌, ◌+◌, ◌≤◌, ◌<◌, ℕ, min, length, Err, None, IfOk};
ghost use Rattle.graphql_parser.specs.trees.RequestViews.{document_tree, selection_set_tree, selection_tree};
ghost use Rattle.example_checker.specs.Costs.{Costs, selection_cost, set_cost, operations_cost};
ghost use Rattle.example_checker.specs.declared.costs.Refusal.TheVariants.{TooDear, Endless, OutOfMemory};
ghost use Rattle.example_checker.specs.Prices.{AreKnownIn, capped, price_in, next_prices, prices_after};

use crate::order::order_of;
use graphql_parser::types::{ExecutableDocument, Selection, SelectionSet};
use graphql_parser::value::Name;
use std::alloc::{AllocError, Global};

/// Why a request has no cost within a limit.
#[derive(Clone, Copy)]
pub enum Refusal {
    /// It costs more than the limit.
    TooDear,
    /// Its spreads never end, or one of them names no fragment.
    Endless,
    /// The memory for the prices of its fragments was refused.
    OutOfMemory,
}

impl From<AllocError> for Refusal {
    ghost from_gives = { λ _ refusal. refusal ≡ OutOfMemory };

    fn from(_: AllocError) -> Refusal {
        Refusal::OutOfMemory
    }
}

/// What the request costs, where that is at most the limit.
pub fn cost_within(alloc: Global, document: &ExecutableDocument, limit: u32) -> Result<u64, Refusal>
    ensures cost { IfOk result (Costs (document_tree document.now)) }
    ensures no_other { IfOk result (λ cost. (other : ℕ) → Costs (document_tree document.now) other →
        other ≡ cost) }
    ensures within { IfOk result (λ cost. cost ≤ limit) }

    ensures too_dear { result ≡ Err TooDear → (cost : ℕ) × Costs (document_tree document.now) cost ×
        (limit < cost) }
    ensures endless { result ≡ Err Endless → (cost : ℕ) →
        ¬ Costs (document_tree document.now) cost }
{
    let prices = prices_of_fragments(alloc, document, limit)?;
    let Some(cost) = price_of_operations(document, prices.as_slice(), limit) else {
        return Err(Refusal::Endless);
    };
    if cost > u64::from(limit) {
        return Err(Refusal::TooDear);
    }
    Ok(cost)
}

/// The price of each fragment, in their order.
pub(crate) fn prices_of_fragments(
    alloc: Global,
    document: &ExecutableDocument,
    limit: u32,
) -> Result<Vec<Option<u64>>, AllocError>
    ensures { IfOk result (λ prices. prices.items ≡
        prices_after limit (document_tree document.now).fragments
        (length (document_tree document.now).fragments)) }
{
    let mut prices = first_prices(alloc, document, limit)?;
    for _ in 0..document.fragments.len() {
        let next = round(alloc, document, prices.as_slice(), limit)?;
        if next == prices {
            return Ok(prices);
        }
        prices = next;
    }
    Ok(prices)
}

// The prices that are known when each fragment was priced after those that it spreads.
fn first_prices(
    alloc: Global,
    document: &ExecutableDocument,
    limit: u32,
) -> Result<Vec<Option<u64>>, AllocError>
    ensures many { IfOk result (λ prices. length prices.items ≡
        length (document_tree document.now).fragments) }
    ensures known { IfOk result (λ prices.
        AreKnownIn prices.items
        (prices_after limit (document_tree document.now).fragments
        (length (document_tree document.now).fragments))) }
{
    let mut prices = vec![in alloc; None; document.fragments.len()]?;
    for place in order_of(alloc, document)? {
        if let Some((_, fragment)) = document.fragments.get_index(place) {
            let set = &fragment.node.selection_set.node;
            prices[place] = price_of_set(set, document, prices.as_slice(), limit);
        }
    }
    Ok(prices)
}

// One round: the price of each fragment by these prices.
fn round(
    alloc: Global,
    document: &ExecutableDocument,
    prices: &[Option<u64>],
    limit: u32,
) -> Result<Vec<Option<u64>>, AllocError>
    ensures { IfOk result (λ next. next.items ≡
        next_prices limit (document_tree document.now).fragments prices.now) }
{
    let mut next = Vec::new(alloc);
    for (_, fragment) in document.fragments.iter() {
        next.push(price_of_set(&fragment.node.selection_set.node, document, prices, limit))?;
    }
    Ok(next)
}

// What all operations cost by these prices.
#[tactic(auto, using(crate::proofs::Capped::sum_step, crate::proofs::Capped::sum_missing, crate::proofs::Walks::nothing_both, crate::proofs::Walks::operations_walked))]
fn price_of_operations(
    document: &ExecutableDocument,
    prices: &[Option<u64>],
    limit: u32,
) -> Option<u64>
    ensures { result ≡ capped limit
        (operations_cost (price_in (document_tree document.now).fragments prices.now)
        (document_tree document.now).operations) }
{
    let mut cost = 0;
    for (_, operation) in document.operations.iter() {
        let more = price_of_set(&operation.node.selection_set.node, document, prices, limit)?;
        cost = sum(cost, more, limit);
    }
    Some(cost)
}

// What is selected costs by these prices.
#[cycle(cost)]
#[tactic(auto, using(crate::proofs::Capped::sum_step, crate::proofs::Capped::sum_missing, crate::proofs::Walks::nothing_both))]
fn price_of_set(
    set: &SelectionSet,
    document: &ExecutableDocument,
    prices: &[Option<u64>],
    limit: u32,
) -> Option<u64>
    ensures { result ≡ capped limit
        (set_cost (price_in (document_tree document.now).fragments prices.now)
        (selection_set_tree set.now)) }
{
    let mut cost = 0;
    for item in &set.items {
        let more = price_of_selection(&item.node, document, prices, limit)?;
        cost = sum(cost, more, limit);
    }
    Some(cost)
}

#[cycle(cost)]
#[tactic(auto, using(crate::proofs::Capped::field_price))]
fn price_of_selection(
    selection: &Selection,
    document: &ExecutableDocument,
    prices: &[Option<u64>],
    limit: u32,
) -> Option<u64>
    ensures { result ≡ capped limit
        (selection_cost (price_in (document_tree document.now).fragments prices.now)
        (selection_tree selection.now)) }
{
    match selection {
        Selection::Field(field) => {
            let selected = &field.node.selection_set.node;
            let cost = price_of_set(selected, document, prices, limit)?;
            Some(sum(1, cost, limit))
        }
        Selection::FragmentSpread(spread) => {
            let cost = price_named(document, prices, &spread.node.fragment_name.node)?;
            Some(sum(0, cost, limit))
        }
        Selection::InlineFragment(fragment) => {
            price_of_set(&fragment.node.selection_set.node, document, prices, limit)
        }
    }
}

/// The price of a fragment; None where it isn't known, and where there is no such fragment.
pub(crate) fn price_named(
    document: &ExecutableDocument,
    prices: &[Option<u64>],
    name: &Name,
) -> Option<u64>
    ensures { result ≡ price_in (document_tree document.now).fragments prices.now name.now }
{
    let place = document.fragments.get_index_of(name)?;
    prices.get(place).copied().flatten()
}

// The sum, or one more than the limit where it is greater than that.
fn sum(cost: u64, more: u64, limit: u32) -> u64
    ensures { result ≡ min (cost + more) (limit + 1) }
{
    cost.saturating_add(more).min(u64::from(limit) + 1)
}

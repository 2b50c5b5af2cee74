//! An example of what a user writes over `graphql_parser`: what a gateway or a registry checks in the trees that it returns.
//!
//! `cost_within` limits what a request costs: a field costs one and what is selected of it, a spread what its fragment selects,
//! each time that it is spread. So a request of forty lines can cost as much as a million million fields. Each fragment is priced
//! after those that it spreads, and none is written out: the time grows with the length of the request, and neither with the cost
//! nor with how deep its spreads nest.
//!
//! Proved, by the clauses: what a request costs, that it is let through exactly if that is at most the limit, unless memory runs
//! out, and that what is refused as endless has no cost at all (`cost_within`); which operation has no name, which fragments no
//! spread names, and which fields are deprecated without a reason (`request_rules`, `schema_rules`). Which fragment `first_fault`
//! names is only tested.
#![tactic(auto)]

mod costs;
mod endless;
mod order;
mod request_rules;
mod schema_rules;

pub use costs::{Refusal, cost_within};
pub use endless::{Fault, first_fault};
pub use request_rules::{first_unnamed, is_spread};
pub use schema_rules::{fields_of, is_silently_deprecated};

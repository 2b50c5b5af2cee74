//! How deep a document may nest.
ghost use Rattle.std.specs.Prelude.{◌≡◌, ◌↔◌, IsSome, IfSome};
ghost use Rattle.graphql_reading.specs.grammar.Limits.{default_limits, IsAllowed};

use std::marker::Model;

// The largest number that `Limits::new` takes.
const LARGEST: usize = 256;

/// How deep a document may nest: three numbers, each at most 256.
///
/// | Number | What it counts |
/// |---|---|
/// | selections | the sets nested in a definition's own set, which is free: a field's set and an inline fragment's set count one each, a spread counts none |
/// | values | the lists and objects nested in one value, the outermost included |
/// | types | the lists nested in one type reference |
///
/// The default is 64, 64, 64.
#[derive(Clone, Copy, Debug, PartialEq, Eq)]
pub struct Limits {
    selections: usize,
    values: usize,
    types: usize,
}

impl Model for Limits {
    ghost use Rattle.graphql_reading.specs.grammar.Limits.{Limits as Budgets, IsAllowed};

    ghost Value = { Budgets };

    ghost view = { λ l. record { selections = l.selections; values = l.values; types = l.types } };

    ghost invariant = { λ l. IsAllowed (record { selections = l.selections; values = l.values; types = l.types }) };

    ghost inverse = { λ b. record { selections = b.selections; values = b.values; types = b.types } };
}

impl Limits {
    /// These limits; None exactly where one of the numbers is over 256.
    pub fn new(selections: usize, values: usize, types: usize) -> Option<Limits>
        ensures numbers { IfSome result
            (λ limits. limits ≡
            record { selections = selections; values = values; types = types }) }
        ensures allowed { IsSome result ↔
            IsAllowed (record { selections = selections; values = values; types = types }) }
    {
        if selections > LARGEST || values > LARGEST || types > LARGEST {
            return None;
        }
        Some(Limits {
            selections,
            values,
            types,
        })
    }

    /// How deep selection sets may nest.
    pub fn selections(self) -> usize
        ensures { result ≡ self.selections }
    {
        self.selections
    }

    /// How deep the lists and objects of one value may nest.
    pub fn values(self) -> usize
        ensures { result ≡ self.values }
    {
        self.values
    }

    /// How deep the lists of one type reference may nest.
    pub fn types(self) -> usize
        ensures { result ≡ self.types }
    {
        self.types
    }
}

impl Default for Limits {
    ghost is_default = { λ limits. limits ≡ default_limits };

    #[tactic(auto, unfolding(crate::specs::grammar::Limits::default_limits))]
    fn default() -> Limits {
        Limits {
            selections: 64,
            values: 64,
            types: 64,
        }
    }
}

//! The look-up of a definition by its name.
//!
//! A `&str` is no key of a map over names. So a name is made of it, where that takes no memory, and the map is asked for
//! that; the entries are walked from the first on where the text is longer.
ghost use Rattle.std.specs.Prelude.{◌≡◌, option_map};
ghost use Rattle.graphql_syntax.specs.calls.Named.{named};

use crate::hasher::NameMap;
use graphql_syntax::value::Name;

/// The value of the first entry of this name.
#[tactic(auto, using(crate::proofs::Entries::named_by_lookup))]
pub(crate) fn find_entry<'a, V>(map: &'a NameMap<V>, name: &str) -> Option<&'a V>
    ensures { option_map (λ v. v.now) result ≡ named name.now map.now.entries }
{
    if let Some(key) = Name::in_place(name) {
        return map.get(&key);
    }
    for (key, value) in map.iter() {
        if key.as_str() == name {
            return Some(value);
        }
    }
    None
}

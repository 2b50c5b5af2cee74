//! What the maps of a document hash by.
ghost use Rattle.std.specs.Prelude.{◌≡◌};
ghost use Rattle.graphql_requests.specs.reading.Seeds.{document_seed};

use crate::definitions::Definition;
use graphql_trees::NameSeed;
use std::hash::{DefaultHasher, Hash, Hasher};

// Among so few, names that collide cost next to nothing, and a digest would cost more.
const FEW: usize = 32;

/// The seed for a document of these definitions: without a digest where they are few, else that of all their names in
/// their order.
pub(crate) fn seed_of(definitions: &[Definition]) -> NameSeed
    ensures { result ≡ document_seed definitions.now }
{
    if definitions.len() <= FEW {
        return NameSeed::default();
    }
    let mut digest = DefaultHasher::new();
    for definition in definitions {
        if let Some(name) = definition.name() {
            name.hash(&mut digest);
        }
    }
    NameSeed::of_digest(digest.finish())
}

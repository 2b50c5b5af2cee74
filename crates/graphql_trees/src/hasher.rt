//! How the maps of a request hash names.
//!
//! Whoever writes a request chooses its names. Under a hasher that anyone can compute, many names can be chosen that
//! begin their search in one place of a map. So a map of many names begins its hashes with a digest of all of them,
//! which changes with each: names can't be chosen by hashes that depend on the choice.
ghost use Rattle.std.specs.Prelude.{◌≡◌};
ghost use Rattle.graphql_trees.specs.calls.Hashing.{begun, digest_seed, finished, written};

use graphql_syntax::value::Name;
use indexmap::IndexMap;
use std::hash::{BuildHasher, DefaultHasher, FoldHasher, Hasher};

/// What the definitions of one kind are kept in: a map from their names, in source order.
///
/// An empty one is `IndexMap::with_hasher(alloc, NameSeed::default())`.
pub type NameMap<V> = IndexMap<Name, V, NameSeed>;

/// What the hashes of a map of names begin with.
///
/// By default nothing: the hash is a quick one that anyone can compute, good for few names, or for names that no
/// stranger chose.
#[derive(Clone, Copy, Debug, Default, PartialEq, Eq)]
pub struct NameSeed {
    digest: Option<u64>,
}

impl NameSeed {
    /// The seed of a number that whoever chooses the names can't foresee, as a strong digest of all of them. Names are
    /// then hashed by `DefaultHasher`, which is fed that number first.
    pub fn of_digest(digest: u64) -> NameSeed
        ensures { result ≡ digest_seed digest }
    {
        NameSeed {
            digest: Some(digest),
        }
    }
}

impl BuildHasher for NameSeed {
    type Hasher = NameHasher;

    ghost build_hasher = { λ seed. begun seed.digest };

    #[inline(always)]
    fn build_hasher(&self) -> NameHasher {
        match self.digest {
            None => NameHasher::Quick(FoldHasher::default()),
            Some(digest) => {
                let mut hasher = DefaultHasher::new();
                hasher.write_u64(digest);
                NameHasher::Strong(hasher)
            }
        }
    }
}

/// The hasher of a [`NameSeed`]: `FoldHasher` where it has no digest, else `DefaultHasher`.
#[derive(Clone, Copy)]
pub enum NameHasher {
    /// Without a digest.
    Quick(FoldHasher),
    /// With one, which it was fed first.
    Strong(DefaultHasher),
}

impl Hasher for NameHasher {
    ghost write = { written };

    ghost finish = { finished };

    #[inline(always)]
    fn finish(&self) -> u64 {
        match self {
            NameHasher::Quick(hasher) => hasher.finish(),
            NameHasher::Strong(hasher) => hasher.finish(),
        }
    }

    #[inline(always)]
    fn write(&mut self, bytes: &[u8]) {
        match self {
            NameHasher::Quick(hasher) => hasher.write(bytes),
            NameHasher::Strong(hasher) => hasher.write(bytes),
        }
    }
}

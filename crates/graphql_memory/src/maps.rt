//! Maps.
ghost use Rattle.std.specs.Prelude.{◌≡◌, ◌+◌, is_some, if◌then◌else◌, IfOk, OnOk, OnErr, Some};
ghost use Rattle.std.specs.BTreeMap as ordered;
ghost use Rattle.indexmap.specs.IndexMap as indexed;
ghost use Rattle.graphql_memory.specs.Memory.{Refused, Takes, Took, Denied, pair_bytes};

use crate::{Memory, size_of_one};
use indexmap::IndexMap;
use std::alloc::AllocError;
use std::collections::BTreeMap;
use std::hash::{BuildHasher, Hash};

impl Memory {
    /// An empty map that keeps its order, and hashes by `hasher`. It takes no memory.
    #[inline(always)]
    pub fn empty_indexed<K: Eq + Hash, V, S: BuildHasher>(&self, hasher: S) -> IndexMap<K, V, S>
        ensures empty { indexed.IsEmpty result }
        ensures len { indexed.index_map_len result ≡ 0 }
        ensures hasher { indexed.hasher_of result ≡ hasher }
        ensures unique { indexed.IsUnique K.eq result }
    {
        IndexMap::with_hasher(self.heap, hasher)
    }

    /// An empty map that is ordered by its keys. It takes no memory.
    #[inline(always)]
    pub fn empty_ordered<K: Ord, V>(&self) -> BTreeMap<K, V>
        ensures empty { ordered.IsEmpty result }
        ensures len { ordered.btree_map_len result ≡ 0 }
        ensures ordered { ordered.IsOrdered K.cmp result }
    {
        BTreeMap::new(self.heap)
    }

    // Takes what is counted for a pair of a map off the budget: its key, its value, and two words.
    #[inline(always)]
    fn spend_for_pair<K, V>(&mut self) -> Result<(), AllocError>
        ensures takes { Takes (pair_bytes K.row V.row) self.old self.new }
        ensures took { OnOk result (Took (pair_bytes K.row V.row) self.old self.new) }
        ensures denied { OnErr result (Denied (pair_bytes K.row V.row) self.old self.new) }
        ensures refused { OnErr result (Refused self.new) }
    {
        let pair = size_of_one::<K>().checked_add(size_of_one::<V>());
        match pair.and_then(|both| both.checked_add(16)) {
            Some(cost) => self.spend(cost),
            None => Err(self.refuse_more_than_any()),
        }
    }

    /// Inserts a pair into a map that keeps its order. Where there is no memory, the pair is gone.
    pub fn insert_indexed<K: Eq + Hash + Drop, V: Drop, S: BuildHasher>(
        &mut self,
        map: &mut IndexMap<K, V, S>,
        key: K,
        value: V,
    ) -> Result<Option<V>, AllocError>
        ensures old { IfOk result (λ old. old ≡ indexed.get K.eq map.old key) }
        ensures updates { OnOk result (indexed.Updates K.eq map.old map.new key (Some value)) }
        ensures entries { OnOk result (map.new.entries ≡
            indexed.insert_entry K.eq map.old.entries key value) }
        ensures len { IfOk result (λ old. indexed.index_map_len map.new ≡
            indexed.index_map_len map.old + (if is_some old then 0 else 1)) }
        ensures takes { Takes (pair_bytes K.row V.row) self.old self.new }
        ensures took { OnOk result (Took (pair_bytes K.row V.row) self.old self.new) }
        ensures denied { OnErr result (Denied (pair_bytes K.row V.row) self.old self.new) }
        ensures refused { OnErr result (Refused self.new) }
    {
        self.spend_for_pair::<K, V>()?;
        match map.insert(key, value) {
            Ok(old) => Ok(old),
            Err(_) => Err(self.refuse()),
        }
    }

    /// Inserts a pair into a map that is ordered by its keys. Where there is no memory, the pair is gone.
    pub fn insert_ordered<K: Ord + Drop, V: Drop>(
        &mut self,
        map: &mut BTreeMap<K, V>,
        key: K,
        value: V,
    ) -> Result<Option<V>, AllocError>
        ensures old { IfOk result (λ old. old ≡ ordered.get K.cmp map.old key) }
        ensures updates { OnOk result (ordered.Updates K.cmp map.old map.new key (Some value)) }
        ensures entries { OnOk result (map.new.entries ≡
            ordered.insert_entry K.cmp map.old.entries key value) }
        ensures len { IfOk result (λ old. ordered.btree_map_len map.new ≡
            ordered.btree_map_len map.old + (if is_some old then 0 else 1)) }
        ensures takes { Takes (pair_bytes K.row V.row) self.old self.new }
        ensures took { OnOk result (Took (pair_bytes K.row V.row) self.old self.new) }
        ensures denied { OnErr result (Denied (pair_bytes K.row V.row) self.old self.new) }
        ensures refused { OnErr result (Refused self.new) }
    {
        self.spend_for_pair::<K, V>()?;
        match map.insert(key, value) {
            Ok(old) => Ok(old),
            Err(_) => Err(self.refuse()),
        }
    }
}

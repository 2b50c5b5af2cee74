//! Memory for what is read. Each call hands on to the parser's memory, and fails only where that was refused; the tokens
//! stay.
ghost use Rattle.std.specs.Prelude.{◌≡◌, ◌≤◌, ◌<◌, ◌+◌, ◌-◌, ◌*◌, ◌++◌, ◌∷◌, [], take, drop, chars, string_bytes, Some, is_some, if◌then◌else◌, IfOk, IfSome, IfNone, OnOk, OnErr, length, vec_len, vec_capacity};
ghost use Rattle.std.specs.BTreeMap as ordered;
ghost use Rattle.graphql_memory.specs.Memory.{Refused, Takes, bytes, price, pair_bytes, credit, small_credit};
ghost use Rattle.smallvec.specs.SmallVec.{small_vec_len};
ghost use Rattle.graphql_reading.specs.reading.Ahead.{Stays};
ghost use Rattle.graphql_tokens.specs.tokens.BlockText.{block_value};
ghost use Rattle.graphql_tokens.specs.tokens.Edition.{Current};
ghost use Rattle.graphql_tokens.specs.tokens.Strings.{StringMeans, IsContent};

use crate::parser::Parser;
use graphql_tokens::text::{block_string_value_in, string_value_in};
use smallvec::SmallVec;
use std::alloc::{AllocError, Global};
use std::collections::BTreeMap;
use std::default::MadeWith;

impl Parser<'_> {
    /// An empty list. It takes no memory.
    #[inline(always)]
    pub fn empty_list<T>(&self) -> Vec<T>
        ensures items { result.items ≡ [] }
        ensures free { credit T.row result ≡ 0 }
    {
        self.memory.empty_list()
    }

    /// An empty small list. It takes no memory.
    #[inline(always)]
    pub fn empty_small_list<T: MadeWith<Global> + Drop, const N: usize>(&self) -> SmallVec<T, N>
        ensures items { result.items ≡ [] }
        ensures free { small_credit N T.row result ≡ 0 }
        ensures room { result.capacity ≡ N }
    {
        self.memory.empty_small_list()
    }

    /// An empty list with room for as many as the slice has.
    #[inline(always)]
    pub fn list_for<T, U>(&mut self, items: &[U]) -> Result<Vec<T>, AllocError>
        ensures items { IfOk result (λ list. list.items ≡ []) }
        ensures room { IfOk result (λ list. vec_capacity list ≡ length items.now) }
        ensures takes { Takes (bytes T.row * length items.now) self.old.memory self.new.memory }
        ensures refused { OnErr result (Refused self.new.memory) }
        ensures stays { Stays self.old self.new }
    {
        self.memory.list_for(items)
    }

    /// Puts an item after the others. Where there is no room for it, the item is gone.
    #[inline(always)]
    pub fn push<T: Drop>(&mut self, list: &mut Vec<T>, item: T) -> Result<(), AllocError>
        ensures items { OnOk result (list.new.items ≡ list.old.items ++ item ∷ []) }
        ensures len { OnOk result (vec_len list.new ≡ vec_len list.old + 1) }
        ensures kept { OnErr result (list.new.items ≡ list.old.items) }
        ensures takes { Takes (credit T.row list.old + price T.row) self.old.memory self.new.memory }
        ensures pays { OnOk result (self.old.memory.left + self.new.memory.lacking + credit T.row list.new ≤
            self.new.memory.left + self.old.memory.lacking + credit T.row list.old + price T.row) }
        ensures room { vec_len list.old < vec_capacity list.old →
            (self.new.memory ≡ self.old.memory) × (vec_capacity list.new ≡ vec_capacity list.old) }
        ensures refused { OnErr result (Refused self.new.memory) }
        ensures stays { Stays self.old self.new }
    {
        self.memory.push(list, item)
    }

    /// The same; a list that never had room has it for so many items first, four at most.
    #[inline(always)]
    pub fn push_with_room<T: Drop>(
        &mut self,
        list: &mut Vec<T>,
        item: T,
        first: usize,
    ) -> Result<(), AllocError>
        requires some { 0 < first }
        requires few { first ≤ 4 }
        ensures items { OnOk result (list.new.items ≡ list.old.items ++ item ∷ []) }
        ensures len { OnOk result (vec_len list.new ≡ vec_len list.old + 1) }
        ensures kept { OnErr result (list.new.items ≡ list.old.items) }
        ensures takes { Takes (credit T.row list.old + price T.row) self.old.memory self.new.memory }
        ensures pays { OnOk result (self.old.memory.left + self.new.memory.lacking + credit T.row list.new ≤
            self.new.memory.left + self.old.memory.lacking + credit T.row list.old + price T.row) }
        ensures room { vec_len list.old < vec_capacity list.old →
            (self.new.memory ≡ self.old.memory) × (vec_capacity list.new ≡ vec_capacity list.old) }
        ensures refused { OnErr result (Refused self.new.memory) }
        ensures stays { Stays self.old self.new }
    {
        self.memory.push_with_room(list, item, first)
    }

    /// Cuts the items from `at` on off a list, into a list of their own.
    #[inline(always)]
    pub fn split_off<T>(&mut self, list: &mut Vec<T>, at: usize) -> Result<Vec<T>, AllocError>
        requires { at ≤ vec_len list.old }
        ensures rest { OnOk result (list.new.items ≡ take at list.old.items) }
        ensures own { IfOk result (λ own. own.items ≡ drop at list.old.items) }
        ensures len { OnOk result (vec_len list.new ≡ at) }
        ensures capacity { vec_capacity list.new ≡ vec_capacity list.old }
        ensures takes { Takes (bytes T.row * (vec_len list.old - at)) self.old.memory self.new.memory }
        ensures refused { OnErr result (Refused self.new.memory) }
        ensures stays { Stays self.old self.new }
    {
        self.memory.split_off(list, at)
    }

    /// A box with this item.
    #[inline(always)]
    pub fn boxed<T: Drop>(&mut self, item: T) -> Result<Box<T>, AllocError>
        ensures item { IfOk result (λ b. b.value ≡ item) }
        ensures takes { Takes (bytes T.row) self.old.memory self.new.memory }
        ensures refused { OnErr result (Refused self.new.memory) }
        ensures stays { Stays self.old self.new }
    {
        self.memory.boxed(item)
    }

    /// Puts an item after the others of a small list. Where there is no room for it, the item is gone.
    #[inline(always)]
    pub fn push_small<T: MadeWith<Global> + Drop, const N: usize>(
        &mut self,
        list: &mut SmallVec<T, N>,
        item: T,
    ) -> Result<(), AllocError>
        ensures items { OnOk result (list.new.items ≡ list.old.items ++ item ∷ []) }
        ensures kept { OnErr result (list.new.items ≡ list.old.items) }
        ensures takes { Takes (small_credit N T.row list.old + price T.row) self.old.memory self.new.memory }
        ensures pays { OnOk result (self.old.memory.left + self.new.memory.lacking + small_credit N T.row list.new ≤
            self.new.memory.left + self.old.memory.lacking + small_credit N T.row list.old + price T.row) }
        ensures room { small_vec_len list.old < list.old.capacity →
            (self.new.memory ≡ self.old.memory) × OnErr result ⊥ }
        ensures refused { OnErr result (Refused self.new.memory) }
        ensures stays { Stays self.old self.new }
    {
        self.memory.push_small(list, item)
    }

    /// An empty map that is ordered by its keys. It takes no memory.
    #[inline(always)]
    pub fn empty_ordered<K: Ord, V>(&self) -> BTreeMap<K, V>
        ensures empty { ordered.IsEmpty result }
        ensures len { ordered.btree_map_len result ≡ 0 }
        ensures ordered { ordered.IsOrdered K.cmp result }
    {
        self.memory.empty_ordered()
    }

    /// Inserts a pair into a map that is ordered by its keys.
    #[inline(always)]
    pub fn insert_ordered<K: Ord + Drop, V: Drop>(
        &mut self,
        map: &mut BTreeMap<K, V>,
        key: K,
        value: V,
    ) -> Result<Option<V>, AllocError>
        ensures old { IfOk result (λ old. old ≡ ordered.get K.cmp map.old key) }
        ensures updates { OnOk result (ordered.Updates K.cmp map.old map.new key (Some value)) }
        ensures entries { OnOk result (map.new.entries ≡
            ordered.insert_entry K.cmp map.old.entries key value) }
        ensures len { IfOk result (λ old. ordered.btree_map_len map.new ≡
            ordered.btree_map_len map.old + (if is_some old then 0 else 1)) }
        ensures takes { Takes (pair_bytes K.row V.row) self.old.memory self.new.memory }
        ensures refused { OnErr result (Refused self.new.memory) }
        ensures stays { Stays self.old self.new }
    {
        self.memory.insert_ordered(map, key, value)
    }

    /// The value of a string with this content, as `string_value` gives it.
    pub fn string_value(&mut self, content: &str) -> Result<Option<String>, AllocError>
        ensures some { IfOk result (λ value.
            IfSome value (λ s. StringMeans Current (chars content.now) (chars (string_bytes s)))) }
        ensures none { IfOk result (λ value.
            IfNone value (¬ IsContent Current (chars content.now))) }
        ensures takes { Takes (length content.now) self.old.memory self.new.memory }
        ensures refused { OnErr result (Refused self.new.memory) }
        ensures stays { Stays self.old self.new }
    {
        string_value_in(&mut self.memory, content)
    }

    /// The value of a block string with this text between its quotes, as `block_string_value` gives it.
    pub fn block_string_value(&mut self, raw: &str) -> Result<String, AllocError>
        ensures value { IfOk result (λ value. chars (string_bytes value) ≡
            block_value (chars raw.now)) }
        ensures takes { Takes (length raw.now) self.old.memory self.new.memory }
        ensures refused { OnErr result (Refused self.new.memory) }
        ensures stays { Stays self.old self.new }
    {
        block_string_value_in(&mut self.memory, raw)
    }
}

//! Lists and boxes.
ghost use Rattle.std.specs.Prelude.{◌≡◌, ◌≤◌, ◌<◌, ◌+◌, ◌-◌, ◌*◌, ◌++◌, ◌∷◌, [], length, take, drop, IfOk, OnOk, OnErr, vec_len, vec_capacity};
ghost use Rattle.smallvec.specs.SmallVec.{HasRoomFor, small_vec_len};
ghost use Rattle.graphql_memory.specs.Memory.{Refused, Takes, Took, Denied, Blames, bytes, price, credit, small_places, small_credit};

use crate::{Memory, size_of_one};
use smallvec::SmallVec;
use std::alloc::{AllocError, Global};
use std::default::MadeWith;

// So many places has a list that grows for the first time, where its caller asks for no fewer.
const FIRST: usize = 4;

// How many places a full list of so many is made larger by: it doubles, once it has four. An empty one has room for so many
// as its caller asks for first. Items of more than 1,024 bytes have one place first.
#[inline(always)]
fn growth_of<T>(capacity: usize, first: usize) -> usize
    requires some { 0 < first }
    requires few { first ≤ 4 }
    ensures some { 0 < result }
    ensures most { capacity + result ≤ 4 * (capacity + 1) }
{
    let is_large = size_of_one::<T>() > 1024;
    if capacity == 0 {
        return if is_large { 1 } else { first };
    }
    if capacity < FIRST && !is_large {
        FIRST - capacity
    } else {
        capacity
    }
}

// The places of a small list's block.
#[inline(always)]
fn places_of<T: MadeWith<Global> + Drop, const N: usize>(list: &SmallVec<T, N>) -> usize
    ensures places { result ≡ small_places N list.now }
    ensures most { result ≤ list.now.capacity }
{
    let capacity = list.capacity();
    if N < capacity { capacity } else { 0 }
}

impl Memory {
    /// An empty list. It takes no memory.
    #[inline(always)]
    pub fn empty_list<T>(&self) -> Vec<T>
        ensures items { result.items ≡ [] }
        ensures free { credit T.row result ≡ 0 }
    {
        Vec::new(self.heap)
    }

    /// An empty list with room for as many as the slice has.
    #[inline(always)]
    pub fn list_for<T, U>(&mut self, items: &[U]) -> Result<Vec<T>, AllocError>
        ensures items { IfOk result (λ list. list.items ≡ []) }
        ensures room { IfOk result (λ list. vec_capacity list ≡ length items.now) }
        ensures takes { Takes (bytes T.row * length items.now) self.old self.new }
        ensures took { OnOk result (Took (bytes T.row * length items.now) self.old self.new) }
        ensures denied { OnErr result (Denied (bytes T.row * length items.now) self.old self.new) }
        ensures refused { OnErr result (Refused self.new) }
    {
        self.spend_for::<T>(items.len())?;
        let made = Vec::with_capacity(self.heap, items.len());
        self.told(made)
    }

    // Makes room in a full list.
    #[cold]
    #[inline(never)]
    fn grow<T>(&mut self, list: &mut Vec<T>, first: usize) -> Result<(), AllocError>
        requires full { vec_len list.old ≡ vec_capacity list.old }
        requires some { 0 < first }
        requires few { first ≤ 4 }
        ensures items { list.new.items ≡ list.old.items }
        ensures len { vec_len list.new ≡ vec_len list.old }
        ensures room { OnOk result (vec_len list.new < vec_capacity list.new) }
        ensures most { vec_capacity list.new ≤ 4 * (vec_len list.new + 1) }
        ensures takes { Takes (price T.row * (vec_len list.old + 1) - bytes T.row * vec_capacity list.old) self.old self.new }
        ensures took { OnOk result (Took (bytes T.row * (vec_capacity list.new - vec_capacity list.old)) self.old self.new) }
        ensures same { OnErr result (vec_capacity list.new ≡ vec_capacity list.old) }
        ensures blames { OnErr result (Blames (bytes T.row) self.old self.new) }
        ensures refused { OnErr result (Refused self.new) }
    {
        let growth = growth_of::<T>(list.capacity(), first);
        self.spend_for::<T>(growth)?;
        let grown = list.reserve_exact(growth);
        self.told(grown)
    }

    /// Puts an item after the others. A full list grows to twice its size; where it can't, the item is gone.
    #[inline(always)]
    pub fn push<T: Drop>(&mut self, list: &mut Vec<T>, item: T) -> Result<(), AllocError>
        ensures items { OnOk result (list.new.items ≡ list.old.items ++ item ∷ []) }
        ensures len { OnOk result (vec_len list.new ≡ vec_len list.old + 1) }
        ensures kept { OnErr result (list.new.items ≡ list.old.items) }
        ensures takes { Takes (credit T.row list.old + price T.row) self.old self.new }
        ensures pays { OnOk result (self.old.left + self.new.lacking + credit T.row list.new ≤
            self.new.left + self.old.lacking + credit T.row list.old + price T.row) }
        ensures room { vec_len list.old < vec_capacity list.old →
            (self.new ≡ self.old) × (vec_capacity list.new ≡ vec_capacity list.old) }
        ensures took { OnOk result (Took (bytes T.row * (vec_capacity list.new - vec_capacity list.old)) self.old self.new) }
        ensures blames { OnErr result (Blames (bytes T.row) self.old self.new) }
        ensures refused { OnErr result (Refused self.new) }
    {
        self.push_with_room(list, item, FIRST)
    }

    /// The same; an empty list first gets room for `items` items, four at most.
    #[inline(always)]
    pub fn push_with_room<T: Drop>(
        &mut self,
        list: &mut Vec<T>,
        item: T,
        first: usize,
    ) -> Result<(), AllocError>
        requires some { 0 < first }
        requires few { first ≤ 4 }
        ensures items { OnOk result (list.new.items ≡ list.old.items ++ item ∷ []) }
        ensures len { OnOk result (vec_len list.new ≡ vec_len list.old + 1) }
        ensures kept { OnErr result (list.new.items ≡ list.old.items) }
        ensures takes { Takes (credit T.row list.old + price T.row) self.old self.new }
        ensures pays { OnOk result (self.old.left + self.new.lacking + credit T.row list.new ≤
            self.new.left + self.old.lacking + credit T.row list.old + price T.row) }
        ensures room { vec_len list.old < vec_capacity list.old →
            (self.new ≡ self.old) × (vec_capacity list.new ≡ vec_capacity list.old) }
        ensures took { OnOk result (Took (bytes T.row * (vec_capacity list.new - vec_capacity list.old)) self.old self.new) }
        ensures blames { OnErr result (Blames (bytes T.row) self.old self.new) }
        ensures refused { OnErr result (Refused self.new) }
    {
        if list.len() == list.capacity() {
            self.grow(list, first)?;
        }
        list.push_reserved(item);
        Ok(())
    }

    /// Cuts the items from `at` on off a list, into a list of their own.
    #[inline(always)]
    pub fn split_off<T>(&mut self, list: &mut Vec<T>, at: usize) -> Result<Vec<T>, AllocError>
        requires { at ≤ vec_len list.old }
        ensures rest { OnOk result (list.new.items ≡ take at list.old.items) }
        ensures own { IfOk result (λ own. own.items ≡ drop at list.old.items) }
        ensures len { OnOk result (vec_len list.new ≡ at) }
        ensures capacity { vec_capacity list.new ≡ vec_capacity list.old }
        ensures takes { Takes (bytes T.row * (vec_len list.old - at)) self.old self.new }
        ensures took { OnOk result (Took (bytes T.row * (vec_len list.old - at)) self.old self.new) }
        ensures denied { OnErr result (Denied (bytes T.row * (vec_len list.old - at)) self.old self.new) }
        ensures refused { OnErr result (Refused self.new) }
    {
        self.spend_for::<T>(list.len() - at)?;
        let own = list.split_off(at);
        self.told(own)
    }

    /// A box with this item. Where there is none, the item is gone.
    #[inline(always)]
    pub fn boxed<T: Drop>(&mut self, item: T) -> Result<Box<T>, AllocError>
        ensures item { IfOk result (λ b. b.value ≡ item) }
        ensures takes { Takes (bytes T.row) self.old self.new }
        ensures took { OnOk result (Took (bytes T.row) self.old self.new) }
        ensures denied { OnErr result (Denied (bytes T.row) self.old self.new) }
        ensures refused { OnErr result (Refused self.new) }
    {
        self.spend(size_of_one::<T>())?;
        match Box::new(self.heap, item) {
            Ok(made) => Ok(made),
            Err(_) => Err(self.refuse()),
        }
    }

    /// An empty small list. It takes no memory.
    #[inline(always)]
    pub fn empty_small_list<T: MadeWith<Global> + Drop, const N: usize>(&self) -> SmallVec<T, N>
        ensures items { result.items ≡ [] }
        ensures free { small_credit N T.row result ≡ 0 }
        ensures room { result.capacity ≡ N }
    {
        SmallVec::new(self.heap)
    }

    // Makes room in a full small list. Its first block has room for the items that lay in it, too.
    #[cold]
    #[inline(never)]
    fn grow_small<T: MadeWith<Global> + Drop, const N: usize>(
        &mut self,
        list: &mut SmallVec<T, N>,
    ) -> Result<(), AllocError>
        requires { small_vec_len list.old ≡ list.old.capacity }
        ensures items { list.new.items ≡ list.old.items }
        ensures room { OnOk result (HasRoomFor list.new 1) }
        ensures places { OnOk result (small_places N list.old ≤ small_places N list.new) }
        ensures most { OnOk result (small_places N list.new ≤ 4 * (small_vec_len list.old + 1)) }
        ensures takes { Takes (price T.row * (small_vec_len list.old + 1) - bytes T.row * small_places N list.old) self.old self.new }
        ensures took { OnOk result (Took (bytes T.row * (small_places N list.new - small_places N list.old)) self.old self.new) }
        ensures refused { OnErr result (Refused self.new) }
    {
        let growth = growth_of::<T>(list.capacity(), FIRST);
        let Some(room) = list.capacity().checked_add(growth) else {
            return Err(self.refuse());
        };
        self.spend_for::<T>(room - places_of(list))?;
        match list.reserve_exact(growth) {
            Ok(()) => Ok(()),
            Err(_) => Err(self.refuse()),
        }
    }

    /// Puts an item after the others of a small list. Where a full one can't grow, the item is gone.
    #[inline(always)]
    pub fn push_small<T: MadeWith<Global> + Drop, const N: usize>(
        &mut self,
        list: &mut SmallVec<T, N>,
        item: T,
    ) -> Result<(), AllocError>
        ensures items { OnOk result (list.new.items ≡ list.old.items ++ item ∷ []) }
        ensures kept { OnErr result (list.new.items ≡ list.old.items) }
        ensures takes { Takes (small_credit N T.row list.old + price T.row) self.old self.new }
        ensures pays { OnOk result (self.old.left + self.new.lacking + small_credit N T.row list.new ≤
            self.new.left + self.old.lacking + small_credit N T.row list.old + price T.row) }
        ensures room { small_vec_len list.old < list.old.capacity → (self.new ≡ self.old) × OnErr result ⊥ }
        ensures took { OnOk result (Took (bytes T.row * (small_places N list.new - small_places N list.old)) self.old self.new) }
        ensures refused { OnErr result (Refused self.new) }
    {
        if list.len() == list.capacity() {
            self.grow_small(list)?;
        }
        list.push_reserved(item);
        Ok(())
    }
}

//! Who takes memory for a parser, and what it means that it was refused.
//!
//! Proved of it is the account: each call takes off the budget what it counts for what it grants, to the byte, and fails only
//! if it was denied, as the heap's answer, which is kept, or for more than was left; and it makes what the call of the library
//! makes that it stands for.
//!
//! No contract says what the heap was asked for, nor that an allocation succeeds. That a denial which is kept is the heap's,
//! and that nothing is taken beside the account, is by the shape of the code: only this crate has the heap of a `Memory`, each
//! call here counts and then asks, and `tools/checks` finds no other way to the heap in the crates of readers.
#![tactic(auto)]

ghost use Rattle.std.specs.Prelude.{◌≡◌, ◌≢◌, ◌≤◌, ◌<◌, ◌⊎◌, ◌↔◌, ◌+◌, ◌*◌, ◌^◌, OnOk, OnErr, true};
ghost use Rattle.graphql_memory.specs.Memory.{Refused, Takes, Took, Denied, bytes};
ghost use Rattle.graphql_memory.specs.Refusals.{HeapRefused};

mod lists;
mod maps;
mod texts;

use std::alloc::{AllocError, Global};
use std::mem::size_of;

/// Takes memory from the heap, up to so many bytes by its own count, and knows whether the heap denied a request or one was
/// for more than was left.
///
/// It counts:
/// - for a list, a box or a text that is made: the bytes of its block
/// - for a list or a text that grows: the bytes that are added. The old block and the new one are both held for a moment
/// - for each insertion into a map: the bytes of the key and the value, and sixteen more, whatever blocks the map asks for (the
///   first has room for several pairs)
///
/// It counts nothing off for what is freed, and nothing for a list that is moved into a block of just its length.
#[derive(Drop)]
pub struct Memory {
    heap: Global,
    // The bytes that may still be taken.
    left: usize,
    // The bytes of the last request that was for more than was left; 0 if there was none.
    lacking: usize,
    // How often the heap refused a request, counted round.
    refusals: u64,
}

// The bytes of one value.
#[inline(always)]
pub(crate) fn size_of_one<T>() -> usize
    ensures { result ≡ bytes T.row }
{
    size_of::<T>()
}

impl Memory {
    /// Memory of as many bytes as a budget can have, 2^64 - 1: in effect no bound but the heap's.
    #[inline(always)]
    pub fn new(heap: Global) -> Memory
        ensures left { result.left + 1 ≡ 2 ^ 64 }
        ensures lacking { result.lacking ≡ 0 }
        ensures granted { ¬ (Refused result) }
    {
        Memory::with_budget(heap, usize::MAX)
    }

    /// Memory of at most `bytes` bytes, as it counts them.
    #[inline(always)]
    pub fn with_budget(heap: Global, bytes: usize) -> Memory
        ensures left { result.left ≡ bytes }
        ensures lacking { result.lacking ≡ 0 }
        ensures granted { ¬ (Refused result) }
    {
        Memory {
            heap,
            left: bytes,
            lacking: 0,
            refusals: 0,
        }
    }

    /// As much memory as is left, for one call, which gives it back to [`settle`](Memory::settle).
    #[inline(always)]
    pub fn lend(&self) -> Memory
        ensures left { result.left ≡ self.now.left }
        ensures lacking { result.lacking ≡ 0 }
        ensures granted { ¬ (Refused result) }
    {
        Memory::with_budget(self.heap, self.left)
    }

    /// What was lent is given back: what of it was taken is gone, and what the heap refused is kept.
    #[inline(always)]
    pub fn settle(&mut self, lent: Memory)
        requires { lent.left ≤ self.old.left }
        ensures left { self.new.left ≡ lent.left }
        ensures refused { Refused lent → HeapRefused self.old self.new ⊎ (lent.left < lent.lacking) }
    {
        self.left = lent.left;
        if lent.refusals > 0 {
            self.refuse();
        }
    }

    /// The bytes that may still be taken, as it counts them.
    #[inline(always)]
    pub fn left(&self) -> usize
        ensures { result ≡ self.now.left }
    {
        self.left
    }

    /// Whether the heap has denied a request, or one was for more bytes than a `usize` counts.
    #[inline(always)]
    pub fn heap_refused(&self) -> bool
        ensures { (result ≡ true) ↔ (self.now.refusals ≢ 0) }
    {
        self.refusals != 0
    }

    // Takes `bytes` off the budget.
    #[inline]
    fn spend(&mut self, bytes: usize) -> Result<(), AllocError>
        ensures takes { Takes bytes self.old self.new }
        ensures took { OnOk result (Took bytes self.old self.new) }
        ensures denied { OnErr result (Denied bytes self.old self.new) }
        ensures refused { OnErr result (Refused self.new) }
    {
        if self.left < bytes {
            self.lacking = bytes;
            return Err(AllocError);
        }
        self.left -= bytes;
        Ok(())
    }

    // Takes the bytes of `places` values off the budget.
    #[inline(always)]
    fn spend_for<T>(&mut self, places: usize) -> Result<(), AllocError>
        ensures takes { Takes (bytes T.row * places) self.old self.new }
        ensures took { OnOk result (Took (bytes T.row * places) self.old self.new) }
        ensures denied { OnErr result (Denied (bytes T.row * places) self.old self.new) }
        ensures refused { OnErr result (Refused self.new) }
    {
        match size_of_one::<T>().checked_mul(places) {
            Some(cost) => self.spend(cost),
            None => Err(self.refuse_more_than_any()),
        }
    }

    // A request for more bytes than can be counted: no budget has them, and no heap.
    #[cold]
    #[inline(never)]
    fn refuse_more_than_any(&mut self) -> AllocError
        ensures refused { Refused self.new }
        ensures left { self.new.left ≡ self.old.left }
        ensures lacking { self.new.lacking + 1 ≡ 2 ^ 64 }
    {
        self.lacking = usize::MAX;
        self.refuse()
    }

    // The heap refused a request, which is counted. The number after the largest is 1, since 0 says that there was none.
    #[cold]
    #[inline(never)]
    fn refuse(&mut self) -> AllocError
        ensures refused { Refused self.new }
        ensures counted { HeapRefused self.old self.new }
        ensures left { self.new.left ≡ self.old.left }
        ensures lacking { self.new.lacking ≡ self.old.lacking }
    {
        self.refusals = if self.refusals == u64::MAX {
            1
        } else {
            self.refusals + 1
        };
        AllocError
    }

    // What the heap answered.
    #[inline(always)]
    fn told<T>(&mut self, answer: Result<T, AllocError>) -> Result<T, AllocError>
        ensures same { result ≡ answer }
        ensures refused { OnErr result (Refused self.new) }
        ensures counted { OnErr result (HeapRefused self.old self.new) }
        ensures granted { OnOk result (self.new ≡ self.old) }
        ensures left { self.new.left ≡ self.old.left }
        ensures lacking { self.new.lacking ≡ self.old.lacking }
    {
        match answer {
            Ok(made) => Ok(made),
            Err(_) => Err(self.refuse()),
        }
    }
}

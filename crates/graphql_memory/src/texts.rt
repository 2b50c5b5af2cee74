//! Texts.
ghost use Rattle.std.specs.Prelude.{◌≡◌, ◌≤◌, ◌<◌, ◌+◌, ◌++◌, ◌∷◌, [], length, IfOk, OnOk, OnErr, string_bytes, encode_utf8};
ghost use Rattle.std.specs.String.{string_capacity};
ghost use Rattle.graphql_memory.specs.Memory.{Refused, Takes, Took, Denied};

use crate::Memory;
use std::alloc::AllocError;

// How many bytes a text of this capacity is made larger by for so many more: it doubles, and has eight at least.
fn growth_for(capacity: usize, more: usize) -> usize {
    more.max(capacity).max(8)
}

impl Memory {
    /// An empty text. It takes no memory.
    #[inline(always)]
    pub fn empty_text(&self) -> String
        ensures { string_bytes result ≡ [] }
    {
        String::new(self.heap)
    }

    /// A text of its own.
    #[inline(always)]
    pub fn text_of(&mut self, text: &str) -> Result<String, AllocError>
        ensures text { IfOk result (λ s. string_bytes s ≡ text.now) }
        ensures takes { Takes (length text.now) self.old self.new }
        ensures took { OnOk result (Took (length text.now) self.old self.new) }
        ensures denied { OnErr result (Denied (length text.now) self.old self.new) }
        ensures refused { OnErr result (Refused self.new) }
    {
        self.spend(text.len())?;
        let made = String::from_str(self.heap, text);
        self.told(made)
    }

    /// An empty text with room for as many bytes as this one has.
    #[inline(always)]
    pub fn text_with_room(&mut self, text: &str) -> Result<String, AllocError>
        ensures text { IfOk result (λ s. string_bytes s ≡ []) }
        ensures room { IfOk result (λ s. length text.now ≤ string_capacity s) }
        ensures takes { Takes (length text.now) self.old self.new }
        ensures took { OnOk result (Took (length text.now) self.old self.new) }
        ensures denied { OnErr result (Denied (length text.now) self.old self.new) }
        ensures refused { OnErr result (Refused self.new) }
    {
        self.spend(text.len())?;
        let made = String::with_capacity(self.heap, text.len());
        self.told(made)
    }

    /// Puts a text after another. Where there is room for it, it takes no memory.
    #[inline(always)]
    pub fn push_text(&mut self, text: &mut String, more: &str) -> Result<(), AllocError>
        ensures text { OnOk result (string_bytes text.new ≡ string_bytes text.old ++ more.now) }
        ensures capacity { string_capacity text.old ≤ string_capacity text.new }
        ensures room { length (string_bytes text.old) + length more.now ≤ string_capacity text.old →
            self.new ≡ self.old }
        ensures refused { OnErr result (Refused self.new) }
    {
        if text.capacity() - text.len() < more.len() {
            self.spend(growth_for(text.capacity(), more.len()))?;
        }
        let pushed = text.push_str(more);
        self.told(pushed)
    }

    /// Puts a character after a text. Where there is room for it, it takes no memory.
    #[inline(always)]
    pub fn push_char(&mut self, text: &mut String, c: char) -> Result<(), AllocError>
        ensures text { OnOk result (string_bytes text.new ≡ string_bytes text.old ++
            encode_utf8 c) }
        ensures capacity { string_capacity text.old ≤ string_capacity text.new }
        ensures room { length (string_bytes text.old) + length (encode_utf8 c) ≤ string_capacity text.old →
            self.new ≡ self.old }
        ensures few { length (encode_utf8 c) ≤ 4 }
        ensures ascii { c < 128 → encode_utf8 c ≡ c ∷ [] }
        ensures refused { OnErr result (Refused self.new) }
    {
        if text.capacity() - text.len() < c.len_utf8() {
            self.spend(growth_for(text.capacity(), 4))?;
        }
        let pushed = text.push(c);
        self.told(pushed)
    }
}

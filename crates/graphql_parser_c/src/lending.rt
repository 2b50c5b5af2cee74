//! What a caller in C lends to a call, and is given back.
//!
//! A caller passes a text as a pointer and a length, and room for places as a pointer. Either pointer may be null: the one
//! if the text has no bytes, the other if nobody wants places. So neither is a `&`, and a value of this module says
//! which memory its pointer stands for. On x86-64 a struct of a pointer and a length is passed as these two are, and one of
//! a pointer, or of a number, as that one is; the header declares them so.
//!
//! None of these values can be dropped. What is lent to a call goes into the [`Told`] that the call answers with, by
//! which the caller has it back.
ghost use Rattle.std.specs.Prelude.{◌≡◌, ℕ, List, length};
ghost use Rattle.std.specs.Ptr.{Ptr};
ghost use Rattle.graphql_parser_c.specs.Lending.{is_back, is_counted, is_lent, is_room, text_lies_at};
ghost use Rattle.graphql_parser_c.specs.declared.telling.Places.{Places};

use crate::telling::Places;
use std::marker::Model;

/// A text: where its bytes are, which may be null if there are none, and how many there are. Nothing changes them
/// during the lifetime `life`, which lasts until the caller has it back.
#[repr(C)]
pub struct Text {
    start: *const u8,
    length: usize,
    pub ghost bytes: { List ℕ },
    pub ghost life: { ℕ },
}

impl Model for Text {
    ghost also_owns = { λ text. is_counted text.start text.length text.bytes text.life };
}

/// A text that can be read.
pub struct Lent {
    start: *const u8,
    pub ghost bytes: { List ℕ },
    pub ghost life: { ℕ },
}

impl Model for Lent {
    ghost also_owns = { λ lent. is_lent lent.start lent.bytes lent.life };

    ghost also_shares = { λ lent _ κ. text_lies_at lent.start lent.bytes κ };
}

/// Room for places, or null. What is there before may be any places.
#[repr(C)]
pub struct Room {
    at: *mut Places,
}

impl Model for Room {
    ghost also_owns = { λ room. is_room room.at };
}

/// What a call reports: the number of a status, and places, if there was room for them; and with that, the text is the
/// caller's own again.
#[repr(C)]
pub struct Told {
    pub number: u32,
    pub ghost life: { ℕ },
    pub ghost at: { Ptr },
    pub ghost places: { Places },
}

impl Model for Told {
    ghost also_owns = { λ told. is_back told.life told.at told.places };
}

impl Text {
    /// The text, to be read, and the number of its bytes.
    pub fn lent(self) -> (Lent, usize)
        ensures { (result.0.bytes ≡ self.bytes) × (result.0.life ≡ self.life) ×
            (result.1 ≡ length self.bytes) }
    {
        let Text { start, length } = self;
        (Lent { start }, length)
    }
}

impl Lent {
    /// The bytes, of which there are `count`.
    pub fn bytes(&self, count: usize) -> &[u8]
        requires { count ≡ length self.now.bytes }
        ensures { result.now ≡ self.now.bytes }
    {
        if count == 0 {
            return &[];
        }
        self.some_bytes(count)
    }

    // The same, where there is a byte. So the pointer isn't null.
    fn some_bytes(&self, count: usize) -> &[u8]
        requires { (count ≡ length self.now.bytes) × ¬ (count ≡ 0) }
        ensures { result.now ≡ self.now.bytes }
    {
        unsafe { std::slice::from_raw_parts(self.start, count) }
    }
}

impl Told {
    /// Writes the places where there is room for them, and gives back what was lent.
    pub fn of(number: u32, places: Places, room: Room, lent: Lent) -> Told
        ensures { (result.number ≡ number) × (result.places ≡ places) × (result.at ≡ room.at) ×
            (result.life ≡ lent.life) }
    {
        let Lent { start: _ } = lent;
        let Room { at } = room;
        if !at.is_null() {
            unsafe { *at = places };
        }
        Told { number }
    }
}

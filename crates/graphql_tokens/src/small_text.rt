//! Short texts in place, long ones in a block of their own.
ghost use Rattle.std.specs.Prelude.{◌≡◌, ◌≤◌, ◌+◌, length, take, IfOk, IfSome, IsOk, IsSome, OnErr};
ghost use Rattle.graphql_memory.specs.Memory.{Refused, Takes};
ghost use Rattle.graphql_tokens.specs.tokens.Within.{StandsAt};

use graphql_memory::Memory;
use std::alloc::AllocError;
use std::marker::Model;
use std::str;

// So many bytes lie in place: with their number and a tag they are three words.
const ROOM: usize = 22;

#[derive(Drop)]
enum Place {
    // The text is so many of the bytes; those after it are any. The length comes first, so that the bytes end with the
    // third word, and whole words of them are moved.
    Short { len: u8, bytes: [u8; ROOM] },
    Long(Box<String>),
}

/// A text of at most 22 bytes in the value itself, and a longer one in a block of its own.
#[derive(Drop)]
pub struct SmallText(Place);

impl Model for SmallText {
    ghost use Rattle.std.specs.Prelude.{ℕ, List};
    ghost use Rattle.graphql_tokens.specs.inner.SmallText.{text_bytes, IsPlacedByLength};

    ghost Value = { List ℕ };

    ghost view = { λ t. text_bytes t.0 };

    ghost invariant = { λ t. IsPlacedByLength t.0 };
}

// The bytes of a short text, and any others after them.
fn bytes_of(text: &str) -> [u8; ROOM]
    requires { length text.now ≤ 22 }
    ensures { take (length text.now) result ≡ text.now }
{
    let bytes = text.as_bytes();
    let mut room = [0; ROOM];
    room[..bytes.len()].copy_from_slice(bytes);
    room
}

impl SmallText {
    /// This text, if it is at most 22 bytes long; None where it is longer.
    #[inline]
    pub fn in_place(text: &str) -> Option<SmallText>
        ensures text { IfSome result (λ small. small ≡ text.now) }
        ensures room { length text.now ≤ 22 → IsSome result }
        ensures fits { IsSome result → length text.now ≤ 22 }
    {
        if text.len() > ROOM {
            return None;
        }
        Some(SmallText(Place::Short {
            bytes: bytes_of(text),
            len: text.len() as u8,
        }))
    }

    /// This text. Fails only where it is longer than 22 bytes and no memory is left for it.
    #[inline(never)]
    pub fn new(memory: &mut Memory, text: &str) -> Result<SmallText, AllocError>
        ensures text { IfOk result (λ small. small ≡ text.now) }
        ensures short { length text.now ≤ 22 → IsOk result }
        ensures takes { Takes (24 + length text.now) memory.old memory.new }
        ensures refused { OnErr result (Refused memory.new) }
    {
        match SmallText::in_place(text) {
            Some(small) => Ok(small),
            None => {
                let text = memory.text_of(text)?;
                Ok(SmallText(Place::Long(memory.boxed(text)?)))
            }
        }
    }

    /// This text, which stands in `whole` from this offset on: as `new`, but where so many bytes are left there, 22 are
    /// copied at once, however long the text is.
    #[inline(always)]
    pub fn new_within(
        memory: &mut Memory,
        text: &str,
        whole: &str,
        start: usize,
    ) -> Result<SmallText, AllocError>
        requires { StandsAt text.now whole.now start }
        ensures text { IfOk result (λ small. small ≡ text.now) }
        ensures short { length text.now ≤ 22 → IsOk result }
        ensures takes { Takes (24 + length text.now) memory.old memory.new }
        ensures refused { OnErr result (Refused memory.new) }
    {
        if text.len() <= ROOM
            && let Some(bytes) = whole.as_bytes()[start..].first_chunk::<ROOM>()
        {
            return Ok(SmallText(Place::Short {
                bytes: *bytes,
                len: text.len() as u8,
            }));
        }
        SmallText::new(memory, text)
    }

    /// The text, borrowed.
    #[inline]
    pub fn as_str(&self) -> &str
        ensures { result.now ≡ self.now }
    {
        match &self.0 {
            Place::Short { bytes, len } => unsafe {
                str::from_utf8_unchecked(&bytes[..*len as usize])
            },
            Place::Long(text) => text.as_str(),
        }
    }
}

/// A clone of a text of at most 22 bytes never fails; that of a longer one fails where no memory is left for it.
impl Clone for SmallText {
    ghost use Rattle.std.specs.Prelude.{◌≤◌, length};

    ghost is_clone = { λ text copy. copy ≡ text };

    ghost is_infallible = { λ text. length text ≤ 22 };

    fn clone(&self) -> Result<SmallText, AllocError> {
        match &self.0 {
            Place::Short { bytes, len } => Ok(SmallText(Place::Short {
                bytes: *bytes,
                len: *len,
            })),
            Place::Long(text) => {
                let copy = (**text).clone()?;
                Ok(SmallText(Place::Long(Box::new(*Box::allocator(text), copy)?)))
            }
        }
    }
}

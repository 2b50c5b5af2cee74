//! Whether all bytes of a text are of one class. Eight are looked at at once.
ghost use Rattle.std.specs.Prelude.{◌≡◌, ◌≤◌, ◌<◌, ◌+◌, ℕ, Bool, drop, length, map};
ghost use Rattle.std.specs.List.{list_all};
ghost use Rattle.std.specs.Simd.Lanes.{mask_l};
ghost use Rattle.graphql_tokens.specs.inner.ByteClasses.{is_outside};
ghost use Rattle.graphql_tokens.specs.tokens.Classes.{is_name_char};
ghost use Rattle.graphql_printer.specs.inner.Words.{stays_in_string};

use std::simd::prelude::*;

// How many bytes are looked at at once.
const LANES: usize = 8;

/// A class of bytes. The type that implements it only names the class; there needn't be a value of it.
pub trait ByteClass {
    ghost has: { ℕ → Bool };

    /// Whether a byte is of the class.
    fn has(b: u8) -> bool
        ensures { result ≡ Self.has b };

    /// A bit for each of eight bytes, the first one's the lowest, which is set where the byte isn't of the class.
    fn outsiders(bytes: u8x8) -> u64
        ensures { result ≡ mask_l (map (is_outside Self.has) bytes) };
}

/// Whether all of the bytes are of the class.
#[inline(always)]
pub fn are_all<C: ByteClass>(bytes: &[u8]) -> bool
    ensures { result ≡ list_all C.has bytes.now }
{
    let mut at = 0;
    while bytes.len() - at >= LANES {
        if C::outsiders(u8x8::from_slice(&bytes[at..])) != 0 {
            return false;
        }
        at += LANES;
    }
    are_last::<C>(bytes, at)
}

// The same where the bytes up to an index are of the class, and fewer are left than are looked at at once. Where there are
// enough, the last eight are looked at, some of them once more.
#[inline(always)]
fn are_last<C: ByteClass>(bytes: &[u8], from: usize) -> bool
    requires within { from ≤ length bytes.now }
    requires few { length bytes.now < from + 8 }
    requires run { list_all C.has (drop from bytes.now) ≡ list_all C.has bytes.now }
    ensures { result ≡ list_all C.has bytes.now }
{
    if from == bytes.len() {
        return true;
    }
    if bytes.len() >= LANES {
        let last = bytes.len() - LANES;
        return C::outsiders(u8x8::from_slice(&bytes[last..])) == 0;
    }
    bytes.iter().all(|b| C::has(*b))
}

/// What names are made of: letters, `_` and digits.
pub struct NameBytes;

impl ByteClass for NameBytes {
    ghost has = { is_name_char };

    #[inline(always)]
    fn has(b: u8) -> bool {
        b.is_ascii_alphabetic() || b == b'_' || b.is_ascii_digit()
    }

    // A letter's bit 32 tells only its case. What lies before the range that is looked for wraps around past its end.
    #[inline(always)]
    fn outsiders(bytes: u8x8) -> u64 {
        let letters = (bytes | u8x8::splat(0x20)) - u8x8::splat(b'a');
        let digits = bytes - u8x8::splat(b'0');
        let outside = letters.simd_ge(u8x8::splat(26))
            & digits.simd_ge(u8x8::splat(10))
            & bytes.simd_ne(u8x8::splat(b'_'));
        outside.to_bitmask()
    }
}

/// The bytes of characters that stand for themselves in a string that is printed. With C2 begin some that don't: U+0080 to
/// U+009F.
pub struct StringBytes;

impl ByteClass for StringBytes {
    ghost has = { stays_in_string };

    #[inline(always)]
    fn has(b: u8) -> bool {
        b >= b' ' && b != b'"' && b != b'\\' && b != 0x7f && b != 0xc2
    }

    #[inline(always)]
    fn outsiders(bytes: u8x8) -> u64 {
        let outside = bytes.simd_lt(u8x8::splat(b' '))
            | bytes.simd_eq(u8x8::splat(b'"'))
            | bytes.simd_eq(u8x8::splat(b'\\'))
            | bytes.simd_eq(u8x8::splat(0x7f))
            | bytes.simd_eq(u8x8::splat(0xc2));
        outside.to_bitmask()
    }
}

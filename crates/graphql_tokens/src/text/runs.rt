//! Where a run of bytes of one class ends. Sixteen bytes are looked at at once, so that the length of a short run decides
//! no branch.

ghost use Rattle.std.specs.Prelude.{◌≡◌, ℕ, ◌≤◌, ◌<◌, ◌+◌, ◌&&◌, ◌==◌, Bool, not, nat_lt, drop, length, map};
ghost use Rattle.std.specs.Char.{is_ascii_digit};
ghost use Rattle.std.specs.List.{prefix_len};
ghost use Rattle.std.specs.Simd.Lanes.{mask_l};
ghost use Rattle.std.specs.Str.{byte};
ghost use Rattle.graphql_tokens.specs.inner.ByteClasses.{is_outside};
ghost use Rattle.graphql_tokens.specs.tokens.BlockText.{is_blank_char};
ghost use Rattle.graphql_tokens.specs.tokens.Classes as classes;
ghost use Rattle.graphql_tokens.specs.tokens.Place.{is_in_line};
ghost use Rattle.graphql_tokens.specs.tokens.Strings as strings;

use crate::lexer::class::CharClass;
use std::simd::prelude::*;

// How many bytes are looked at at once.
const LANES: usize = 16;

// A class of bytes. The type that implements it only names the class; there needn't be a value of it.
pub(crate) trait ByteClass {
    ghost has: { ℕ → Bool };

    // Whether a byte is of the class.
    fn has(b: u8) -> bool
        ensures { result ≡ Self.has b };

    // A bit for each of sixteen bytes, the first one's the lowest, which is set where the byte isn't of the class.
    fn outsiders(bytes: u8x16) -> u64
        ensures { result ≡ mask_l (map (is_outside Self.has) bytes) };
}

// Where the first byte from `start` on stands that isn't of the class, or the end of the bytes.
#[inline(always)]
pub(crate) fn past_run<C: ByteClass>(bytes: &[u8], start: usize) -> usize
    requires { start ≤ length bytes.now }
    ensures value { result ≡ start + prefix_len C.has (drop start bytes.now) }
    ensures within { result ≤ length bytes.now }
{
    let mut at = start;
    while bytes.len() - at >= LANES {
        let outsiders = C::outsiders(u8x16::from_slice(&bytes[at..]));
        if outsiders != 0 {
            return at + outsiders.trailing_zeros() as usize;
        }
        at += LANES;
    }
    past_last::<C>(bytes, start, at)
}

// The same where the bytes from `start` up to `from` are of the class, and fewer are left than are looked at at once.
// Where there are enough before them, the last sixteen are looked at, some of them once more. Never inlined: most runs end
// before.
#[inline(never)]
fn past_last<C: ByteClass>(bytes: &[u8], start: usize, from: usize) -> usize
    requires forward { start ≤ from }
    requires few { length bytes.now < from + 16 }
    requires within { from ≤ length bytes.now }
    requires run { start + prefix_len C.has (drop start bytes.now) ≡
        from + prefix_len C.has (drop from bytes.now) }
    ensures { result ≡ start + prefix_len C.has (drop start bytes.now) }
{
    if from < bytes.len() && from - start >= LANES {
        let last = bytes.len() - LANES;
        let outsiders = C::outsiders(u8x16::from_slice(&bytes[last..]));
        if outsiders == 0 {
            return bytes.len();
        }
        return last + outsiders.trailing_zeros() as usize;
    }
    let mut at = from;
    while at < bytes.len() && C::has(bytes[at]) {
        at += 1;
    }
    at
}

// What a name goes on with: letters, digits and `_`.
pub(crate) struct NameChars;

impl ByteClass for NameChars {
    ghost has = { classes.is_name_char };

    #[inline(always)]
    fn has(b: u8) -> bool {
        CharClass::NameChar.has(b)
    }

    // A letter's bit 32 tells only its case. What lies before the range that is looked for wraps around past its end.
    #[inline(always)]
    fn outsiders(bytes: u8x16) -> u64 {
        let letters = (bytes | u8x16::splat(0x20)) - u8x16::splat(b'a');
        let digits = bytes - u8x16::splat(b'0');
        let outside = letters.simd_ge(u8x16::splat(26))
            & digits.simd_ge(u8x16::splat(10))
            & bytes.simd_ne(u8x16::splat(b'_'));
        outside.to_bitmask()
    }
}

// The bytes of plain characters of a string.
pub(crate) struct Plain;

impl ByteClass for Plain {
    ghost has = { strings.is_plain };

    #[inline(always)]
    fn has(b: u8) -> bool {
        CharClass::Plain.has(b)
    }

    #[inline(always)]
    fn outsiders(bytes: u8x16) -> u64 {
        let outside = bytes.simd_eq(u8x16::splat(b'"'))
            | bytes.simd_eq(u8x16::splat(b'\\'))
            | bytes.simd_eq(u8x16::splat(b'\n'))
            | bytes.simd_eq(u8x16::splat(b'\r'));
        outside.to_bitmask()
    }
}

// The plain characters of a string that are ASCII ones.
pub(crate) struct PlainAscii;

impl ByteClass for PlainAscii {
    ghost has = { λ b. strings.is_plain b && nat_lt b 128 };

    #[inline(always)]
    fn has(b: u8) -> bool {
        CharClass::PlainAscii.has(b)
    }

    #[inline(always)]
    fn outsiders(bytes: u8x16) -> u64 {
        let outside = bytes.simd_eq(u8x16::splat(b'"'))
            | bytes.simd_eq(u8x16::splat(b'\\'))
            | bytes.simd_eq(u8x16::splat(b'\n'))
            | bytes.simd_eq(u8x16::splat(b'\r'))
            | bytes.simd_ge(u8x16::splat(0x80));
        outside.to_bitmask()
    }
}

// Tabs and spaces.
pub(crate) struct Blanks;

impl ByteClass for Blanks {
    ghost has = { is_blank_char };

    #[inline(always)]
    fn has(b: u8) -> bool {
        b == b'\t' || b == b' '
    }

    #[inline(always)]
    fn outsiders(bytes: u8x16) -> u64 {
        let outside = bytes.simd_ne(u8x16::splat(b'\t')) & bytes.simd_ne(u8x16::splat(b' '));
        outside.to_bitmask()
    }
}

// The ASCII characters that end no line.
pub(crate) struct InLine;

impl ByteClass for InLine {
    ghost has = { λ b. is_in_line b && nat_lt b 128 };

    #[inline(always)]
    fn has(b: u8) -> bool {
        b != b'\n' && b != b'\r' && b < 0x80
    }

    #[inline(always)]
    fn outsiders(bytes: u8x16) -> u64 {
        let outside = bytes.simd_eq(u8x16::splat(b'\n'))
            | bytes.simd_eq(u8x16::splat(b'\r'))
            | bytes.simd_ge(u8x16::splat(0x80));
        outside.to_bitmask()
    }
}

// The bytes of a line.
pub(crate) struct LineBytes;

impl ByteClass for LineBytes {
    ghost has = { is_in_line };

    #[inline(always)]
    fn has(b: u8) -> bool {
        b != b'\n' && b != b'\r'
    }

    #[inline(always)]
    fn outsiders(bytes: u8x16) -> u64 {
        let outside = bytes.simd_eq(u8x16::splat(b'\n')) | bytes.simd_eq(u8x16::splat(b'\r'));
        outside.to_bitmask()
    }
}

// The bytes of a line but for backslashes.
pub(crate) struct UnquotedBytes;

impl ByteClass for UnquotedBytes {
    ghost has = { λ b. is_in_line b && not (b == byte "\\") };

    #[inline(always)]
    fn has(b: u8) -> bool {
        b != b'\n' && b != b'\r' && b != b'\\'
    }

    #[inline(always)]
    fn outsiders(bytes: u8x16) -> u64 {
        let outside = bytes.simd_eq(u8x16::splat(b'\n'))
            | bytes.simd_eq(u8x16::splat(b'\r'))
            | bytes.simd_eq(u8x16::splat(b'\\'));
        outside.to_bitmask()
    }
}

// The decimal digits.
pub(crate) struct Digits;

impl ByteClass for Digits {
    ghost has = { is_ascii_digit };

    #[inline(always)]
    fn has(b: u8) -> bool {
        CharClass::Digit.has(b)
    }

    #[inline(always)]
    fn outsiders(bytes: u8x16) -> u64 {
        let digits = bytes - u8x16::splat(b'0');
        digits.simd_ge(u8x16::splat(10)).to_bitmask()
    }
}

//! Where the blanks that a text begins with end, and its first line. Sixty-four bytes are looked at at once, so that the length
//! of most decides no branch.
ghost use Rattle.std.specs.Prelude.{◌≡◌, ◌≤◌, length, map};
ghost use Rattle.std.specs.List.{prefix_len};
ghost use Rattle.std.specs.Simd.Lanes.{mask_l};
ghost use Rattle.graphql_tokens.specs.inner.ByteClasses.{is_outside};
ghost use Rattle.graphql_tokens.specs.tokens.Place.{is_in_line};
ghost use Rattle.graphql_layout.specs.inner.Standing.{is_blank_byte};

use memchr::memchr2;
use std::simd::prelude::*;

// How many bytes are looked at at once.
const LANES: usize = 64;

// Four times: at the lowest four bits of each tab, space, comma and line end the byte itself, and elsewhere a byte that has others.
const BLANKS: [u8; LANES] = [
    b' ', 0, 0, 0, 0, 0, 0, 0, 0, b'\t', b'\n', 0, b',', b'\r', 0, 0, b' ', 0, 0, 0, 0, 0, 0, 0, 0,
    b'\t', b'\n', 0, b',', b'\r', 0, 0, b' ', 0, 0, 0, 0, 0, 0, 0, 0, b'\t', b'\n', 0, b',', b'\r',
    0, 0, b' ', 0, 0, 0, 0, 0, 0, 0, 0, b'\t', b'\n', 0, b',', b'\r', 0, 0,
];

// Whether it is a tab, a space, a comma or ends a line.
fn is_blank(b: u8) -> bool
    ensures { result ≡ is_blank_byte b }
{
    b == b'\t' || b == b' ' || b == b',' || b == b'\n' || b == b'\r'
}

// A bit for each of these bytes, the first one's the lowest, which is set where the byte is none of these.
#[inline(always)]
fn others(bytes: u8x64) -> u64
    ensures { result ≡ mask_l (map (is_outside is_blank_byte) bytes) }
{
    let blanks = u8x64::from_array(BLANKS);
    let same = blanks.swizzle_dyn_within::<16>(bytes & u8x64::splat(15));
    bytes.simd_ne(same).to_bitmask()
}

/// How many tabs, spaces, commas and line ends a text begins with.
#[inline(always)]
pub fn blanks_of(bytes: &[u8]) -> usize
    ensures value { result ≡ prefix_len is_blank_byte bytes.now }
    ensures within { result ≤ length bytes.now }
{
    if bytes.len() >= LANES {
        let others = others(u8x64::from_slice(bytes));
        if others != 0 {
            return others.trailing_zeros() as usize;
        }
    }
    long_blanks_of(bytes)
}

// The same, of many or of a short text. Never inlined: it is rare.
#[inline(never)]
fn long_blanks_of(bytes: &[u8]) -> usize
    ensures value { result ≡ prefix_len is_blank_byte bytes.now }
    ensures within { result ≤ length bytes.now }
{
    let mut at = 0;
    'chunks: while bytes.len() - at >= LANES {
        let others = others(u8x64::from_slice(&bytes[at..]));
        if others != 0 {
            return at + others.trailing_zeros() as usize;
        }
        at += LANES;
    }
    'last: while at < bytes.len() && is_blank(bytes[at]) {
        at += 1;
    }
    at
}

/// How many lines end among so many bytes that a text begins with; two at least, where more do: at each carriage return, and at
/// each line feed that isn't right after one.
#[inline(always)]
pub fn line_ends(bytes: &[u8], length: usize) -> usize {
    if length >= LANES || bytes.len() < LANES {
        return many_line_ends(bytes, length);
    }
    let block = u8x64::from_slice(bytes);
    let feeds = block.simd_eq(u8x64::splat(b'\n')).to_bitmask();
    let returns = block.simd_eq(u8x64::splat(b'\r')).to_bitmask();
    let inside = (1u64 << length) - 1;
    let ends = (returns | feeds & !(returns << 1)) & inside;
    usize::from(ends != 0) + usize::from(ends & ends.wrapping_sub(1) != 0)
}

// The same, of many bytes or of a short text. Never inlined: it is rare.
#[inline(never)]
fn many_line_ends(bytes: &[u8], length: usize) -> usize {
    let mut is_first = true;
    let mut last = b' ';
    for next in bytes.get(..length).unwrap_or(bytes) {
        if *next == b'\r' || *next == b'\n' && last != b'\r' {
            if !is_first {
                return 2;
            }
            is_first = false;
        }
        last = *next;
    }
    usize::from(!is_first)
}

// The same where the byte ends a line.
#[inline(always)]
fn ends(bytes: u8x64) -> u64
    ensures { result ≡ mask_l (map (is_outside is_in_line) bytes) }
{
    let either = bytes.simd_eq(u8x64::splat(b'\n')) | bytes.simd_eq(u8x64::splat(b'\r'));
    either.to_bitmask()
}

/// How long the first line of a text is, without its end.
#[inline(always)]
pub fn line_length(bytes: &[u8]) -> usize
    ensures value { result ≡ prefix_len is_in_line bytes.now }
    ensures within { result ≤ length bytes.now }
{
    let mut at = 0;
    'chunks: while bytes.len() - at >= LANES {
        let ends = ends(u8x64::from_slice(&bytes[at..]));
        if ends != 0 {
            return at + ends.trailing_zeros() as usize;
        }
        at += LANES;
    }
    let last = &bytes[at..];
    at + memchr2(b'\n', b'\r', last).unwrap_or(last.len())
}

//! Copies of texts into a row of bytes. A short text is two copies of a fixed size, which may overlap. A text is plain if no
//! byte of it needs an escape in JSON.
ghost use Rattle.std.specs.Prelude.{◌≡◌, ◌+◌, ◌<◌, ◌≤◌, [], ◌∷◌, length, take, map, decimal};
ghost use Rattle.std.specs.Bool.{OnTrue};
ghost use Rattle.std.specs.Simd.Lanes.{chunk, mask_l};
ghost use Rattle.graphql_json.specs.inner.Buffers.{CopiesPlain};
ghost use Rattle.json.specs.Filled.{Placed};
ghost use Rattle.json.specs.Run.{is_stop};
ghost use Rattle.json.specs.Written.{PlainBetween};

use std::simd::prelude::*;

// How many bytes of a run are looked at at once, where so many are left.
const LANES: usize = 16;

// A bit for each of N bytes from an index on, the first one's the lowest, which is set where the byte needs an escape.
#[inline(always)]
fn stops_at<const N: usize>(text: &[u8], at: usize) -> u64
    requires fits { at + N ≤ length text.now }
    requires lanes { N ≤ 64 }
    ensures { result ≡ mask_l (map is_stop (chunk at N text.now)) }
{
    let bytes = Simd::<u8, N>::from_slice(&text[at..]);
    let stops = bytes.simd_eq(Simd::<u8, N>::splat(b'"'))
        | bytes.simd_eq(Simd::<u8, N>::splat(b'\\'))
        | bytes.simd_lt(Simd::<u8, N>::splat(0x20));
    stops.to_bitmask()
}

// Whether none of N bytes needs an escape, from an index on.
#[inline(always)]
fn is_plain_at<const N: usize>(text: &[u8], at: usize) -> bool
    requires fits { at + N ≤ length text.now }
    requires lanes { N ≤ 64 }
    ensures { OnTrue result (PlainBetween text.now at (at + N)) }
{
    stops_at::<N>(text, at) == 0
}

/// How many bytes from an index on need no escape, up to the first that does.
#[inline(always)]
pub fn plain_run(text: &[u8], at: usize) -> usize
    requires { at ≤ length text.now }
    ensures plain { PlainBetween text.now at (at + result) }
    ensures within { at + result ≤ length text.now }
{
    let mut end = at;
    while text.len() - end >= LANES {
        let stops = stops_at::<LANES>(text, end);
        if stops != 0 {
            return end - at + stops.trailing_zeros() as usize;
        }
        end += LANES;
    }
    let end = plain_to::<4>(text, end);
    plain_to::<1>(text, end) - at
}

// Where the first N bytes begin of which one needs an escape, from an index on by steps of N, or where fewer are left.
#[inline(always)]
fn plain_to<const N: usize>(text: &[u8], at: usize) -> usize
    requires from { at ≤ length text.now }
    requires lanes { (1 ≤ N) × (N ≤ 64) }
    ensures plain { PlainBetween text.now at result }
    ensures from { at ≤ result }
    ensures within { result ≤ length text.now }
{
    let mut end = at;
    while text.len() - end >= N && is_plain_at::<N>(text, end) {
        end += N;
    }
    end
}

// Copies the first N bytes of a text.
#[inline(always)]
fn copy_first<const N: usize>(row: &mut [u8], at: usize, text: &[u8])
    requires { (N ≤ length text.now) × (at + N ≤ length row.old) }
    ensures { Placed row.old row.new at (take N text.now) (at + N) }
{
    Simd::<u8, N>::from_slice(text).copy_to_slice(&mut row[at..]);
}

// Copies a text by its first and its last N bytes, which may overlap.
#[inline(always)]
fn copy_ends<const N: usize>(row: &mut [u8], at: usize, text: &[u8])
    requires fits { at + length text.now ≤ length row.old }
    requires covers { (N ≤ length text.now) × (length text.now ≤ N + N) }
    ensures { Placed row.old row.new at text.now (at + length text.now) }
{
    let last = text.len() - N;
    copy_first::<N>(row, at, text);
    copy_first::<N>(row, at + last, &text[last..]);
}

// The same, if no byte needs an escape.
#[inline(always)]
fn copy_plain_ends<const N: usize>(row: &mut [u8], at: usize, text: &[u8]) -> bool
    requires fits { at + length text.now ≤ length row.old }
    requires covers { (N ≤ length text.now) × (length text.now ≤ N + N) }
    requires lanes { N ≤ 64 }
    ensures { CopiesPlain result row.old row.new at text.now }
{
    let last = text.len() - N;
    if !is_plain_at::<N>(text, 0) || !is_plain_at::<N>(text, last) {
        return false;
    }
    copy_ends::<N>(row, at, text);
    true
}

// Whether no byte of a long text needs an escape.
fn is_plain(text: &[u8]) -> bool
    requires { 32 ≤ length text.now }
    ensures { OnTrue result (PlainBetween text.now 0 (length text.now)) }
{
    let last = text.len() - 32;
    let mut at = 0;
    while at < last {
        if !is_plain_at::<32>(text, at) {
            return false;
        }
        at += 32;
    }
    is_plain_at::<32>(text, last)
}

// Copies a plain text that is long.
fn copy_long(row: &mut [u8], at: usize, text: &[u8]) -> bool
    requires long { 32 ≤ length text.now }
    requires fits { at + length text.now ≤ length row.old }
    ensures { CopiesPlain result row.old row.new at text.now }
{
    if !is_plain(text) {
        return false;
    }
    row[at..at + text.len()].copy_from_slice(text);
    true
}

/// Copies a text to an index on, if no byte of it needs an escape.
#[inline(always)]
pub fn copy_plain(row: &mut [u8], at: usize, text: &[u8]) -> bool
    requires { at + length text.now ≤ length row.old }
    ensures { CopiesPlain result row.old row.new at text.now }
{
    match text.len() {
        0 => true,
        1 => copy_plain_ends::<1>(row, at, text),
        2..=3 => copy_plain_ends::<2>(row, at, text),
        4..=7 => copy_plain_ends::<4>(row, at, text),
        8..=15 => copy_plain_ends::<8>(row, at, text),
        16..=31 => copy_plain_ends::<16>(row, at, text),
        _ => copy_long(row, at, text),
    }
}

// Copies a piece to an index on.
#[inline(always)]
fn copy_piece(row: &mut [u8], at: usize, piece: &[u8])
    requires { at + length piece.now ≤ length row.old }
    ensures { Placed row.old row.new at piece.now (at + length piece.now) }
{
    match piece.len() {
        0 => {}
        1 => copy_ends::<1>(row, at, piece),
        2..=3 => copy_ends::<2>(row, at, piece),
        4..=7 => copy_ends::<4>(row, at, piece),
        8..=15 => copy_ends::<8>(row, at, piece),
        16..=32 => copy_ends::<16>(row, at, piece),
        _ => row[at..at + piece.len()].copy_from_slice(piece),
    }
}

/// Copies a piece to an index on, and tells where it ends.
#[inline(always)]
pub fn copy(row: &mut [u8], at: usize, piece: &[u8]) -> usize
    requires { at + length piece.now ≤ length row.old }
    ensures { Placed row.old row.new at piece.now result }
{
    copy_piece(row, at, piece);
    at + piece.len()
}

// Writes one digit, and tells where it ends.
#[inline(always)]
fn copy_digit(row: &mut [u8], at: usize, digit: usize) -> usize
    requires { (digit < 10) × (at < length row.old) }
    ensures { Placed row.old row.new at ((48 + digit) ∷ []) result }
{
    row[at] = b'0' + digit as u8;
    at + 1
}

/// Writes a number to an index on, and tells where it ends.
#[inline(always)]
pub fn copy_number(row: &mut [u8], at: usize, number: usize) -> usize
    requires { at + 20 ≤ length row.old }
    ensures number { Placed row.old row.new at (decimal number) result }
    ensures within { result ≤ at + 20 }
{
    if number < 10 {
        return copy_digit(row, at, number);
    }
    if number < 100 {
        let next = copy_digit(row, at, number / 10);
        return copy_digit(row, next, number % 10);
    }
    copy_long_number(row, at, number)
}

// The same of any number: one of three digits or more is rare.
#[inline(never)]
fn copy_long_number(row: &mut [u8], at: usize, number: usize) -> usize
    requires { at + 20 ≤ length row.old }
    ensures number { Placed row.old row.new at (decimal number) result }
    ensures within { result ≤ at + 20 }
{
    let mut buffer = itoa::Buffer::new();
    copy(row, at, buffer.format(number as u64).as_bytes())
}

//! What the derives of places and positioned nodes return, as laws and on a few values.
ghost use Rattle.std.specs.Prelude.{◌≡◌, ◌<◌, ◌⊎◌, ◌↔◌, IsTrue};

use crate::compared::hash_of;
use graphql_tokens::pos::{Pos, Positioned};
use rows::{Shown, pair};
use std::cmp::Ordering;

// The default place is 0:0.
fn zero() -> Pos
    ensures { result ≡ record { line = 0; column = 0 } }
{
    Pos::default()
}

// Places are equal where line and column are.
fn is_same(a: Pos, b: Pos) -> bool
    ensures { IsTrue result ↔ (a ≡ b) }
{
    a == b
}

// They are ordered by line, then by column.
fn is_before(a: Pos, b: Pos) -> bool
    ensures { IsTrue result ↔ ((a.line < b.line) ⊎ ((a.line ≡ b.line) × (a.column < b.column))) }
{
    a < b
}

// A copy is the place itself.
fn copied(a: &Pos) -> (Pos, Pos)
    ensures { result ≡ (a.now, a.now) }
{
    (*a, *a)
}

// The default of a positioned node is its node's, at 0:0.
fn default_place<T: Default>() -> Positioned<T>
    ensures place { result.pos ≡ record { line = 0; column = 0 } }
    ensures node { T.is_default result.node }
{
    Positioned::default()
}

// The place of a node never matters to its comparisons and its hash.
fn is_equal_anywhere<T: PartialEq>(a: &Positioned<T>, b: &Positioned<T>) -> bool
    ensures { result ≡ T.eq a.now.node b.now.node }
{
    a == b
}

fn order_anywhere<T: Ord>(a: &Positioned<T>, b: &Positioned<T>) -> Ordering
    ensures { result ≡ T.cmp a.now.node b.now.node }
{
    a.cmp(b)
}

// A caller of `map`.
fn length_at(text: Positioned<&str>) -> Positioned<usize>
    ensures { result.pos ≡ text.entry.pos }
{
    text.map(|t| t.len())
}

// The place that a row names. What is no number is 0.
fn place_of(text: &str) -> Pos {
    if text == "default" {
        return zero();
    }
    let (line, column) = pair(text, ":");
    Pos::from((line.parse().unwrap_or(0), column.parse().unwrap_or(0)))
}

/// Writes what a place prints, plain and for a developer; and of `default node` the node and its place.
pub fn write_place(shown: &mut Shown, text: &str) {
    if text == "default node" {
        let none: Positioned<u8> = default_place();
        shown.item("", &none);
        shown.item(" at ", &none.pos);
    } else {
        let place = place_of(text);
        shown.item("", &place);
        shown.debugged(" ", &place);
    }
}

/// Writes how two places are ordered, and whether copies are equal and have one hash.
pub fn write_order(shown: &mut Shown, row: &str) {
    let (one, other) = pair(row, " and ");
    let other = place_of(other);
    let (copy, again) = copied(&place_of(one));
    shown.item("less ", &is_before(copy, other));
    shown.item(", more ", &is_before(other, again));
    shown.item(", equal ", &is_same(copy, other));
    let is_copied = is_same(copy, again) && hash_of(&copy) == hash_of(&again);
    shown.item(", copied ", &is_copied);
}

/// Writes how nodes of two numbers compare, the first at 9:9 and the other at 1:1; whether each has the hash of its number; and
/// what they print, the second at the place of the first.
pub fn write_comparison(shown: &mut Shown, row: &str) {
    let (one, other) = pair(row, " and ");
    let (one, other) = (number_in(one), number_in(other));
    let here = Positioned::new(one, Pos::from((9, 9)));
    let there = Positioned::new(other, Pos::from((1, 1)));
    shown.item("equal ", &is_equal_anywhere(&here, &there));
    shown.debugged(", ", &order_anywhere(&here, &there));
    let moved = here.position_node(other);
    shown.item(", less ", &(here < moved));
    let is_hashed = hash_of(&here) == hash_of(&one) && hash_of(&there) == hash_of(&other);
    shown.item(", hashed ", &is_hashed);
    write_node(shown, &here);
    write_moved(shown, moved);
}

fn write_moved(shown: &mut Shown, moved: Positioned<u8>) {
    let place = moved.pos;
    shown.item(" ", &moved.into_inner());
    shown.item(" at ", &place);
}

fn number_in(text: &str) -> u8 {
    text.parse().unwrap_or(0)
}

// Writes a node as it prints, plain and after blanks.
fn write_node(shown: &mut Shown, node: &Positioned<u8>) {
    shown.item("; '", node);
    shown.item("' '", &format_args!("{node:>3}"));
    shown.word("'");
}

/// Writes what a node of a text prints, and its own text; and the node of its length, with its place.
pub fn write_text(shown: &mut Shown, text: &str) {
    let place = Pos::from((9, 9));
    match String::from_str(shown.alloc(), text) {
        Ok(own) => {
            let node = Positioned::new(own, place);
            shown.item("", &node);
            shown.item(" ", &node.as_str());
        }
        Err(_) => shown.leave_out(),
    }
    let length = length_at(Positioned::new(text, place));
    shown.item(" ", &length);
    shown.item(" at ", &length.pos);
}

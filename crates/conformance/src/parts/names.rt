//! Names: their texts, copies, hashes and order.
use crate::compared::hash_of;
use graphql_tokens::name::Name;
use rows::{Shown, pair};
use std::cmp::Ordering;

/// Writes what the name of a text has as text, and prints plain, after blanks and for a developer; whether it takes no memory;
/// and whether a copy is equal and has one hash with it.
pub fn write_name(shown: &mut Shown, text: &str) {
    match Name::new(shown.alloc(), text) {
        Ok(name) => {
            write_texts(shown, &name);
            write_copy(shown, &name);
        }
        Err(_) => shown.leave_out(),
    }
}

fn write_texts(shown: &mut Shown, name: &Name) {
    shown.item("'", &name.as_str());
    shown.item("' '", name);
    shown.made("' '", format!(in shown.alloc(); "{name:>6}"));
    shown.debugged("' ", name);
    match Name::in_place(name.as_str()) {
        Some(short) if short == *name => shown.word(" in place"),
        Some(_) => shown.word(" with another in place"),
        None => {}
    }
}

// Writes that a copy of a name is another, or has another hash, if it has.
fn write_copy(shown: &mut Shown, name: &Name) {
    match name.clone() {
        Ok(copy) if copy != *name => shown.word(" with another copy"),
        Ok(copy) if hash_of(&copy) != hash_of(name) => shown.word(" with another hash"),
        Ok(_) => {}
        Err(_) => shown.leave_out(),
    }
}

/// Writes how the names of two texts are ordered.
pub fn write_order(shown: &mut Shown, row: &str) {
    let (one, other) = pair(row, " and ");
    match Name::new(shown.alloc(), one) {
        Ok(one) => match Name::new(shown.alloc(), other) {
            Ok(other) => shown.word(order(&one, &other)),
            Err(_) => shown.leave_out(),
        },
        Err(_) => shown.leave_out(),
    }
}

// The word for how two names are ordered.
fn order(one: &Name, other: &Name) -> &'static str {
    let order = one.cmp(other);
    if (one == other) != (order == Ordering::Equal) || (one < other) != (other > one) {
        return "not in order";
    }
    match order {
        Ordering::Less => "less",
        Ordering::Equal => "equal",
        Ordering::Greater => "more",
    }
}

//! What is asked of values of many types: copies, hashes, comparisons.
use rows::Shown;
use std::alloc::AllocError;
use std::hash::{DefaultHasher, Hash, Hasher};

/// The hash of a value, by the default hasher.
pub fn hash_of<T: Hash>(value: &T) -> u64 {
    let mut state = DefaultHasher::new();
    value.hash(&mut state);
    state.finish()
}

/// Writes that a copy of a value is another one, if it is.
pub fn write_copy<T: Clone + PartialEq + Drop>(shown: &mut Shown, value: &T) {
    match value.clone() {
        Ok(copy) => {
            if copy != *value {
                shown.word(" with another copy");
            }
        }
        Err(_) => shown.leave_out(),
    }
}

/// Writes whether two values are equal.
pub fn write_compared<T: PartialEq + Drop>(
    shown: &mut Shown,
    one: Result<T, AllocError>,
    other: Result<T, AllocError>,
) {
    match (one, other) {
        (Ok(one), Ok(other)) => shown.word(if one == other { "equal" } else { "different" }),
        _ => shown.leave_out(),
    }
}

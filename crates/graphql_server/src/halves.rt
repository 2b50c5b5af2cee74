//! Halves of surrogate pairs in the strings of a message.
//!
//! A string of JSON may have the escape of one half of a pair alone (RFC 8259, section 8.2), and an editor whose texts are UTF-16 sends
//! one if a change cuts a pair in two. It is no character. U+FFFD stands for it, which takes one unit of UTF-16 as the half does, so
//! positions stay the same.

use memchr::memchr;

// How many bytes an escape by four digits has.
const LENGTH: usize = 6;

/// Puts U+FFFD in the place of each half of a surrogate pair that stands alone: its escape, which is as long.
pub fn replace_halves(content: &mut [u8]) {
    let mut at = 0usize;
    for _ in 0..content.len() {
        let Some(escape) = memchr(b'\\', content.get(at..).unwrap_or(&[])) else {
            return;
        };
        at = at.saturating_add(escape);
        let passed = match (
            half_at(content, at),
            half_at(content, at.saturating_add(LENGTH)),
        ) {
            (None, _) => 2,
            (Some(Half::High), Some(Half::Low)) => 2 * LENGTH,
            (Some(_), _) => {
                replace(content, at);
                LENGTH
            }
        };
        at = at.saturating_add(passed);
    }
}

// Puts U+FFFD in the place of the escape that begins at this byte.
fn replace(content: &mut [u8], at: usize) {
    for (place, digit) in b"fffd".iter().enumerate() {
        if let Some(byte) = content.get_mut(at.saturating_add(2).saturating_add(place)) {
            *byte = *digit;
        }
    }
}

// A half of a surrogate pair: the first one, or the second.
#[derive(Clone, Copy)]
enum Half {
    High,
    Low,
}

// The half whose escape begins at this byte.
fn half_at(bytes: &[u8], at: usize) -> Option<Half> {
    let [b'\\', b'u', first, second, third, fourth] = bytes.get(at..at.saturating_add(LENGTH))?
    else {
        return None;
    };
    if !matches!(first, b'd' | b'D') || !third.is_ascii_hexdigit() || !fourth.is_ascii_hexdigit() {
        return None;
    }
    match second {
        b'8' | b'9' | b'a' | b'b' | b'A' | b'B' => Some(Half::High),
        b'c'..=b'f' | b'C'..=b'F' => Some(Half::Low),
        _ => None,
    }
}

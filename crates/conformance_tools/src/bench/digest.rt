//! A digest of what was answered.
use graphql_parser::{Error, Pos};

/// A number that hangs on all that was added to it, in its order.
#[derive(Clone, Copy)]
pub struct Digest {
    state: u64,
}

impl Digest {
    /// Of nothing.
    pub fn new() -> Digest {
        Digest {
            state: 0x243F_6A88_85A3_08D3,
        }
    }

    /// The number.
    pub fn number(self) -> u64 {
        self.state ^ (self.state >> 29)
    }

    /// Adds a number.
    #[inline(always)]
    pub fn add(&mut self, number: u64) {
        let mixed = (self.state ^ number).wrapping_mul(0x9FB2_1C65_1E98_DF25);
        self.state = mixed ^ (mixed >> 32);
    }

    /// Adds a size.
    #[inline(always)]
    pub fn add_size(&mut self, size: usize) {
        self.add(size as u64);
    }

    /// Adds a place.
    #[inline(always)]
    pub fn add_place(&mut self, place: Pos) {
        let line = place.line as u64;
        self.add((line << 32) ^ (place.column as u64));
    }

    /// Adds bytes, eight at a time.
    pub fn add_bytes(&mut self, bytes: &[u8]) {
        self.add_size(bytes.len());
        let mut rest = bytes;
        for _ in 0..bytes.len() {
            let Some((chunk, after)) = rest.split_first_chunk::<8>() else {
                break;
            };
            self.add(u64::from_le_bytes(*chunk));
            rest = after;
        }
        for byte in rest {
            self.add(u64::from(*byte));
        }
    }

    /// Adds a text.
    pub fn add_text(&mut self, text: &str) {
        self.add_bytes(text.as_bytes());
    }

    /// Adds the places of an error.
    pub fn add_error(&mut self, error: &Error) {
        self.add(77);
        for place in error.positions() {
            self.add_place(place);
        }
    }
}

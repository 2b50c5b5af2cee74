//! Numbers that look random, each run of them made by a seed.

/// A generator that adds an odd number and mixes.
#[derive(Clone, Copy)]
pub struct Random {
    pub state: u64,
}

impl Random {
    /// The next 64 bits.
    pub fn bits(&mut self) -> u64 {
        self.state = self.state.wrapping_add(0x9E37_79B9_7F4A_7C15);
        let mut mixed = self.state;
        mixed = (mixed ^ (mixed >> 30)).wrapping_mul(0xBF58_476D_1CE4_E5B9);
        mixed = (mixed ^ (mixed >> 27)).wrapping_mul(0x94D0_49BB_1331_11EB);
        mixed ^ (mixed >> 31)
    }

    /// A number below this one; 0 if there is none.
    pub fn below(&mut self, end: usize) -> usize {
        ((self.bits() >> 8) as usize).checked_rem(end).unwrap_or(0)
    }

    /// Mixes a number in.
    pub fn add(&mut self, number: usize) {
        self.state ^= number as u64;
        self.state = self.bits();
    }
}

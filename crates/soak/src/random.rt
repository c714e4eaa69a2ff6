//! Returns numbers that follow from a seed, so that each run gets the same.

/// A linear congruential generator of 64 bits (Knuth's), which returns the upper half of them.
#[derive(Clone, Copy)]
pub struct Random {
    state: u64,
}

impl Random {
    pub fn new(seed: u64) -> Random {
        Random { state: seed }
    }

    /// Returns the next number, of 32 bits.
    fn next(&mut self) -> u64 {
        self.state = self
            .state
            .wrapping_mul(6_364_136_223_846_793_005)
            .wrapping_add(1_442_695_040_888_963_407);
        self.state / 4_294_967_296
    }

    /// Returns a number below `bound`, or 0 if that is 0.
    pub fn below(&mut self, bound: usize) -> usize {
        (self.next() as usize).checked_rem(bound).unwrap_or(0)
    }

    /// Returns true once in `count` times, on average.
    pub fn one_of(&mut self, count: usize) -> bool {
        self.below(count) == 0
    }

    pub fn octet(&mut self) -> u8 {
        (self.next() % 256) as u8
    }
}

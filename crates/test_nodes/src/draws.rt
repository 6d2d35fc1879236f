//! Numbers that look random, and follow from a seed.

/// A sequence of numbers, each of which follows from the one before it.
#[derive(Drop)]
pub struct Draws(u64);

impl Draws {
    /// Seeds that are near each other give numbers that are not.
    pub fn from(seed: u64) -> Draws {
        Draws(seed.wrapping_mul(0x9e37_79b9_7f4a_7c15))
    }

    /// The next number, below `bound`, or 0 if that is 0.
    pub fn below(&mut self, bound: u32) -> u32 {
        self.0 = self
            .0
            .wrapping_mul(6_364_136_223_846_793_005)
            .wrapping_add(1_442_695_040_888_963_407);
        match u64::from(bound) {
            0 => 0,
            bound => ((self.0 >> 33) % bound) as u32,
        }
    }
}

//! Chance from a fixed seed.

/// A linear generator.
#[derive(Clone, Copy)]
pub struct Noise {
    state: u64,
}

impl Noise {
    /// The generator that starts at a seed.
    pub fn new(seed: u64) -> Noise {
        Noise { state: seed }
    }

    /// The next number.
    fn draw(&mut self) -> u64 {
        self.state = self
            .state
            .wrapping_mul(6_364_136_223_846_793_005)
            .wrapping_add(1_442_695_040_888_963_407);
        self.state >> 33
    }

    /// A number below `limit`; 0 where `limit` is 0.
    pub fn below(&mut self, limit: u64) -> u64 {
        let drawn = self.draw();
        if limit == 0 { 0 } else { drawn % limit }
    }

    /// A place in a list of this length.
    pub fn place(&mut self, length: u32) -> u32 {
        u32::try_from(self.below(u64::from(length))).unwrap_or(0)
    }

    /// True once in so many times.
    pub fn one_in(&mut self, limit: u64) -> bool {
        self.below(limit) == 0
    }
}

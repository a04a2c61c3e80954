//! Numbers drawn from a seed.

ghost use Rattle.std.specs.Prelude.{◌≡◌, ◌<◌};
ghost use Rattle.un_gen.specs.Draws.{next, drawn};

/// By how much a draw multiplies the state.
pub(crate) const FACTOR: u64 = 6_364_136_223_846_793_005;

/// How much it adds then.
pub(crate) const STEP: u64 = 1_442_695_040_888_963_407;

/// What draws have come to: a linear congruential generator of 64 bits.
#[derive(Drop)]
pub(crate) struct Draws {
    pub(crate) state: u64,
}

impl Draws {
    /// Draws a number below another one.
    pub(crate) fn draw(&mut self, below: u32) -> u32
        requires { 0 < below }
        ensures state { self.new.state ≡ next self.old.state }
        ensures value { result ≡ drawn 0 below self.old.state }
        ensures bound { result < below }
    {
        self.state = self.state.wrapping_mul(FACTOR).wrapping_add(STEP);
        (self.state >> 33) as u32 % below
    }
}

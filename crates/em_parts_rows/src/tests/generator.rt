//! Numbers at random, the same in each run.
ghost use Rattle.std.specs.Prelude.{◌<◌};

/// A linear congruential generator: the multiplier and the increment are those of Numerical Recipes.
#[derive(Drop)]
pub struct Generator {
    state: u32,
}

impl Generator {
    pub fn new(seed: u32) -> Generator {
        Generator { state: seed }
    }

    /// A number below the limit.
    pub fn below(&mut self, limit: u16) -> u16
        requires { 0 < limit }
        ensures { result < limit }
    {
        self.state = self
            .state
            .wrapping_mul(1_664_525)
            .wrapping_add(1_013_904_223);
        (self.state >> 16) as u16 % limit
    }
}

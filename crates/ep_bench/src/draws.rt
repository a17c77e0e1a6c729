//! Numbers that look random and are the same at each run.

ghost use Rattle.std.specs.Prelude.{◌≤◌, ◌<◌};

/// A linear congruential generator modulo 2^64, of which the upper bits are drawn.
#[derive(Drop)]
pub struct Draws {
    state: u64,
}

impl Draws {
    pub fn new(seed: u64) -> Draws {
        Draws { state: seed }
    }

    pub fn draw(&mut self) -> u64 {
        self.state = self
            .state
            .wrapping_mul(6_364_136_223_846_793_005)
            .wrapping_add(1_442_695_040_888_963_407);
        self.state >> 33
    }

    /// A number below the limit.
    pub fn pick(&mut self, limit: usize) -> usize
        requires { 1 ≤ limit }
        ensures { result < limit }
    {
        (self.draw() % limit as u64) as usize
    }
}

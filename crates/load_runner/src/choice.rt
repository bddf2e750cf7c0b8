//! Numbers in an order that looks random.

ghost use Rattle.std.specs.Prelude.{◌<◌, ◌≤◌};

/// A fixed sequence of numbers (a linear congruential generator of 64 bits). Each copy goes on by itself.
#[derive(Clone, Copy)]
pub struct Choice {
    state: u64,
}

impl Choice {
    /// The sequence from its start on.
    pub fn new() -> Choice {
        Choice { state: 1 }
    }

    /// The next number; it is below `end`.
    pub fn below(&mut self, end: u32) -> u32
        requires { 1 ≤ end }
        ensures { result < end }
    {
        self.state = self
            .state
            .wrapping_mul(6_364_136_223_846_793_005)
            .wrapping_add(1_442_695_040_888_963_407);
        let upper = self.state >> 33;
        (upper % u64::from(end)) as u32
    }
}

// Random numbers, the same in each run.
ghost use Rattle.std.specs.Prelude.{◌<◌};

const MULTIPLIER: u64 = 6_364_136_223_846_793_005;

const INCREMENT: u64 = 1_442_695_040_888_963_407;

/// A linear congruential generator.
#[derive(Drop)]
pub struct Random {
    state: u64,
}

impl Random {
    pub fn new(seed: u64) -> Random {
        Random { state: seed }
    }

    pub fn next(&mut self) -> u64 {
        self.state = self.state.wrapping_mul(MULTIPLIER).wrapping_add(INCREMENT);
        (self.state ^ (self.state >> 29)).wrapping_mul(MULTIPLIER) >> 11
    }

    pub fn long(&mut self) -> u32 {
        (self.next() % 0x1_0000_0000) as u32
    }

    pub fn byte(&mut self) -> u8 {
        (self.next() % 0x100) as u8
    }

    /// A number below the bound.
    pub fn below(&mut self, bound: u32) -> u32
        requires { 0 < bound }
        ensures { result < bound }
    {
        self.long() % bound
    }

    /// Whether something comes that does so once in so many times.
    pub fn comes(&mut self, in_times: u32) -> bool
        requires { 0 < in_times }
    {
        self.below(in_times) == 0
    }
}

ghost use Rattle.std.specs.Prelude.{◌<◌};

/// Numbers at random, by Marsaglia's xorshift: the same in each run. No clause says which.
#[derive(Drop)]
pub struct Random {
    state: u64,
}

impl Random {
    /// The numbers of a seed. With the seed 0 each number is 0.
    pub fn new(seed: u64) -> Random {
        // neighbouring seeds are to begin far from each other
        Random {
            state: seed.wrapping_mul(0x9e37_79b9_7f4a_7c15),
        }
    }

    /// The next number, which is below `count`.
    pub fn below(&mut self, count: u8) -> u8
        requires { 0 < count }
        ensures { result < count }
    {
        self.state ^= self.state << 13;
        self.state ^= self.state >> 7;
        self.state ^= self.state << 17;
        let [_, _, _, byte, ..] = self.state.to_be_bytes();
        byte % count
    }

    /// Whether the next number below `count` is 0: so in one of `count` cases.
    pub fn one_of(&mut self, count: u8) -> bool
        requires { 0 < count }
    {
        self.below(count) == 0
    }
}

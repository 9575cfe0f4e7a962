// Random numbers from a seed, so that every run with the seed draws the same.
#![tactic(auto)]

ghost use Rattle.std.specs.Prelude.{◌≡◌, ℕ, ◌*◌, ◌%◌, ◌^◌, ◌<◌, nat_eq, bit_or};
ghost use Rattle.random.specs.Xorshift.{after, drawn};

use std::marker::Model;

// A xorshift generator. A contract sees it as its state.
#[derive(Drop)]
pub struct Random {
    state: u64,
}

impl Model for Random {
    ghost Value = { ℕ };

    ghost view = { λ r. r.state };

    ghost inverse = { λ x. record { state = x } };
}

impl Random {
    // The first state is odd.
    pub fn new(seed: u64) -> Random
        ensures start { result ≡ bit_or (seed * 0x9e37_79b9_7f4a_7c15 % 2 ^ 64) 1 }
        ensures odd { result % 2 ≡ 1 }
    {
        Random {
            state: seed.wrapping_mul(0x9e37_79b9_7f4a_7c15) | 1,
        }
    }

    fn step(&mut self) -> u64
        ensures state { self.new ≡ after self.old }
        ensures value { result ≡ self.new }
    {
        let mut x = self.state;
        x ^= x << 13;
        x ^= x >> 7;
        x ^= x << 17;
        self.state = x;
        x
    }

    // A number below the bound, or 0 where the bound is 0.
    pub fn below(&mut self, bound: u8) -> u8
        ensures state { self.new ≡ after self.old }
        ensures value { result ≡ drawn bound self.old }
        ensures below { 0 < bound → result < bound }
    {
        match (self.step() >> 33).checked_rem(u64::from(bound)) {
            Some(number) => u8::try_from(number).unwrap_or(0),
            None => 0,
        }
    }

    // True once in so many draws on average; at 0 always.
    pub fn one_in(&mut self, count: u8) -> bool
        ensures state { self.new ≡ after self.old }
        ensures value { result ≡ nat_eq (drawn count self.old) 0 }
    {
        self.below(count) == 0
    }
}

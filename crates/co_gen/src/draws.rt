//! Numbers drawn one after the other.
ghost use Rattle.std.specs.Prelude.{◌≡◌};
ghost use Rattle.co_gen.specs.Generator.{draw_of, next_state};

use std::marker::Model;

/// A source of numbers below 2^31 that a seed decides, one after the other. Each state follows from the one before by a
/// linear congruence modulo 2^64, and a number is the upper 31 bits of its state. Our own decision. Contracts see the state.
#[derive(Drop)]
pub struct Draws {
    state: u64,
}

impl Model for Draws {
    ghost use Rattle.std.specs.Prelude.{ℕ};

    ghost Value = { ℕ };

    ghost view = { λ d. d.state };
}

impl Draws {
    /// The source of this seed.
    pub fn new(seed: u64) -> Draws
        ensures { result ≡ seed }
    {
        Draws { state: seed }
    }

    /// The next number, below 2^31.
    pub fn draw(&mut self) -> u32
        ensures state { self.new ≡ next_state self.old }
        ensures number { result ≡ draw_of self.new }
    {
        self.state = self
            .state
            .wrapping_mul(6_364_136_223_846_793_005)
            .wrapping_add(1_442_695_040_888_963_407);
        (self.state / 0x2_0000_0000) as u32
    }
}

ghost use Rattle.std.specs.Prelude.{◌≡◌, ◌<◌};
ghost use Rattle.rt_policy.specs.Draws.{next_number, number_after, draw};

use std::marker::Model;

/// The factor of Knuth's MMIX generator.
const FACTOR: u64 = 6_364_136_223_846_793_005;

/// What Knuth's MMIX generator adds.
const ADDED: u64 = 1_442_695_040_888_963_407;

/// Numbers that are drawn one after the other, by a linear congruential generator of 64 bits, of which
/// each draw takes the high 31.
#[derive(Drop)]
pub struct Draws {
    number: u64,
}

impl Model for Draws {
    ghost use Rattle.std.specs.Prelude.{ℕ};

    ghost Value = { ℕ };

    ghost view = { λ d. d.number };
}

impl Draws {
    /// The draws from this number on.
    pub fn new(n: u64) -> Draws
        ensures { result ≡ n }
    {
        Draws { number: n }
    }

    /// Draws a number below `k`.
    #[tactic(auto, using(crate::proofs::Drawing::drawing), unfolding(crate::specs::Draws::draw, crate::specs::Draws::number_after))]
    pub fn below(&mut self, k: u32) -> u32
        requires { 0 < k }
        ensures drawn { result ≡ draw self.old k 0 }
        ensures within { result < k }
        ensures next { self.new ≡ number_after self.old 1 }
    {
        self.number = next_number(self.number);
        (self.number >> 33) as u32 % k
    }
}

/// The number that follows.
fn next_number(x: u64) -> u64
    ensures { result ≡ next_number x }
{
    x.wrapping_mul(FACTOR).wrapping_add(ADDED)
}

// Numbers drawn one after another, each from the one before it.
ghost use Rattle.std.specs.Prelude.{◌<◌, length};

/// A source of numbers, the same ones for the same first number.
#[derive(Drop)]
pub struct Draws(u64);

impl Draws {
    /// The draws that begin with this number.
    pub fn new(first: u64) -> Draws {
        Draws(first)
    }

    /// A number below this one, by a linear congruence of which the upper bits are taken.
    pub fn below(&mut self, n: u32) -> u32
        requires { 0 < n }
        ensures { result < n }
    {
        self.0 = self
            .0
            .wrapping_mul(6_364_136_223_846_793_005)
            .wrapping_add(1_442_695_040_888_963_407);
        (self.0 >> 33) as u32 % n
    }

    /// Whether the draw, one of so many, is the first.
    pub fn one_in(&mut self, n: u32) -> bool
        requires { 0 < n }
    {
        self.below(n) == 0
    }

    /// One of these.
    pub fn of<T: Copy>(&mut self, all: &[T]) -> T
        requires some { 0 < length all.now }
        requires few { length all.now < 100 }
    {
        all[self.below(all.len() as u32) as usize]
    }
}

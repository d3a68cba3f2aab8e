//! Numbers that are drawn one after another, each from the one before.

ghost use Rattle.std.specs.Prelude.{◌≡◌, ◌<◌};
ghost use Rattle.am_world.specs.Generating.{drawn, draw_of};

// The generator is linear, modulo 2^64: that of Knuth's MMIX. Its low bits come around soon, so no draw shows them.
const FACTOR: u64 = 6_364_136_223_846_793_005;

const SUMMAND: u64 = 1_442_695_040_888_963_407;

/// What the next draw begins with.
#[derive(Drop)]
pub(crate) struct Draws {
    pub(crate) left: u64,
}

impl Draws {
    /// Draws one of so many numbers, which count from 0.
    pub(crate) fn draw(&mut self, count: u64) -> u64
        requires { 0 < count }
        ensures value { result ≡ draw_of count self.old.left }
        ensures below { result < count }
        ensures left { self.new.left ≡ drawn self.old.left }
    {
        self.left = self.left.wrapping_mul(FACTOR).wrapping_add(SUMMAND);
        self.left / 65_536 % count
    }
}

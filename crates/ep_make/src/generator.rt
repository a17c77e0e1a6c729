//! The numbers that a schedule is drawn from.

ghost use Rattle.std.specs.Prelude.{◌≡◌, ◌<◌};
ghost use Rattle.ep_make.specs.Generator.{following, pick, upper};

const FACTOR: u64 = 6_364_136_223_846_793_005;

const TERM: u64 = 1_442_695_040_888_963_407;

/// The last number drawn; before the first draw, the one that was given.
#[derive(Drop)]
pub(crate) struct Generator {
    pub(crate) number: u64,
}

impl Generator {
    fn next(&mut self) -> u32
        ensures upper { result ≡ upper (following self.old.number) }
        ensures number { self.new.number ≡ following self.old.number }
    {
        self.number = self.number.wrapping_mul(FACTOR).wrapping_add(TERM);
        (self.number >> 33) as u32
    }

    /// A number below n.
    pub fn pick(&mut self, n: u32) -> u32
        requires { 0 < n }
        ensures picked { result ≡ pick n self.old.number }
        ensures below { result < n }
        ensures number { self.new.number ≡ following self.old.number }
    {
        self.next() % n
    }
}

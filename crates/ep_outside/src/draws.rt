//! Numbers drawn by lot.

/// Numbers drawn by lot.
pub trait Draws {
    ghost use Rattle.std.specs.Prelude.{◌≡◌, ℕ, List, Option};
    ghost use Rattle.ep_outside.specs.Drawn.{Draws};

    /// The numbers to come, where it tells. Behind the last one any may come.
    ghost to_come: { Self → Option (List ℕ) };

    fn next(&mut self) -> u64
        ensures { Draws (to_come self.old) (to_come self.new) result };

    /// Draws of their own, for somebody else.
    fn fork(&mut self) -> Self
        ensures same { to_come result ≡ to_come self.old }
        ensures stays { to_come self.new ≡ to_come self.old };
}

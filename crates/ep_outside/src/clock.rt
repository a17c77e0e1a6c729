//! The time of day.

/// The time of day.
pub trait Clock {
    ghost use Rattle.std.specs.Prelude.{ℕ};

    /// It may show this moment.
    ghost may_show: { Self → ℕ → Type 0 };

    /// Milliseconds since the beginning of 1970.
    fn now_ms(&self) -> u64
        ensures { may_show self.now result };
}

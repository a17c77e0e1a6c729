//! Devices.

ghost use Rattle.std.specs.Prelude.{◌≡◌, ℕ, Bool, true, Option, None};
ghost use Rattle.ep_outside.specs.Planned.{Plan};

/// A thing outside of the program whose calls may fail.
///
/// Each call that may fail says two things. It has its cause (`HasCause`): the count of faults never falls,
/// the call fails only where it rose, and a device that tells that it never fails goes on telling it. And
/// it follows the plan (`Follows`): where the device told which calls fail, these do and no others.
pub trait Device {
    /// How often it has failed.
    ghost failures: { Self → ℕ };

    /// It tells that it never fails.
    ghost is_steady: { Self → Bool };

    /// Which of its calls fail, where it tells that beforehand.
    ghost plan: { Self → Option Plan } = { λ _. None };

    /// How often it has failed; the count stands still at the greatest `u64`.
    fn faults(&self) -> u64
        ensures { result ≡ failures self.now };

    ghost never_fails: { (d : Self) → is_steady d ≡ true → failures d ≡ 0 };
}

//! Spawners, which start jobs.

ghost use Rattle.std.specs.Prelude.{◌≡◌, ℕ, OnOk, OnErr, IsErr};
ghost use Rattle.ep_outside.specs.Outside.{HasCause, risen};
ghost use Rattle.ep_outside.specs.Planned.{Follows};

use ep_outside::Device;
use std::sync::Wait;

/// Work for a thread of its own.
pub trait Job {
    fn go<R: Wait>(self, rt: &R);
}

/// What starts jobs of one kind.
pub trait Spawner<J: Job>: Device {
    /// How many jobs it has started; the count stands still at the greatest `u64`.
    ghost count: { Self → ℕ };

    fn started(&self) -> u64
        ensures { result ≡ count self.now };

    /// Starts a job. It comes back where it could not be started.
    fn start<R: Wait>(&mut self, rt: &R, job: J) -> Result<(), J>
        ensures ok { OnOk result (count self.new ≡ risen (count self.old)) }
        ensures err { OnErr result (count self.new ≡ count self.old) }
        ensures cause { HasCause (Self.failures self.old) (Self.failures self.new) (Self.is_steady self.old) (Self.is_steady self.new) (IsErr result) }
        ensures plan { Follows (Self.plan self.old) (Self.plan self.new) (IsErr result) };
}

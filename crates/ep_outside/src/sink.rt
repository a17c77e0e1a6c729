//! Bytes that go out.

ghost use Rattle.std.specs.Prelude.{ℕ, List, Option, OnOk, OnErr, IsErr};
ghost use Rattle.ep_outside.specs.Planned.{Follows};
ghost use Rattle.ep_outside.specs.Outside.{HasCause, Takes, TakesPart};

use crate::device::Device;
use crate::source::Failed;

/// Bytes that go out.
pub trait Sink: Device {
    /// The bytes that it holds, where it tells.
    ghost held: { Self → Option (List ℕ) };

    /// Writes the bytes. After `Failed` a beginning of them went out.
    fn write(&mut self, bytes: &[u8]) -> Result<(), Failed>
        ensures ok { OnOk result (Takes (held self.old) (held self.new) bytes.now) }
        ensures err { OnErr result (TakesPart (held self.old) (held self.new) bytes.now) }
        ensures cause { HasCause (Self.failures self.old) (Self.failures self.new) (Self.is_steady self.old) (Self.is_steady self.new) (IsErr result) }
        ensures plan { Follows (Self.plan self.old) (Self.plan self.new) (IsErr result) };
}

//! Bytes that come in.

ghost use Rattle.std.specs.Prelude.{◌≡◌, ℕ, ◌<◌, List, length, Option};
ghost use Rattle.ep_outside.specs.Planned.{Follows};
ghost use Rattle.ep_outside.specs.Outside.{HasCause, Reads};

use crate::device::Device;
use thiserror::Error;

/// What a read gave.
#[derive(Clone, Copy, Debug, PartialEq, Eq)]
pub enum Got {
    /// So many bytes, at least one, at the front of the room.
    Bytes(usize),
    End,
    Failed,
}

/// A device failed. What failed, its count of faults tells.
#[derive(Clone, Copy, Debug, Error, PartialEq, Eq)]
#[error("a device failed")]
pub struct Failed;

/// Bytes that come in.
pub trait Source: Device {
    /// The bytes that are left, where it tells.
    ghost left: { Self → Option (List ℕ) };

    /// Reads some bytes into the room.
    fn read(&mut self, room: &mut [u8]) -> Got
        requires { 0 < length room.old }
        ensures bytes { Reads (left self.old) (left self.new) result room.new }
        ensures cause { HasCause (Self.failures self.old) (Self.failures self.new) (Self.is_steady self.old) (Self.is_steady self.new) (result ≡ Got.Failed) }
        ensures plan { Follows (Self.plan self.old) (Self.plan self.new) (result ≡ Got.Failed) };
}

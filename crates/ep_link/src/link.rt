//! A connection that carries messages both ways.

ghost use Rattle.std.specs.Prelude.{◌≡◌, ◌∷◌, [], OnOk, OnErr, IsErrOf};
ghost use Rattle.ep_outside.specs.Outside.{HasCause};
ghost use Rattle.ep_outside.specs.Planned.{Follows};

use crate::ear::Ear;
use crate::passed::{LinkBad, LinkGot};
use ep_outside::Device;
use std::sync::Wait;

/// A connection that carries messages both ways. Receiving and sending may wait a while.
pub trait Link: Device {
    ghost use Rattle.std.specs.Prelude.{List, Option};
    ghost use Rattle.ep_link.specs.Traffic.{Adds, came};
    ghost use Rattle.ep_link.specs.declared.passed.Passed.{Passed};
    ghost use Rattle.ep_link.specs.declared.passed.Passed.TheVariants as passed;

    /// What wakes this link where it waits.
    type Ear: Ear;

    /// What each receive brought and each send took, in order, where it tells.
    ghost traffic: { Self → Option (List Passed) };

    /// Waits a while for a message. A receive that failed, or for which there was no memory, brought nothing.
    fn recv<R: Wait>(&mut self, rt: &R) -> LinkGot
        ensures traffic { Adds (traffic self.old) (traffic self.new) (came result) }
        ensures cause { HasCause (Self.failures self.old) (Self.failures self.new) (Self.is_steady self.old) (Self.is_steady self.new) (result ≡ LinkGot.Failed) }
        ensures plan { Follows (Self.plan self.old) (Self.plan self.new) (result ≡ LinkGot.Failed) };

    /// Sends a message whole, or nothing of it.
    fn send<R: Wait>(&mut self, rt: &R, text: &str) -> Result<(), LinkBad>
        ensures ok { OnOk result (Adds (traffic self.old) (traffic self.new) (passed.Sent text.now ∷ [])) }
        ensures err { OnErr result (Adds (traffic self.old) (traffic self.new) []) }
        ensures cause { HasCause (Self.failures self.old) (Self.failures self.new) (Self.is_steady self.old) (Self.is_steady self.new) (IsErrOf result LinkBad.Failed) }
        ensures plan { Follows (Self.plan self.old) (Self.plan self.new) (IsErrOf result LinkBad.Failed) };

    /// What wakes it, if that is to be had.
    fn ear(&self) -> Option<Self::Ear>;
}

//! Doors at which callers come.

ghost use Rattle.std.specs.Prelude.{◌≡◌, ℕ, true, IfOk, IsErrOf};
ghost use Rattle.ep_outside.specs.Outside.{HasCause};
ghost use Rattle.ep_outside.specs.Planned.{Follows};
ghost use Rattle.ep_doors.specs.Coming.{IfApi, IfPad, given_after};

use crate::came::Came;
use ep_link::{Link, LinkBad};
use ep_outside::{Device, Sink, Source};
use std::sync::Wait;

/// Two doors: at one come callers of pads, at the other callers of the API. Accepting may wait a while. By the way out one
/// calls at a server's door oneself.
pub trait Doors: Device {
    type Pad: Link;

    type Api: Source + Sink;

    /// How many callers it has given; the count stands still at the greatest `u64`.
    ghost count: { Self → ℕ };

    /// Nobody comes any more.
    ghost is_over: { Self → Type 0 };

    fn given(&self) -> u64
        ensures { result ≡ count self.now };

    /// Waits a while for a caller. Whoever comes has a connection that has not failed yet.
    fn accept<R: Wait>(&mut self, rt: &R) -> Came<Self::Pad, Self::Api>
        ensures given { count self.new ≡ given_after result (count self.old) }
        ensures over { result ≡ Came.End → is_over self.new }
        ensures cause { HasCause (Self.failures self.old) (Self.failures self.new) (Self.is_steady self.old) (Self.is_steady self.new) (result ≡ Came.Failed) }
        ensures plan { Follows (Self.plan self.old) (Self.plan self.new) (result ≡ Came.Failed) }
        ensures pad { IfPad result (λ p. (Self.Pad.failures p ≡ 0) × (Self.is_steady self.old ≡ true → Self.Pad.is_steady p ≡ true)) }
        ensures api { IfApi result (λ a. (Self.Api.failures a ≡ 0) × (Self.is_steady self.old ≡ true → Self.Api.is_steady a ≡ true)) };

    /// A link of one's own to a server, which has not failed yet. One that is refused is `Failed`.
    fn connect<R: Wait>(&mut self, rt: &R) -> Result<Self::Pad, LinkBad>
        ensures given { count self.new ≡ count self.old }
        ensures cause { HasCause (Self.failures self.old) (Self.failures self.new) (Self.is_steady self.old) (Self.is_steady self.new) (IsErrOf result LinkBad.Failed) }
        ensures plan { Follows (Self.plan self.old) (Self.plan self.new) (IsErrOf result LinkBad.Failed) }
        ensures link { IfOk result (λ p. (Self.Pad.failures p ≡ 0) × (Self.is_steady self.old ≡ true → Self.Pad.is_steady p ≡ true)) };
}

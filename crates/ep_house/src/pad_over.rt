//! What a registry asks of the machine of a pad.

use ep_outside::{Disk, Limits, Machine};
use std::alloc::Global;

/// A machine of a pad that stands on such a disk, and calls it in calls of its own alone.
pub trait PadOver<D: Disk>: Machine + Drop {
    ghost use Rattle.std.specs.Prelude.{◌≡◌, []};
    ghost use Rattle.ep_outside.specs.declared.limits.Limits.{Limits as AnyLimits};

    /// What it is held to.
    ghost limits_of: { Self → AnyLimits };

    /// It stands on the disk, of which it has made no call.
    ghost is_shut: { Self → D → Type 0 };

    /// It is held to the limits, and has made no call. So nobody waits for the disk.
    fn shut(alloc: Global, disk: D, limits: Limits) -> Self
        ensures begun { Self.stands result result [] }
        ensures limits { limits_of result ≡ limits }
        ensures disk { is_shut result disk };

    /// The disk back, on which no more calls are made.
    fn into_disk(self) -> D
        requires { (disk : D) × is_shut self disk }
        ensures { (disk : D) → is_shut self disk → result ≡ disk };
}

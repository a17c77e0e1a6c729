//! Pads on their files, as a registry has them.

use crate::PadOver;
use ep_outside::{Disk, Limits};
use ep_pad::LazyPad;
use std::alloc::Global;

impl<D: Disk + Drop> PadOver<D> for LazyPad<D> {
    ghost use Rattle.ep_pad.specs.Lazy.{IsShut};

    ghost limits_of = { λ pad. pad.limits };

    ghost is_shut = { λ pad disk. IsShut pad disk };

    fn shut(alloc: Global, disk: D, limits: Limits) -> LazyPad<D> {
        LazyPad::shut(alloc, disk, limits)
    }

    fn into_disk(self) -> D {
        LazyPad::into_disk(self)
    }
}

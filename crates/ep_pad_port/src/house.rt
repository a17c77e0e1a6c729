//! A house: the pads of a server, each on its file, and its directory.

ghost use Rattle.std.specs.Prelude.{◌≡◌, IfOk};
ghost use Rattle.ep_pad_port.specs.House.{limits_of};

use ep_house::{Directory, PadOver, Pads};
use ep_outside::{Keeper, Limits, Shelf};
use ep_pad::LazyPad;
use ep_units::NoMemory;
use std::alloc::Global;

/// The pads that stand on a shelf, and the directory that stands in a keeper. They share nothing.
pub type House<H, K> = HouseOf<H, LazyPad<<H as Shelf>::D>, K>;

/// A house whose pads are such machines. Where these make the calls of a pad it is a `PadPort`, and it is a `DirPort`.
pub struct HouseOf<H: Shelf + Drop, P: PadOver<H::D>, K: Keeper + Drop> {
    pub(crate) alloc: Global,
    pub(crate) pads: Pads<H, P>,
    pub(crate) directory: Directory<K>,
}

impl<H: Shelf + Drop, P: PadOver<H::D>, K: Keeper + Drop> HouseOf<H, P, K> {
    /// No pad has a place, and no call of the directory was made.
    pub fn open(
        alloc: Global,
        shelf: H,
        keeper: K,
        limits: Limits,
    ) -> Result<HouseOf<H, P, K>, NoMemory>
        ensures limits { IfOk result (λ house. limits_of house ≡ limits) }
    {
        let directory = Directory::open(alloc, keeper)?;
        let pads = Pads::open(alloc, shelf, limits)?;
        Ok(HouseOf {
            alloc,
            pads,
            directory,
        })
    }
}

// It is written out, so that who drops a house doesn't prove again how each part is dropped.
impl<H: Shelf + Drop, P: PadOver<H::D>, K: Keeper + Drop> Drop for HouseOf<H, P, K> {
    fn drop(self) {
        let HouseOf {
            alloc: _,
            pads: _,
            directory: _,
        } = self;
    }
}

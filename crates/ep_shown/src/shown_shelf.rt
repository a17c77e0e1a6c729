//! A shelf that shows how many of its disks were opened.

ghost use Rattle.std.specs.Prelude.{◌≡◌};

use crate::shown_line::ShownLine;
use ep_outside::{Device, Shelf, ShelfBad};
use ep_units::PadId;
use std::io::Eprint;
use std::time::Clock;

/// A shelf that says on standard error which of its disks is opened, of as many as it found. In all else it is the shelf
/// within. The line is gone before the last of them is opened, and where the shelf fails.
#[derive(Drop)]
pub struct ShownShelf<H: Shelf + Drop, R: Eprint + Clock + Drop> {
    pub shelf: H,
    line: ShownLine<R>,
    opened: u64,
    found: u64,
}

impl<H: Shelf + Drop, R: Eprint + Clock + Drop> ShownShelf<H, R> {
    /// Shows nothing where nobody watches.
    pub fn new(shelf: H, rt: R, is_watched: bool) -> ShownShelf<H, R>
        ensures { result.shelf ≡ shelf }
    {
        ShownShelf {
            shelf,
            line: ShownLine::new(rt, is_watched),
            opened: 0,
            found: 0,
        }
    }

    // Shows the disk that is opened now, if others are to come.
    fn show(&mut self)
        ensures { self.new.shelf ≡ self.old.shelf }
    {
        self.opened = self.opened.saturating_add(1);
        if self.opened < self.found {
            self.line.show(self.opened, self.found);
        } else {
            self.line.erase();
        }
    }
}

impl<H: Shelf + Drop, R: Eprint + Clock + Drop> Device for ShownShelf<H, R> {
    ghost failures = { λ s. H.failures s.shelf };

    ghost is_steady = { λ s. H.is_steady s.shelf };

    ghost plan = { λ s. H.plan s.shelf };

    ghost never_fails = { λ s steady. H.never_fails s.shelf steady };

    fn faults(&self) -> u64 {
        self.shelf.faults()
    }
}

impl<H: Shelf + Drop, R: Eprint + Clock + Drop> Shelf for ShownShelf<H, R> {
    type D = H::D;

    ghost names = { λ s. H.names s.shelf };

    ghost told = { λ s name. H.told s.shelf name };

    fn names(&mut self) -> Result<Vec<PadId>, ShelfBad> {
        let names = self.shelf.names()?;
        self.opened = 0;
        self.found = names.len() as u64;
        Ok(names)
    }

    fn has(&mut self, name: &PadId) -> Result<bool, ShelfBad> {
        self.shelf.has(name)
    }

    fn open(&mut self, name: &PadId) -> Result<H::D, ShelfBad> {
        self.show();
        let opened = self.shelf.open(name);
        if opened.is_err() {
            self.line.erase();
        }
        opened
    }
}

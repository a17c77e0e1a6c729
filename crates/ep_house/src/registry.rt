//! The registry of open pads: a machine that answers a name with its cell.

ghost use Rattle.std.specs.Prelude.{◌≡◌, ◌≢◌, ◌≤◌, ◌<◌, ◌∷◌, [], ◌++◌, List, ℕ, IfOk, IfErr, OnOk, OnErr, Err, vec_len, vec_capacity};
ghost use Rattle.std.proofs.Props.{props};
ghost use Rattle.std.specs.List.{All};
ghost use Rattle.ep_house.specs.Named.{IsWithin, MayWait};

use crate::named::{Kept, Named, Waiting, find, take_kept};
use crate::pad_over::PadOver;
use crate::shelved::disk_of;
use ep_cell::Cell;
use ep_outside::{Limits, Machine, Shelf, ShelfBad};
use ep_pad::{PassBad, Wanted};
use ep_units::PadId;
use std::alloc::Global;
use std::sync::Arc;

/// The registry. A pad that has a place keeps it. Each is held to the registry's limits as it begins.
#[derive(Drop)]
pub struct Registry<H: Shelf, P: PadOver<H::D>> {
    alloc: Global,
    shelf: H,
    limits: Limits,
    cells: Vec<Named<P>>,
    kept: Vec<Kept<Waiting<H::D, P>>>,
    ghost within: { vec_len cells ≤ limits.pads },
    ghost cells_within: { All (λ n. IsWithin P.limits_of limits n.cell) cells.items } by { Prim.hlevel props },
    ghost kept_within: { All (λ k. MayWait P.limits_of limits k.what) kept.items } by { Prim.hlevel props },
}

/// A cell that is shared, or why none.
pub type Found<P> = Result<Arc<Cell<P>, Global>, PassBad>;

impl<H: Shelf, P: PadOver<H::D>> Registry<H, P> {
    ghost use Rattle.ep_cell.specs.Passes.{first_of, id_of};
    ghost use Rattle.ep_house.specs.Register.{Comes, Keeps, MayOpen, Places, Step, found_in, in_cell, on_disk, without};
    ghost use Rattle.ep_pad.specs.Halls.{told_of, want};
    ghost use Rattle.ep_house.specs.Named.{shared_id, wait_of};
    ghost use Rattle.ep_house.specs.Registry.{held_to, register};

    /// No pad has a place.
    pub fn new(alloc: Global, shelf: H, limits: Limits) -> Registry<H, P>
        ensures begun { register result ≡ record { limit = limits.pads; shelf = shelf; cells = []; waiting = [] } }
        ensures limits { held_to result ≡ limits }
    {
        Registry {
            alloc,
            shelf,
            limits,
            cells: Vec::new(alloc),
            kept: Vec::new(alloc),
        }
    }

    fn look_up(&mut self, name: PadId, makes: bool) -> Found<P>
        ensures limits { self.new.limits ≡ self.old.limits }
        ensures within { IfOk result (IsWithin P.limits_of self.old.limits) }
        ensures step { Step H.failures H.names H.told H.D.failures H.D.told (register self.old) (want name makes) (told_of shared_id result) (register self.new) }
    {
        if let Some(named) = find(&self.cells, &name) {
            return match Arc::try_clone(&named.cell) {
                Ok(cell) => Ok(cell),
                Err(_) => Err(PassBad::NoMemory),
            };
        }
        let count = self.cells.len() as u64;
        if count >= self.limits.pads {
            return Err(PassBad::Pads(count));
        }
        self.open_new(name, makes)
    }

    // A place for a pad that has none.
    fn open_new(&mut self, name: PadId, makes: bool) -> Found<P>
        requires { MayOpen (register self.old) name }
        ensures limits { self.new.limits ≡ self.old.limits }
        ensures within { IfOk result (IsWithin P.limits_of self.old.limits) }
        ensures step { Step H.failures H.names H.told H.D.failures H.D.told (register self.old) (want name makes) (told_of shared_id result) (register self.new) }
    {
        if self.cells.reserve(1).is_err() {
            return Err(PassBad::NoMemory);
        }
        match self.waiting(&name, makes) {
            Ok(Waiting::Disk(disk)) => self.put(name, disk),
            Ok(Waiting::Cell(cell)) => self.share(name, cell),
            Ok(Waiting::Shared(cell)) => self.place(name, cell),
            Err(error) => Err(error),
        }
    }

    // What waits for a name that isn't open, or the shelf's disk, which only who makes a pad adds to the shelf.
    fn waiting(&mut self, name: &PadId, makes: bool) -> Result<Waiting<H::D, P>, PassBad>
        ensures cells { self.new.cells ≡ self.old.cells }
        ensures limits { self.new.limits ≡ self.old.limits }
        ensures keeps { Keeps H.failures H.names H.told (register self.old) (register self.new) (want name.now makes) }
        ensures comes { IfOk result (λ w. Comes H.told H.D.failures H.D.told (found_in (register self.old).waiting name.now) self.old.shelf name.now (wait_of w)) }
        ensures taken { OnOk result ((register self.new).waiting ≡ without (register self.old).waiting name.now) }
        ensures within { IfOk result (MayWait P.limits_of self.old.limits) }
        ensures room { OnOk result (vec_len self.new.kept < vec_capacity self.new.kept) }
        ensures refused { MayOpen (register self.old) name.now → IfErr result (λ e. Step H.failures H.names H.told H.D.failures H.D.told (register self.old) (want name.now makes) (Err e) (register self.new)) }
    {
        if self.kept.reserve(1).is_err() {
            return Err(PassBad::NoMemory);
        }
        if let Some(waiting) = take_kept(&mut self.kept, name) {
            return Ok(waiting);
        }
        match disk_of(&mut self.shelf, name, makes) {
            Ok(Some(disk)) => Ok(Waiting::Disk(disk)),
            Ok(None) => Err(PassBad::Absent),
            Err(ShelfBad::Failed) => Err(PassBad::Shelf(self.shelf.faults())),
            Err(ShelfBad::NoMemory) => Err(PassBad::NoMemory),
        }
    }

    // A cell round a pad on this disk, of which no call is made. Where that finds no memory, the disk waits for the next
    // pass.
    fn put(&mut self, name: PadId, disk: H::D) -> Found<P>
        requires room { (vec_len self.old.cells < vec_capacity self.old.cells) × (vec_len self.old.kept < vec_capacity self.old.kept) }
        requires below { vec_len self.old.cells < self.old.limits.pads }
        ensures limits { self.new.limits ≡ self.old.limits }
        ensures within { IfOk result (IsWithin P.limits_of self.old.limits) }
        ensures places { Places (register self.old) name (on_disk disk) (told_of shared_id result) (register self.new) }
    {
        let pad = P::shut(self.alloc, disk, self.limits);
        match Cell::new(self.alloc, pad) {
            Ok(cell) => self.share(name, cell),
            Err(refused) => {
                let disk = refused.back.into_disk();
                self.kept.push_reserved(Kept {
                    name,
                    what: Waiting::Disk(disk),
                });
                Err(PassBad::NoMemory)
            }
        }
    }

    // A cell is shared. One that finds no memory waits for the next pass.
    fn share(&mut self, name: PadId, cell: Cell<P>) -> Found<P>
        requires room { (vec_len self.old.cells < vec_capacity self.old.cells) × (vec_len self.old.kept < vec_capacity self.old.kept) }
        requires below { vec_len self.old.cells < self.old.limits.pads }
        requires within { P.limits_of (first_of cell) ≡ self.old.limits }
        ensures limits { self.new.limits ≡ self.old.limits }
        ensures within { IfOk result (IsWithin P.limits_of self.old.limits) }
        ensures places { Places (register self.old) name (in_cell (id_of cell)) (told_of shared_id result) (register self.new) }
    {
        match Arc::new(self.alloc, cell) {
            Ok(cell) => self.place(name, cell),
            Err(failed) => {
                self.kept.push_reserved(Kept {
                    name,
                    what: Waiting::Cell(failed.value),
                });
                Err(PassBad::NoMemory)
            }
        }
    }

    // A shared cell gets its place.
    fn place(&mut self, name: PadId, cell: Arc<Cell<P>, Global>) -> Found<P>
        requires room { (vec_len self.old.cells < vec_capacity self.old.cells) × (vec_len self.old.kept < vec_capacity self.old.kept) }
        requires below { vec_len self.old.cells < self.old.limits.pads }
        requires within { IsWithin P.limits_of self.old.limits cell }
        ensures limits { self.new.limits ≡ self.old.limits }
        ensures within { IfOk result (IsWithin P.limits_of self.old.limits) }
        ensures places { Places (register self.old) name (in_cell (shared_id cell)) (told_of shared_id result) (register self.new) }
    {
        match Arc::try_clone(&cell) {
            Ok(theirs) => {
                self.cells.push_reserved(Named { name, cell });
                Ok(theirs)
            }
            Err(_) => {
                self.kept.push_reserved(Kept {
                    name,
                    what: Waiting::Shared(cell),
                });
                Err(PassBad::NoMemory)
            }
        }
    }
}

impl<H: Shelf, P: PadOver<H::D>> Machine for Registry<H, P> {
    ghost use Rattle.ep_house.specs.Register.{IsLegalFrom, Stands, all_told};
    ghost use Rattle.ep_house.specs.Named.{IsWithin, shared_id};
    ghost use Rattle.ep_house.specs.Registry.{register};

    type Entry = Wanted;

    type Reply = Found<P>;

    ghost allows = { λ _. Unit {0} };

    // It keeps its limits, and each cell that it answers is held to them as it begins.
    ghost stands = { λ first r h. (r.limits ≡ first.limits) × Stands H.failures H.names H.told H.D.failures H.D.told (register first) (register r) (all_told shared_id h) × All (λ c. IfOk c.1 (IsWithin P.limits_of first.limits)) h };

    ghost legal = { λ first h. IsLegalFrom H.failures H.names H.told H.D.failures H.D.told (register first) (all_told shared_id h) × All (λ c. IfOk c.1 (IsWithin P.limits_of first.limits)) h };

    ghost stands_legal = { λ first r h s. ((register r, s.1), s.2) };

    fn call(&mut self, wanted: Wanted) -> Found<P> {
        let Wanted { name, makes } = wanted;
        self.look_up(name, makes)
    }
}

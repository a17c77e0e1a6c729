//! A pad that is opened by its first call.

ghost use Rattle.std.specs.Prelude.{◌≡◌, [], IfErr, OnOk};
ghost use Rattle.ep_pad.specs.Lazy.{HasCalledSince, IsOpenThen, IsShut, IsShutThen};

use crate::entries::{PadEntry, PadReply};
use crate::machine::PadMachine;
use ep_history::PadBad;
use ep_outside::{Disk, Limits, Machine, Refused};
use std::alloc::Global;
use std::marker::Model;

/// A pad on its disk, which its first call opens. So who makes it waits for no device, and who calls it waits for its own.
///
/// A call for which it can't be opened is refused for that cause, and the next one tries again.
pub struct LazyPad<D: Disk> {
    alloc: Global,
    limits: Limits,
    // the disk until the machine has it
    disk: Option<D>,
    machine: Option<PadMachine<D>>,
}

impl<D: Disk + Drop> Drop for LazyPad<D> {
    fn drop(self) {
        let LazyPad {
            alloc: _,
            limits: _,
            disk: _,
            machine: _,
        } = self;
    }
}

impl<D: Disk> Model for LazyPad<D> {
    ghost use Rattle.ep_pad.specs.Lazy.{Lazy};

    ghost Value = { Lazy D };

    ghost view = { λ p. record { limits = p.limits; disk = p.disk; machine = p.machine } };
}

impl<D: Disk + Drop> LazyPad<D> {
    /// It stands on the disk, of which no call is made.
    pub fn shut(alloc: Global, disk: D, limits: Limits) -> LazyPad<D>
        ensures begun { HasCalledSince D.told D.failures result result [] }
        ensures limits { result.limits ≡ limits }
        ensures disk { IsShut result disk }
    {
        let disk = Some(disk);
        LazyPad {
            alloc,
            limits,
            disk,
            machine: None,
        }
    }

    /// The disk of one that isn't open. No more calls are made.
    pub fn into_disk(self) -> D
        requires { (disk : D) × IsShut self disk }
        ensures { (disk : D) → IsShut self disk → result ≡ disk }
    {
        let LazyPad {
            alloc: _,
            limits: _,
            disk,
            machine: _,
        } = self;
        match disk {
            Some(disk) => disk,
            None => unreachable!(),
        }
    }

    // Opens it where it isn't open. A refusal leaves it on the disk that the opening handed back.
    fn open(&mut self) -> Result<(), PadBad>
        ensures opens { OnOk result (IsOpenThen D.told D.failures self.old.disk self.old self.new) }
        ensures refused { IfErr result (λ why. IsShutThen D.told D.failures self.old.disk self.old why self.new) }
    {
        let Some(disk) = self.disk.take() else {
            return Ok(());
        };
        match PadMachine::open(self.alloc, disk, self.limits) {
            Ok(machine) => {
                self.machine = Some(machine);
                Ok(())
            }
            Err(Refused { back, why }) => {
                self.disk = Some(back);
                Err(why)
            }
        }
    }
}

impl<D: Disk + Drop> Machine for LazyPad<D> {
    ghost use Rattle.ep_pad.specs.Entries.{MayAsk, entry_of};
    ghost use Rattle.ep_pad.specs.Lazy.{HasCalledSince, IsLegalFrom};

    type Entry = PadEntry;

    type Reply = PadReply;

    ghost allows = { λ e. MayAsk (entry_of e) };

    ghost stands = { HasCalledSince D.told D.failures };

    ghost legal = { IsLegalFrom D.told D.failures };

    ghost stands_legal = { λ begun p h called. (p, called) };

    fn call(&mut self, entry: PadEntry) -> PadReply {
        if let Err(why) = self.open() {
            return entry.refused(why);
        }
        match &mut self.machine {
            Some(machine) => machine.call(entry),
            None => entry.refused(PadBad::NoMemory),
        }
    }
}

//! What a program lacks that can't begin.

ghost use Rattle.std.specs.Prelude.{◌≡◌};
ghost use Rattle.ep_real.specs.Missing.{status_of};

use ep_edge::Lacking;
use ep_units::NoMemory;
use std::alloc::AllocError;
use std::fmt;
use std::fmt::{Display, Formatter, Write};

/// What a program lacks that can't begin.
#[derive(Clone, Copy, Debug, PartialEq, Eq)]
pub enum Missing {
    Key,
    Folder,
    Lock,
    Database,
    Address,
    Thread,
    Memory,
}

impl Missing {
    /// The status with which the program ends.
    pub fn status(self) -> u8
        ensures { result ≡ status_of self }
    {
        match self {
            Missing::Key | Missing::Folder | Missing::Lock | Missing::Database => 6,
            Missing::Memory => 7,
            Missing::Address => 8,
            Missing::Thread => 9,
        }
    }
}

impl From<NoMemory> for Missing {
    fn from(_error: NoMemory) -> Missing {
        Missing::Memory
    }
}

impl From<AllocError> for Missing {
    fn from(_error: AllocError) -> Missing {
        Missing::Memory
    }
}

impl From<Lacking> for Missing {
    fn from(lacking: Lacking) -> Missing {
        match lacking {
            Lacking::Folder => Missing::Folder,
            Lacking::Lock => Missing::Lock,
        }
    }
}

impl Display for Missing {
    fn fmt<W: Write>(&self, f: &mut Formatter<W>) -> fmt::Result {
        f.write_str(match self {
            Missing::Key => "KEY: its file can't be read, or has no first line",
            Missing::Folder => "DIR: the folder isn't there, or can't be opened",
            Missing::Lock => "DIR: another server has the folder",
            Missing::Database => "DIR: directory.db can't be opened",
            Missing::Address => "PADS, API: one of the addresses can't be had",
            Missing::Thread => "a thread can't be started",
            Missing::Memory => "out of memory",
        })
    }
}

//! The device calls of a disk, up to a stop.

ghost use Rattle.std.specs.Prelude.{◌≡◌, ◌+◌, ◌≤◌, [], length, Option, None, Some, IsErr};
ghost use Rattle.ep_outside.specs.Disk.{Stops, StopsAlone};
ghost use Rattle.ep_outside.specs.Outside.{HasCause};
ghost use Rattle.ep_outside.specs.Planned.{Follows};
ghost use Rattle.ep_disk_mem.specs.Faults.{fails_never};
ghost use Rattle.ep_disk_mem.specs.DiskCalls.{is_sure, plan_till};

use crate::faults::Faults;
use ep_outside::Failed;

/// The faults of a disk, and how many calls are left before a stop that was asked for.
#[derive(Drop)]
pub struct DiskCalls {
    pub faults: Faults,
    pub left: Option<u64>,
}

impl DiskCalls {
    /// One device call more.
    pub fn call(&mut self) -> Result<(), Failed>
        ensures stops { Stops self.old.left self.new.left result }
        ensures cause { HasCause self.old.faults.failures self.new.faults.failures (is_sure self.old) (is_sure self.new) (IsErr result) }
        ensures planned { Follows (plan_till self.old.left self.old.faults) (plan_till self.new.left self.new.faults) (IsErr result) }
        ensures alone { StopsAlone (fails_never self.old.faults) (fails_never self.new.faults) self.old.left self.old.faults.failures self.new.faults.failures result }
    {
        match self.left {
            Some(0) => {
                self.faults.fail();
                return Err(Failed);
            }
            Some(calls) => self.left = Some(calls - 1),
            None => {}
        }
        self.faults.call()
    }
}

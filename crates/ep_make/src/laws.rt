//! The law of a schedule.

ghost use Rattle.std.specs.Prelude.{◌≡◌, ℕ};
ghost use Rattle.ep_schedule.specs.World.{WorldState};
ghost use Rattle.ep_make.specs.Schedule.{Makes};

/// A schedule makes one world. So its five lines are a function of the number, the clients and the edits.
pub fn one_world()
    ensures { (number clients edits : ℕ) (v w : WorldState) → Makes number clients edits v → Makes number clients edits w → v ≡ w }
{}

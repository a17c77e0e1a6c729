//! That what is kept always tells of some pad.

ghost use Rattle.ep_seats.specs.Kept.{AreToldOf};

/// What is kept of sessions stands for some pad.
pub fn kept_seats_stand_for_pads()
    ensures { AreToldOf }
{}

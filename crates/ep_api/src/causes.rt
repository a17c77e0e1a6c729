//! Which refusal of a request each refusal below is.

ghost use Rattle.std.specs.Prelude.{◌≡◌};
ghost use Rattle.ep_api.specs.Causes.{of_dir, of_pad, of_pass, with_cause};

use ep_ask::{ApiBad, Param};
use ep_groups::DirBad;
use ep_pad::{PadBad, PassBad};

pub fn of_dir(why: DirBad) -> ApiBad
    ensures { result ≡ of_dir why }
{
    match why {
        DirBad::NoGroup => ApiBad::Unknown(Param::GroupId),
        DirBad::NoAuthor => ApiBad::Unknown(Param::AuthorId),
        DirBad::NoSession => ApiBad::Unknown(Param::SessionId),
        DirBad::Past(_) => ApiBad::Past,
        DirBad::BadName => ApiBad::NotValid(Param::PadName),
        DirBad::Keeper(_) => ApiBad::KeeperFailed,
        DirBad::IdsSpent => ApiBad::IdsSpent,
        // A grant alone is denied, and no function asks for one.
        DirBad::Denied(_) => ApiBad::NotValid(Param::PadId),
        DirBad::Kept(_) => ApiBad::KeptBroken,
        DirBad::NoMemory => ApiBad::NoMemory,
    }
}

/// A pad that exists already is told by the parameter that names it.
pub fn of_pad(name: Param, why: PadBad) -> ApiBad
    ensures { result ≡ of_pad name why }
{
    match why {
        PadBad::Exists => ApiBad::Exists(name),
        PadBad::NoRev(_) => ApiBad::HighRev,
        PadBad::TooLong(_) => ApiBad::TooLong,
        PadBad::JournalFull(_) => ApiBad::JournalFull,
        PadBad::Store(_) => ApiBad::StoreFailed,
        PadBad::Foreign | PadBad::BadRecord(_) => ApiBad::JournalBroken,
        PadBad::NoMemory => ApiBad::NoMemory,
        // An absent pad. The others answer calls of sessions, and no function makes one.
        _ => ApiBad::Unknown(Param::PadId),
    }
}

pub fn of_pass(why: PassBad) -> ApiBad
    ensures { result ≡ of_pass why }
{
    match why {
        PassBad::Pads(_) => ApiBad::Pads,
        PassBad::Shelf(_) => ApiBad::StoreFailed,
        PassBad::Absent => ApiBad::Unknown(Param::PadId),
        PassBad::NoMemory => ApiBad::NoMemory,
    }
}

/// What a pad answered; a pad that exists already is told by the parameter that names it.
pub fn answered<T>(name: Param, answer: Result<T, PadBad>) -> Result<T, ApiBad>
    ensures { result ≡ with_cause (of_pad name) answer }
{
    match answer {
        Ok(told) => Ok(told),
        Err(why) => Err(of_pad(name, why)),
    }
}

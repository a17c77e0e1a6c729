//! Why a request is refused.

ghost use Rattle.std.specs.Prelude.{◌≡◌, ◌++◌, IfOk, string_bytes};
ghost use Rattle.ep_ask.specs.Names.{param_name};
ghost use Rattle.ep_ask.specs.Replies.{code, message};

use crate::param::Param;
use ep_units::NoMemory;
use std::alloc::{AllocError, Global};

/// Why a request is refused, in the groups of its codes.
#[derive(Clone, Copy, Debug, PartialEq, Eq)]
pub enum ApiBad {
    /// The path is none of the API's.
    NotFound,
    NoVersion,
    NoFunction,
    WrongKey,

    Missing(Param),
    NotValid(Param),
    /// The pad to be made is a group's.
    OfGroup,
    /// The pad is no group's.
    NoGroupPad,
    NotNumber(Param),
    NotBoolean(Param),
    /// There is nothing of this id.
    Unknown(Param),
    /// There is a pad of this id or name.
    Exists(Param),
    Past,
    TooLong,
    HighRev,

    StoreFailed,
    KeeperFailed,
    KeptBroken,
    JournalBroken,
    JournalFull,
    Pads,
    IdsSpent,
    NoMemory,
}

impl ApiBad {
    /// The number that tells a program why.
    pub fn code(self) -> u64
        ensures { result ≡ code self }
    {
        match self {
            ApiBad::NoVersion | ApiBad::NoFunction => 3,
            ApiBad::WrongKey => 4,
            ApiBad::StoreFailed
            | ApiBad::KeeperFailed
            | ApiBad::KeptBroken
            | ApiBad::JournalBroken
            | ApiBad::JournalFull
            | ApiBad::Pads
            | ApiBad::IdsSpent
            | ApiBad::NoMemory => 2,
            _ => 1,
        }
    }

    /// The text that tells a person why.
    pub fn message(self, alloc: Global) -> Result<String, NoMemory>
        ensures { IfOk result (λ text. string_bytes text ≡ message self) }
    {
        let text = match self {
            ApiBad::Missing(param) => return of_param(alloc, param, " is missing"),
            ApiBad::NotValid(param) => return of_param(alloc, param, " is not valid"),
            ApiBad::NotNumber(param) => return of_param(alloc, param, " is not a number"),
            ApiBad::NotBoolean(param) => return of_param(alloc, param, " is not a boolean"),
            ApiBad::Unknown(param) => return of_param(alloc, param, " does not exist"),
            ApiBad::Exists(param) => return of_param(alloc, param, " does already exist"),
            ApiBad::NotFound => "Not Found",
            ApiBad::NoVersion => "no such api version",
            ApiBad::NoFunction => "no such function",
            ApiBad::WrongKey => "no or wrong API Key",
            ApiBad::OfGroup => "createPad can't create group pads",
            ApiBad::NoGroupPad => "padID is not a group pad",
            ApiBad::Past => "validUntil is in the past",
            ApiBad::TooLong => "text is too long",
            ApiBad::HighRev => "rev is higher than the head revision of the pad",
            ApiBad::StoreFailed => "store failed",
            ApiBad::KeeperFailed => "keeper failed",
            ApiBad::KeptBroken => "kept record is broken",
            ApiBad::JournalBroken => "pad journal is broken",
            ApiBad::JournalFull => "journal is full",
            ApiBad::Pads => "too many pads",
            ApiBad::IdsSpent => "no more ids",
            ApiBad::NoMemory => "no memory",
        };
        Ok(String::from_str(alloc, text)?)
    }
}

/// What is wrong with a parameter.
fn of_param(alloc: Global, param: Param, what: &str) -> Result<String, NoMemory>
    ensures { IfOk result (λ text. string_bytes text ≡ param_name param ++ what.now) }
{
    let mut text = String::from_str(alloc, param.name())?;
    text.push_str(what)?;
    Ok(text)
}

impl From<NoMemory> for ApiBad {
    ghost use Rattle.ep_ask.specs.declared.bad.ApiBad.TheVariants as bad;

    ghost from_gives = { λ _ e. e ≡ bad.NoMemory };

    fn from(_error: NoMemory) -> ApiBad {
        ApiBad::NoMemory
    }
}

impl From<AllocError> for ApiBad {
    ghost use Rattle.ep_ask.specs.declared.bad.ApiBad.TheVariants as bad;

    ghost from_gives = { λ _ e. e ≡ bad.NoMemory };

    fn from(_error: AllocError) -> ApiBad {
        ApiBad::NoMemory
    }
}

//! Why a request is refused.

use crate::calc_bad::CalcBad;
use crate::members::Member;
use ep_cs::FitBad;
use ep_csread::ReadBad;
use ep_invert::SpliceBad;
use ep_pool::PoolBad;
use ep_slider::SlideBad;
use ep_units::NoMemory;
use std::alloc::{AllocError, AllocFailed};
use std::fmt::{self, Display, Formatter, Write};

/// Why a request is refused, as its reply says.
#[derive(Clone, Copy, Debug, PartialEq, Eq)]
pub enum Refusal {
    /// The line isn't JSON.
    Json,
    /// The first member that is missing or wrong.
    Member(Member),
    /// The pool isn't read.
    Pool,
    /// A text isn't read.
    Read(ReadBad),
    /// A change doesn't fit.
    Fit(FitBad),
    /// A stretch goes past the end.
    Place,
    /// A stretch cuts the pair whose second half stands there.
    CutsPair(u64),
    /// A step isn't of 1 to 100 changes.
    Granularity,
}

impl Display for Refusal {
    fn fmt<W: Write>(&self, f: &mut Formatter<W>) -> fmt::Result {
        match self {
            Refusal::Json => f.write_str("json"),
            Refusal::Member(member) => write!(f, "member {}", member.name()),
            Refusal::Pool => f.write_str("pool"),
            Refusal::Read(bad) => show_read(*bad, f),
            Refusal::Fit(bad) => show_fit(*bad, f),
            Refusal::Place => f.write_str("place"),
            Refusal::CutsPair(at) => write!(f, "cutspair {at}"),
            Refusal::Granularity => f.write_str("granularity"),
        }
    }
}

fn show_read<W: Write>(bad: ReadBad, f: &mut Formatter<W>) -> fmt::Result {
    match bad {
        ReadBad::Syntax(at) => write!(f, "read syntax {at}"),
        ReadBad::Number(at) => write!(f, "read number {at}"),
        ReadBad::NoAttr(number) => write!(f, "read noattr {number}"),
        ReadBad::Bank(need, has) => write!(f, "read bank {need} {has}"),
        ReadBad::Lines(op) => write!(f, "read lines {op}"),
        ReadBad::Length => f.write_str("read length"),
        ReadBad::Pair(at) => write!(f, "read pair {at}"),
        ReadBad::NoMemory => f.write_str("memory"),
    }
}

fn show_fit<W: Write>(bad: FitBad, f: &mut Formatter<W>) -> fmt::Result {
    match bad {
        FitBad::OldLen(has, says) => write!(f, "fit oldlen {has} {says}"),
        FitBad::Newlines(op) => write!(f, "fit newlines {op}"),
        FitBad::CutsPair(at) => write!(f, "fit cutspair {at}"),
    }
}

/// Why a request has no other answer.
#[derive(Clone, Copy, Debug, PartialEq, Eq)]
pub enum Stop {
    Refused(Refusal),
    NoMemory,
}

impl From<NoMemory> for Stop {
    fn from(_error: NoMemory) -> Stop {
        Stop::NoMemory
    }
}

impl From<AllocError> for Stop {
    fn from(_error: AllocError) -> Stop {
        Stop::NoMemory
    }
}

impl<T: Drop> From<AllocFailed<T>> for Stop {
    fn from(_error: AllocFailed<T>) -> Stop {
        Stop::NoMemory
    }
}

impl From<PoolBad> for Stop {
    fn from(bad: PoolBad) -> Stop {
        match bad {
            PoolBad::NoMemory => Stop::NoMemory,
            _ => Stop::Refused(Refusal::Pool),
        }
    }
}

impl From<ReadBad> for Stop {
    fn from(bad: ReadBad) -> Stop {
        match bad {
            ReadBad::NoMemory => Stop::NoMemory,
            _ => Stop::Refused(Refusal::Read(bad)),
        }
    }
}

impl From<FitBad> for Stop {
    fn from(bad: FitBad) -> Stop {
        Stop::Refused(Refusal::Fit(bad))
    }
}

impl From<CalcBad> for Stop {
    fn from(bad: CalcBad) -> Stop {
        match bad {
            CalcBad::NoMemory => Stop::NoMemory,
            CalcBad::Fit(bad) => Stop::from(bad),
        }
    }
}

impl From<SpliceBad> for Stop {
    fn from(bad: SpliceBad) -> Stop {
        match bad {
            SpliceBad::NoMemory => Stop::NoMemory,
            SpliceBad::Place => Stop::Refused(Refusal::Place),
            SpliceBad::CutsPair(at) => Stop::Refused(Refusal::CutsPair(at)),
        }
    }
}

impl From<SlideBad> for Stop {
    fn from(bad: SlideBad) -> Stop {
        match bad {
            SlideBad::NoMemory => Stop::NoMemory,
            SlideBad::Granularity => Stop::Refused(Refusal::Granularity),
        }
    }
}

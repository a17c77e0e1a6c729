//! Refusals in words.

use ep_csread::ReadBad;
use ep_pool::{PoolBad, PoolMember};
use ep_wire::WireBad;
use std::fmt::{self, Display, Formatter, Write};

/// Why a text is no message, in words and numbers.
#[derive(Clone, Copy)]
pub struct Refusal(pub WireBad);

impl Display for Refusal {
    fn fmt<W: Write>(&self, f: &mut Formatter<W>) -> fmt::Result {
        match self.0 {
            WireBad::TooBig(bytes) => write!(f, "toobig {bytes}"),
            WireBad::NotJson => f.write_str("notjson"),
            WireBad::Shape(member) => write!(f, "shape {}", member.name()),
            WireBad::Pool(bad) => show_pool(bad, f),
            WireBad::Changeset(bad) => show_changeset(bad, f),
            WireBad::NoMemory => f.write_str("memory"),
        }
    }
}

fn show_pool<W: Write>(bad: PoolBad, f: &mut Formatter<W>) -> fmt::Result {
    match bad {
        PoolBad::Shape(PoolMember::NextNum) => f.write_str("pool shape nextNum"),
        PoolBad::Shape(PoolMember::NumToAttrib) => f.write_str("pool shape numToAttrib"),
        PoolBad::Gap(number) => write!(f, "pool gap {number}"),
        PoolBad::Twice(number) => write!(f, "pool twice {number}"),
        PoolBad::NoMemory => f.write_str("pool memory"),
    }
}

fn show_changeset<W: Write>(bad: ReadBad, f: &mut Formatter<W>) -> fmt::Result {
    match bad {
        ReadBad::Syntax(at) => write!(f, "changeset syntax {at}"),
        ReadBad::Number(at) => write!(f, "changeset number {at}"),
        ReadBad::NoAttr(number) => write!(f, "changeset noattr {number}"),
        ReadBad::Bank(need, has) => write!(f, "changeset bank {need} {has}"),
        ReadBad::Lines(op) => write!(f, "changeset lines {op}"),
        ReadBad::Length => f.write_str("changeset length"),
        ReadBad::Pair(at) => write!(f, "changeset pair {at}"),
        ReadBad::NoMemory => f.write_str("changeset memory"),
    }
}

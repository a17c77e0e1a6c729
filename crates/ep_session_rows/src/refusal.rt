//! Refusals in words.

use ep_cs::FitBad;
use ep_csread::ReadBad;
use ep_history::Why;
use ep_pad::PadBad;
use ep_pool::{PoolBad, PoolMember};
use ep_session::{BadKind, End};
use ep_wire::WireBad;
use std::fmt::{self, Display, Formatter, Write};

/// Why a session ended, in words and numbers.
#[derive(Clone, Copy)]
pub struct Ended<'a>(pub &'a End);

impl Display for Ended<'_> {
    fn fmt<W: Write>(&self, f: &mut Formatter<W>) -> fmt::Result {
        match self.0 {
            End::Closed => f.write_str("closed"),
            End::Bad(bad) => {
                f.write_str("bad ")?;
                show_kind(*bad, f)
            }
            End::Replaced(by) => write!(f, "replaced {}.{}", by.epoch, by.count),
            End::Deleted(birth) => write!(f, "deleted {birth}"),
            End::Reopened(epoch) => write!(f, "reopened {epoch}"),
            End::Denied(rule) => write!(f, "denied {rule}"),
            End::Full(n) => write!(f, "fullsessions {n}"),
            End::Gone => f.write_str("gone"),
            End::BadRev(head) => write!(f, "badrev {head}"),
            End::Pads(n) => write!(f, "pads {n}"),
            End::IdsSpent => f.write_str("idsspent"),
            End::JournalFull(bytes) => write!(f, "full {bytes}"),
            End::Broken(bad) => show_pad(*bad, f),
            End::Kept(_) => f.write_str("kept"),
            End::Directory(_) => f.write_str("directory"),
            End::LinkFault(count) => write!(f, "link {count}"),
            End::StoreFault(count) => write!(f, "store {count}"),
            End::ShelfFault(count) => write!(f, "shelf {count}"),
            End::KeeperFault(count) => write!(f, "keeper {count}"),
            End::NoMemory => f.write_str("memory"),
        }
    }
}

fn show_kind<W: Write>(bad: BadKind, f: &mut Formatter<W>) -> fmt::Result {
    match bad {
        BadKind::NotReady => f.write_str("notready"),
        BadKind::Binary => f.write_str("binary"),
        BadKind::Wire(bad) => {
            f.write_str("wire ")?;
            show_wire(bad, f)
        }
        BadKind::Edit(bad) => {
            f.write_str("edit ")?;
            show_pad(bad, f)
        }
        BadKind::Slide(_) => f.write_str("slide granularity"),
    }
}

fn show_pad<W: Write>(bad: PadBad, f: &mut Formatter<W>) -> fmt::Result {
    match bad {
        PadBad::Dead(Why::Left) => f.write_str("dead left"),
        PadBad::Dead(_) => f.write_str("dead"),
        PadBad::Denied(rule) => write!(f, "denied {rule}"),
        PadBad::Full(n) => write!(f, "fullsessions {n}"),
        PadBad::Gone => f.write_str("gone"),
        PadBad::BadRev(head) => write!(f, "badrev {head}"),
        PadBad::NoRev(head) => write!(f, "norev {head}"),
        PadBad::Exists => f.write_str("exists"),
        PadBad::ReadOnly => f.write_str("readonly"),
        PadBad::NoBase(head) => write!(f, "nobase {head}"),
        PadBad::Author(op) => write!(f, "author {op}"),
        PadBad::Fit(FitBad::OldLen(has, says)) => write!(f, "fit oldlen {has} {says}"),
        PadBad::Fit(FitBad::Newlines(op)) => write!(f, "fit newlines {op}"),
        PadBad::Fit(FitBad::CutsPair(at)) => write!(f, "fit cutspair {at}"),
        PadBad::TooLong(units) => write!(f, "toolong {units}"),
        PadBad::JournalFull(bytes) => write!(f, "full {bytes}"),
        PadBad::Store(count) => write!(f, "store {count}"),
        PadBad::Foreign => f.write_str("foreign"),
        PadBad::BadRecord(at) => write!(f, "record {at}"),
        PadBad::NoMemory => f.write_str("memory"),
    }
}

fn show_wire<W: Write>(bad: WireBad, f: &mut Formatter<W>) -> fmt::Result {
    match bad {
        WireBad::TooBig(bytes) => write!(f, "toobig {bytes}"),
        WireBad::NotJson => f.write_str("notjson"),
        WireBad::Shape(member) => write!(f, "shape {}", member.name()),
        WireBad::Pool(bad) => show_pool(bad, f),
        WireBad::Changeset(bad) => show_changeset(bad, f),
        WireBad::NoMemory => f.write_str("memory"),
    }
}

fn show_pool<W: Write>(bad: PoolBad, f: &mut Formatter<W>) -> fmt::Result {
    match bad {
        PoolBad::Shape(PoolMember::NextNum) => f.write_str("pool shape nextNum"),
        PoolBad::Shape(PoolMember::NumToAttrib) => f.write_str("pool shape numToAttrib"),
        PoolBad::Gap(number) => write!(f, "pool gap {number}"),
        PoolBad::Twice(number) => write!(f, "pool twice {number}"),
        PoolBad::NoMemory => f.write_str("pool memory"),
    }
}

fn show_changeset<W: Write>(bad: ReadBad, f: &mut Formatter<W>) -> fmt::Result {
    match bad {
        ReadBad::Syntax(at) => write!(f, "changeset syntax {at}"),
        ReadBad::Number(at) => write!(f, "changeset number {at}"),
        ReadBad::NoAttr(number) => write!(f, "changeset noattr {number}"),
        ReadBad::Bank(need, has) => write!(f, "changeset bank {need} {has}"),
        ReadBad::Lines(op) => write!(f, "changeset lines {op}"),
        ReadBad::Length => f.write_str("changeset length"),
        ReadBad::Pair(at) => write!(f, "changeset pair {at}"),
        ReadBad::NoMemory => f.write_str("changeset memory"),
    }
}

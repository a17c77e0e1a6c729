//! The words of refusals of the crates below.

use ep_client::ClientBad;
use ep_cs::FitBad;
use ep_csread::ReadBad;
use ep_wire_words::WireBad;
use std::fmt::{self, Formatter, Write};

/// A message that isn't read.
pub fn wire_words<W: Write>(bad: WireBad, f: &mut Formatter<W>) -> fmt::Result {
    match bad {
        WireBad::TooBig(bytes) => write!(f, "wire toobig {bytes}"),
        WireBad::NotJson => f.write_str("wire json"),
        WireBad::Shape(member) => write!(f, "wire shape {}", member.name()),
        WireBad::Pool(_) => f.write_str("wire pool"),
        WireBad::Changeset(bad) => read_words(bad, f),
        WireBad::NoMemory => f.write_str("memory"),
    }
}

fn read_words<W: Write>(bad: ReadBad, f: &mut Formatter<W>) -> fmt::Result {
    match bad {
        ReadBad::Syntax(at) => write!(f, "wire read syntax {at}"),
        ReadBad::Number(at) => write!(f, "wire read number {at}"),
        ReadBad::NoAttr(number) => write!(f, "wire read noattr {number}"),
        ReadBad::Bank(need, has) => write!(f, "wire read bank {need} {has}"),
        ReadBad::Lines(op) => write!(f, "wire read lines {op}"),
        ReadBad::Length => f.write_str("wire read length"),
        ReadBad::Pair(at) => write!(f, "wire read pair {at}"),
        ReadBad::NoMemory => f.write_str("memory"),
    }
}

/// A message that the client can't hear.
pub fn client_words<W: Write>(bad: ClientBad, f: &mut Formatter<W>) -> fmt::Result {
    match bad {
        ClientBad::OutOfOrder(due, came) => write!(f, "order {due} {came}"),
        ClientBad::NotSubmitted => f.write_str("notsubmitted"),
        ClientBad::Fit(bad) => fit_words(bad, f),
        ClientBad::NoMemory => f.write_str("memory"),
    }
}

fn fit_words<W: Write>(bad: FitBad, f: &mut Formatter<W>) -> fmt::Result {
    match bad {
        FitBad::OldLen(has, says) => write!(f, "fit oldlen {has} {says}"),
        FitBad::Newlines(op) => write!(f, "fit newlines {op}"),
        FitBad::CutsPair(at) => write!(f, "fit cutspair {at}"),
    }
}

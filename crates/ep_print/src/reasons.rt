//! Why what was asked for is refused, in words.

ghost use Rattle.std.specs.Prelude.{◌≡◌, IfOk, string_bytes};
ghost use Rattle.ep_print.specs.Reasons.{read_out, fit_out, dead_out, pad_out, reason_out};

use crate::texts::print_session;
use ep_cs::FitBad;
use ep_csread::ReadBad;
use ep_event::Reason;
use ep_history::{PadBad, Why};
use ep_units::NoMemory;
use std::alloc::Global;

pub(crate) fn print_reason(alloc: Global, why: Reason) -> Result<String, NoMemory>
    ensures { IfOk result (λ s. string_bytes s ≡ reason_out why) }
{
    match why {
        Reason::Read(bad) => print_read(alloc, bad),
        Reason::Pad(bad) => print_pad(alloc, bad),
        Reason::Place => Ok(format!(in alloc; "place")?),
        Reason::CutsPair(at) => Ok(format!(in alloc; "cutspair {at}")?),
    }
}

fn print_read(alloc: Global, bad: ReadBad) -> Result<String, NoMemory>
    ensures { IfOk result (λ s. string_bytes s ≡ read_out bad) }
{
    match bad {
        ReadBad::Syntax(at) => Ok(format!(in alloc; "read syntax {at}")?),
        ReadBad::Number(at) => Ok(format!(in alloc; "read number {at}")?),
        ReadBad::NoAttr(number) => Ok(format!(in alloc; "read noattr {number}")?),
        ReadBad::Bank(need, has) => Ok(format!(in alloc; "read bank {need} {has}")?),
        ReadBad::Lines(op) => Ok(format!(in alloc; "read lines {op}")?),
        ReadBad::Length => Ok(format!(in alloc; "read length")?),
        ReadBad::Pair(at) => Ok(format!(in alloc; "read pair {at}")?),
        ReadBad::NoMemory => Ok(format!(in alloc; "read memory")?),
    }
}

fn print_fit(alloc: Global, bad: FitBad) -> Result<String, NoMemory>
    ensures { IfOk result (λ s. string_bytes s ≡ fit_out bad) }
{
    match bad {
        FitBad::OldLen(has, says) => Ok(format!(in alloc; "fit oldlen {has} {says}")?),
        FitBad::Newlines(op) => Ok(format!(in alloc; "fit newlines {op}")?),
        FitBad::CutsPair(at) => Ok(format!(in alloc; "fit cutspair {at}")?),
    }
}

fn print_dead(alloc: Global, why: Why) -> Result<String, NoMemory>
    ensures { IfOk result (λ s. string_bytes s ≡ dead_out why) }
{
    match why {
        Why::Replaced(session) => {
            let session = print_session(alloc, session)?;
            Ok(format!(in alloc; "dead replaced {session}")?)
        }
        Why::Deleted(_) => Ok(format!(in alloc; "dead deleted")?),
        Why::Reopened(epoch) => Ok(format!(in alloc; "dead reopened {epoch}")?),
        Why::Left => Ok(format!(in alloc; "dead left")?),
    }
}

fn print_pad(alloc: Global, bad: PadBad) -> Result<String, NoMemory>
    ensures { IfOk result (λ s. string_bytes s ≡ pad_out bad) }
{
    match bad {
        PadBad::Dead(why) => print_dead(alloc, why),
        PadBad::Denied(rule) => Ok(format!(in alloc; "denied {rule}")?),
        PadBad::Full(sessions) => Ok(format!(in alloc; "full {sessions}")?),
        PadBad::Gone => Ok(format!(in alloc; "gone")?),
        PadBad::BadRev(head) => Ok(format!(in alloc; "badrev {head}")?),
        PadBad::NoRev(head) => Ok(format!(in alloc; "norev {head}")?),
        PadBad::Exists => Ok(format!(in alloc; "exists")?),
        PadBad::ReadOnly => Ok(format!(in alloc; "readonly")?),
        PadBad::NoBase(head) => Ok(format!(in alloc; "nobase {head}")?),
        PadBad::Author(op) => Ok(format!(in alloc; "author {op}")?),
        PadBad::Fit(bad) => print_fit(alloc, bad),
        PadBad::TooLong(units) => Ok(format!(in alloc; "toolong {units}")?),
        PadBad::JournalFull(bytes) => Ok(format!(in alloc; "full {bytes}")?),
        PadBad::Store(faults) => Ok(format!(in alloc; "store {faults}")?),
        PadBad::Foreign => Ok(format!(in alloc; "foreign")?),
        PadBad::BadRecord(record) => Ok(format!(in alloc; "record {record}")?),
        PadBad::NoMemory => Ok(format!(in alloc; "memory")?),
    }
}

//! Why what was asked for is refused, in words.

use crate::printed::is_printed;
use ep_cs::FitBad;
use ep_csread::ReadBad;
use ep_event::{Reason, Shown, Verb};
use ep_history::{PadBad, Why};
use ep_units::{NoMemory, Session};
use std::alloc::Global;

const SESSION: Session = Session { epoch: 1, count: 3 };

/// Whether a text that isn't set is refused by this.
fn is_refused(alloc: Global, why: Reason, said: &str) -> Result<bool, NoMemory> {
    let shown = Shown::Refused {
        verb: Verb::Set,
        name: None,
        why,
    };
    is_printed(alloc, shown, "set refused ", said)
}

#[test]
fn reasons(rt: HostRuntime) {
    for (why, said) in [
        (Reason::Place, "place\n"),
        (Reason::CutsPair(2), "cutspair 2\n"),
        (Reason::Read(ReadBad::Syntax(45)), "read syntax 45\n"),
        (Reason::Read(ReadBad::Number(2)), "read number 2\n"),
        (Reason::Read(ReadBad::NoAttr(0)), "read noattr 0\n"),
        (Reason::Read(ReadBad::Bank(10, 11)), "read bank 10 11\n"),
        (Reason::Read(ReadBad::Lines(2)), "read lines 2\n"),
        (Reason::Read(ReadBad::Length), "read length\n"),
        (Reason::Read(ReadBad::Pair(0)), "read pair 0\n"),
        (
            Reason::Pad(PadBad::Dead(Why::Replaced(SESSION))),
            "dead replaced 1.3\n",
        ),
        (Reason::Pad(PadBad::Dead(Why::Deleted(1))), "dead deleted\n"),
        (
            Reason::Pad(PadBad::Dead(Why::Reopened(2))),
            "dead reopened 2\n",
        ),
        (Reason::Pad(PadBad::Dead(Why::Left)), "dead left\n"),
        (Reason::Pad(PadBad::Denied(4)), "denied 4\n"),
        (Reason::Pad(PadBad::Full(500)), "full 500\n"),
        (Reason::Pad(PadBad::Gone), "gone\n"),
        (Reason::Pad(PadBad::Exists), "exists\n"),
        (Reason::Pad(PadBad::ReadOnly), "readonly\n"),
        (Reason::Pad(PadBad::NoBase(0)), "nobase 0\n"),
        (Reason::Pad(PadBad::Author(3)), "author 3\n"),
        (
            Reason::Pad(PadBad::Fit(FitBad::OldLen(1, 0))),
            "fit oldlen 1 0\n",
        ),
        (
            Reason::Pad(PadBad::Fit(FitBad::Newlines(0))),
            "fit newlines 0\n",
        ),
        (
            Reason::Pad(PadBad::Fit(FitBad::CutsPair(6))),
            "fit cutspair 6\n",
        ),
        (
            Reason::Pad(PadBad::TooLong(4294967297)),
            "toolong 4294967297\n",
        ),
        (
            Reason::Pad(PadBad::JournalFull(1073741825)),
            "full 1073741825\n",
        ),
    ] {
        assert_eq!(rt; is_refused(rt.alloc(), why, said), Ok(true), "at {said}");
    }
}

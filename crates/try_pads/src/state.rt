//! A pad in memory, from its first record on.

use crate::grants::grant;
use ep_history::{PadBad, Record};
use ep_outside::Limits;
use ep_pad_state::{LoggedIn, Pad, Ready};
use ep_units::Session;
use std::alloc::Global;

const LIMITS: Limits = Limits {
    live: 2,
    logins: 9,
    units: 9,
    journal: 99,
    openings: 0,
    pads: 1,
};

/// The session of an author whose login makes the pad.
fn made(alloc: Global, pad: &mut Pad, author: &str, now: u64) -> Result<Option<Session>, PadBad> {
    let grant = grant(alloc, "pad", author)?;
    match pad.login(alloc, &grant, now)? {
        LoggedIn::Entered(_) => Ok(None),
        LoggedIn::Makes(ready) => {
            let Ready {
                record,
                answer,
                mut change,
            } = ready;
            change.fill(record);
            pad.commit(change);
            Ok(Some(answer.session))
        }
    }
}

#[test]
fn a_pad_from_its_first_record_on(rt: HostRuntime) {
    let mut pad = Pad::unopened(rt.alloc(), LIMITS);
    let opening = Record::Open { epoch: 1 };
    assert_eq!(rt; pad.next(rt.alloc(), opening), Ok(true));
    assert_eq!(rt; pad.epoch(), 1);
    let first = Session { epoch: 1, count: 1 };
    assert_eq!(rt; made(rt.alloc(), &mut pad, "a.1", 7), Ok(Some(first)));
    assert_eq!(rt; pad.status().map(|status| status.live), Ok(1));
}

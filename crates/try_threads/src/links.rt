//! The link in memory.

use ep_link::{Coming, Ear, Link, LinkBad, LinkGot, MemLink, Passed};
use ep_outside::{Device, Text};
use std::alloc::Global;
use std::collections::VecDeque;
use std::sync::Wait;
use std::test::Fail;

/// A link to which nothing comes, then a text, then what is no text. Its calls of these numbers fail.
fn link(alloc: Global, fails: &[u64]) -> Result<MemLink, Fail> {
    let mut coming = VecDeque::new(alloc);
    coming.push_back(Coming::Nothing)?;
    coming.push_back(Coming::Message(Text::from_str(alloc, "hi")?))?;
    coming.push_back(Coming::Binary)?;
    Ok(MemLink::new(alloc, coming, Vec::from_slice(alloc, fails)?))
}

/// Whether the next receive gives what this word tells.
fn gives<R: Wait>(rt: &R, link: &mut MemLink, wanted: &str) -> bool {
    match link.recv(rt) {
        LinkGot::Message(text) => text.as_str() == wanted,
        LinkGot::Binary => wanted == "binary",
        LinkGot::Nothing => wanted == "nothing",
        LinkGot::Closed => wanted == "closed",
        LinkGot::Failed => wanted == "failed",
        LinkGot::NoMemory => wanted == "no memory",
    }
}

fn is_sent(passed: &Passed, wanted: &str) -> bool {
    match passed {
        Passed::Sent(text) => text.as_str() == wanted,
        Passed::Got(_) => false,
    }
}

#[test]
fn gives_and_keeps(rt: HostRuntime) -> Result<(), Fail> {
    let mut link = link(rt.alloc(), &[])?;
    assert!(rt; gives(&rt, &mut link, "nothing"));
    assert_eq!(rt; link.send(&rt, "ho"), Ok(()));
    for wanted in ["hi", "binary", "closed", "closed"] {
        assert!(rt; gives(&rt, &mut link, wanted), "not {wanted}");
    }
    assert_eq!(rt; link.passed().len(), 6);
    assert!(rt; is_sent(&link.passed()[1], "ho"));
    assert!(rt; link.ear().map_or(false, |ear| ear.ring()));
    Ok(())
}

#[test]
fn fails_by_number(rt: HostRuntime) -> Result<(), Fail> {
    let mut link = link(rt.alloc(), &[2, 3])?;
    assert!(rt; gives(&rt, &mut link, "nothing"));
    assert!(rt; gives(&rt, &mut link, "failed"));
    assert_eq!(rt; link.send(&rt, "ho"), Err(LinkBad::Failed));
    assert_eq!(rt; link.faults(), 2);
    assert!(rt; gives(&rt, &mut link, "hi"));
    assert_eq!(rt; link.passed().len(), 2);
    Ok(())
}

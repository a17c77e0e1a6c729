//! The ears of those that wait for a pad.

use crate::given::grant;
use crate::house::{MemHouse, opened};
use ep_link::Ear;
use ep_outside::{Keeper, Shelf};
use ep_pad::PadPort;
use ep_pad_port::{HouseOf, PadCalls};
use ep_ring::{Bells, Ringing};
use ep_units::{Grant, NoMemory, Units};
use std::alloc::Global;
use std::sync::atomic::{AtomicBool, Ordering};
use std::sync::{Arc, Wait};
use std::test::Fail;

/// What became of an ear.
struct Marks {
    is_there: AtomicBool,
    is_rung: AtomicBool,
}

impl Drop for Marks {
    fn drop(self) {
        let Marks {
            is_there: _,
            is_rung: _,
        } = self;
    }
}

impl Marks {
    fn new() -> Marks {
        Marks {
            is_there: AtomicBool::new(true),
            is_rung: AtomicBool::new(false),
        }
    }
}

/// An ear whose marks others read.
struct Marked {
    marks: Arc<Marks>,
}

impl Drop for Marked {
    fn drop(self) {
        let Marked { marks } = self;
        marks.is_there.store(false, Ordering::SeqCst);
    }
}

impl Ear for Marked {
    fn ring(&self) -> bool {
        self.marks.is_rung.store(true, Ordering::SeqCst);
        true
    }
}

/// Somebody with an ear, whose marks are read.
///
/// Of the pads only their port is known here: the check of a call by a ringing port of one known house meets its limit.
struct Visitor<P: Drop> {
    port: Ringing<P, Marked>,
    marks: Arc<Marks>,
}

impl<P: Drop> Drop for Visitor<P> {
    fn drop(self) {
        let Visitor { port: _, marks: _ } = self;
    }
}

impl<P: Drop> Visitor<P> {
    fn has_ear(&self) -> bool {
        self.marks.is_there.load(Ordering::SeqCst)
    }

    fn is_rung(&self) -> bool {
        self.marks.is_rung.load(Ordering::SeqCst)
    }
}

/// What all visitors share.
struct Desk<P: Drop> {
    pads: Arc<P>,
    bells: Arc<Bells<Marked>>,
}

impl<P: Drop> Drop for Desk<P> {
    fn drop(self) {
        let Desk { pads: _, bells: _ } = self;
    }
}

fn shared_house(alloc: Global) -> Result<Arc<MemHouse>, Fail> {
    let house = opened(alloc, Vec::new(alloc), &[], 2)?;
    Ok(Arc::new(alloc, house)?)
}

fn shared_bells(alloc: Global) -> Result<Arc<Bells<Marked>>, NoMemory> {
    Ok(Arc::new(alloc, Bells::new(alloc))?)
}

fn mem_desk(alloc: Global) -> Result<Desk<MemHouse>, Fail> {
    let pads = shared_house(alloc)?;
    let bells = shared_bells(alloc)?;
    Ok(Desk { pads, bells })
}

impl<P: Drop> Desk<P> {
    fn port(&self, ear: Marked) -> Result<Ringing<P, Marked>, NoMemory> {
        let pads = Arc::try_clone(&self.pads)?;
        let bells = Arc::try_clone(&self.bells)?;
        Ok(Ringing::new(pads, bells, Some(ear)))
    }

    fn visitor(&self, alloc: Global) -> Result<Visitor<P>, NoMemory> {
        let marks = Arc::new(alloc, Marks::new())?;
        let shared = Arc::try_clone(&marks)?;
        let port = self.port(Marked { marks: shared })?;
        Ok(Visitor { port, marks })
    }

    /// For how many pads somebody waits.
    fn waiting<R: Wait>(&self, rt: &R) -> usize {
        self.bells.count(rt)
    }
}

fn logs_in<R: Wait, P: PadPort>(rt: &R, port: &P, pass: &mut P::Pass, grant: &Grant) -> bool
    requires { P.is_of port.now pass.old }
    ensures { P.is_of port.now pass.new }
{
    ep_pad_calls::login(rt, port, pass, grant, 2).is_ok()
}

fn sets_text<R: Wait, P: PadPort>(
    rt: &R,
    alloc: Global,
    port: &P,
    pass: &mut P::Pass,
    text: &str,
) -> Result<bool, NoMemory>
    requires { P.is_of port.now pass.old }
{
    let text = Units::from_str(alloc, text)?;
    Ok(ep_pad_calls::set_text(rt, port, pass, &text, 3).is_ok())
}

/// Whether a visitor may enter the pad, and set its text, if it has one to set.
fn visits<R: Wait, P: PadPort>(
    rt: &R,
    alloc: Global,
    port: &P,
    text: Option<&str>,
) -> Result<bool, NoMemory> {
    let grant = grant(alloc)?;
    let mut hall = port.hall(rt);
    let Ok(mut pass) = port.pass(rt, &mut hall, &grant.pad, true) else {
        return Ok(false);
    };
    let is_in = logs_in(rt, port, &mut pass, &grant);
    match text {
        Some(text) if is_in => sets_text(rt, alloc, port, &mut pass, text),
        _ => Ok(is_in),
    }
}

/// Whether a visitor's ear waits while it is there, and is gone once it has ended.
fn goes<R: Wait, P: PadPort + Drop>(
    rt: &R,
    alloc: Global,
    desk: &Desk<P>,
) -> Result<bool, NoMemory> {
    let visitor = desk.visitor(alloc)?;
    let is_in = visits(rt, alloc, &visitor.port, None)?;
    let waits = desk.waiting(rt) == 1 && visitor.has_ear();
    visitor.port.end(rt);
    Ok(is_in && waits && !visitor.has_ear() && desk.waiting(rt) == 0)
}

/// The same over a house of any kind. That it is a port is proved here of any.
fn goes_over<R: Wait, H: Shelf + Drop, P: PadCalls<H::D>, K: Keeper + Drop>(
    rt: &R,
    alloc: Global,
    desk: &Desk<HouseOf<H, P, K>>,
) -> Result<bool, NoMemory> {
    goes(rt, alloc, desk)
}

#[test]
fn an_ear_goes_with_its_session(rt: HostRuntime) -> Result<(), Fail> {
    let desk = mem_desk(rt.alloc())?;
    for visit in 0..3u8 {
        assert!(&rt; goes_over(&rt, rt.alloc(), &desk)?, "at visit {visit}");
    }
    Ok(())
}

/// Who is woken where the second of two visitors sets the text: the first, and the second.
fn woken<R: Wait, P: PadPort + Drop>(
    rt: &R,
    alloc: Global,
    desk: &Desk<P>,
) -> Result<(bool, bool), NoMemory> {
    let reader = desk.visitor(alloc)?;
    let writer = desk.visitor(alloc)?;
    let both = visits(rt, alloc, &reader.port, None)?
        && visits(rt, alloc, &writer.port, Some("new"))?;
    Ok((both && reader.is_rung(), writer.is_rung()))
}

/// The same over a house of any kind.
fn woken_over<R: Wait, H: Shelf + Drop, P: PadCalls<H::D>, K: Keeper + Drop>(
    rt: &R,
    alloc: Global,
    desk: &Desk<HouseOf<H, P, K>>,
) -> Result<(bool, bool), NoMemory> {
    woken(rt, alloc, desk)
}

#[test]
fn a_commit_wakes_the_others(rt: HostRuntime) -> Result<(), Fail> {
    let desk = mem_desk(rt.alloc())?;
    assert_eq!(&rt; woken_over(&rt, rt.alloc(), &desk)?, (true, false));
    Ok(())
}

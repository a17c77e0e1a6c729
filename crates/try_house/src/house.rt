//! The pads of a house of `ep_pad_port` on their files, by the calls of its port.

ghost use Rattle.std.specs.Prelude.{◌≡◌, true, IfOk};

use crate::directory;
use crate::given::{DRAWN, LIMITS, grant, has_text, id, machine};
use ep_cs::Change;
use ep_disk_mem::{MemDisk, MemFile, MemShelf};
use ep_groups::{DirBad, DirPort};
use ep_keep::MapKeeper;
use ep_outside::{Disk, Keeper, Limits, Shelf};
use ep_pad::{PadBad, PadMachine, PadPort, PassBad};
use ep_pad_port::{House, HouseOf, PadCalls};
use ep_step::newline_change;
use ep_units::{Grant, NoMemory, Session, Units};
use std::alloc::Global;
use std::process::Abort;
use std::sync::Wait;
use std::test::Fail;

pub type MemHouse = House<MemShelf, MapKeeper>;

fn create(alloc: Global, pad: &mut PadMachine<MemDisk>, text: &str) -> Result<(), PadBad> {
    let text = Units::from_str(alloc, text)?;
    pad.create(&text, 1)?;
    Ok(())
}

fn bytes(alloc: Global, mut disk: MemDisk) -> Result<Vec<u8>, Fail> {
    let length = disk.length()?;
    let mut bytes = Vec::new(alloc);
    bytes.resize(length as usize, 0)?;
    disk.read(0, &mut bytes)?;
    Ok(bytes)
}

/// The file of a pad with this text.
fn stored(alloc: Global, text: &str) -> Result<Vec<u8>, Fail> {
    let mut pad = machine(alloc)?;
    create(alloc, &mut pad, text)?;
    bytes(alloc, pad.into_disk())
}

fn file(alloc: Global, name: &str, text: &str) -> Result<MemFile, Fail> {
    let name = id(alloc, name)?;
    let bytes = stored(alloc, text)?;
    let fails = Vec::new(alloc);
    Ok(MemFile { name, bytes, fails })
}

fn files(alloc: Global, rows: &[(&str, &str)]) -> Result<Vec<MemFile>, Fail> {
    let mut files = Vec::new(alloc);
    for (name, text) in rows {
        let file = file(alloc, name, text)?;
        files.push(file)?;
    }
    Ok(files)
}

pub fn opened(
    alloc: Global,
    files: Vec<MemFile>,
    fails: &[u64],
    pads: u64,
) -> Result<MemHouse, Fail> {
    let fails = Vec::from_slice(alloc, fails)?;
    let shelf = MemShelf::new(alloc, files, fails)?;
    let keeper = MapKeeper::new(alloc, Vec::new(alloc));
    Ok(House::open(alloc, shelf, keeper, Limits { pads, ..LIMITS })?)
}

fn enter<R: Wait, P: PadPort>(
    rt: &R,
    alloc: Global,
    port: &P,
    pass: &mut P::Pass,
) -> Result<Session, PadBad>
    requires { P.is_of port.now pass.old }
    ensures { P.is_of port.now pass.new }
{
    let grant = grant(alloc)?;
    let welcome = ep_pad_calls::login(rt, port, pass, &grant, 5)?;
    Ok(welcome.session)
}

fn come_back<R: Wait, P: PadPort>(
    rt: &R,
    alloc: Global,
    port: &P,
    pass: &mut P::Pass,
) -> Result<Session, PadBad>
    requires { P.is_of port.now pass.old }
    ensures { P.is_of port.now pass.new }
{
    let grant = grant(alloc)?;
    let back = ep_pad_calls::resume(rt, port, pass, &grant, 0, Some(1), None, 8)?;
    Ok(back.session)
}

fn set_text<R: Wait, P: PadPort>(
    rt: &R,
    alloc: Global,
    port: &P,
    pass: &mut P::Pass,
) -> Result<(), PadBad>
    requires { P.is_of port.now pass.old }
    ensures { P.is_of port.now pass.new }
{
    let text = Units::from_str(alloc, "ab")?;
    ep_pad_calls::set_text(rt, port, pass, &text, 6)?;
    Ok(())
}

/// A new line at the end of the pad, where its text is as short as it should be.
fn newline<R: Wait, P: PadPort>(
    rt: &R,
    alloc: Global,
    port: &P,
    pass: &mut P::Pass,
) -> Result<Option<Change>, PadBad>
    requires { P.is_of port.now pass.old }
    ensures { P.is_of port.now pass.new }
{
    let doc = ep_pad_calls::text(rt, port, pass, None)?;
    if doc.len() > 9 {
        return Ok(None);
    }
    Ok(Some(newline_change(alloc, &doc)?))
}

/// Whether a session is shown the edit.
fn shows<R: Wait, P: PadPort>(
    rt: &R,
    port: &P,
    pass: &mut P::Pass,
    me: Session,
) -> Result<bool, PadBad>
    requires { P.is_of port.now pass.old }
    ensures { P.is_of port.now pass.new }
{
    let fetched = ep_pad_calls::fetch(rt, port, pass, me, 0, 0)?;
    let piece = ep_pad_calls::history(rt, port, pass, me, 0, 9)?;
    Ok(fetched.head == 2 && piece.revs.len() == 2)
}

/// A session's edit, and how it is read.
fn edits<R: Wait, P: PadPort>(
    rt: &R,
    alloc: Global,
    port: &P,
    pass: &mut P::Pass,
) -> Result<bool, PadBad>
    requires { P.is_of port.now pass.old }
    ensures { P.is_of port.now pass.new }
{
    let me = enter(rt, alloc, port, pass)?;
    set_text(rt, alloc, port, pass)?;
    let Some(change) = newline(rt, alloc, port, pass)? else {
        return Ok(false);
    };
    let taken = ep_pad_calls::accept(rt, port, pass, me, 1, change, 7)?;
    Ok(taken.rev == 2 && shows(rt, port, pass, me)?)
}

/// Who comes back and leaves: the head then.
fn leaves<R: Wait, P: PadPort>(
    rt: &R,
    alloc: Global,
    port: &P,
    pass: &mut P::Pass,
) -> Result<u64, PadBad>
    requires { P.is_of port.now pass.old }
    ensures { P.is_of port.now pass.new }
{
    let me = come_back(rt, alloc, port, pass)?;
    ep_pad_calls::leave(rt, port, pass, me)?;
    ep_pad_calls::set_public(rt, port, pass, true)?;
    let status = ep_pad_calls::status(rt, port, pass)?;
    Ok(status.head)
}

/// A pad's next birth.
fn birth<R: Wait, P: PadPort>(
    rt: &R,
    alloc: Global,
    port: &P,
    pass: &mut P::Pass,
) -> Result<u64, PadBad>
    requires { P.is_of port.now pass.old }
    ensures { P.is_of port.now pass.new }
{
    ep_pad_calls::delete(rt, port, pass, 9)?;
    let text = Units::from_str(alloc, "c")?;
    ep_pad_calls::create(rt, port, pass, &text, 10)
}

fn all_answer<R: Wait, P: PadPort>(
    rt: &R,
    alloc: Global,
    port: &P,
    pass: &mut P::Pass,
) -> Result<bool, PadBad>
    requires { P.is_of port.now pass.old }
{
    let edits = edits(rt, alloc, port, pass)?;
    let head = leaves(rt, alloc, port, pass)?;
    let birth = birth(rt, alloc, port, pass)?;
    Ok(edits && head == 2 && birth == 2)
}

fn answers<R: Wait, P: PadPort>(rt: &R, alloc: Global, port: &P) -> Result<bool, PadBad> {
    if port.limits() != LIMITS {
        return Ok(false);
    }
    let name = id(alloc, "a")?;
    let mut hall = port.hall(rt);
    let Ok(mut pass) = port.pass(rt, &mut hall, &name, true) else {
        return Ok(false);
    };
    all_answer(rt, alloc, port, &mut pass)
}

/// The directory's grant of a pad to somebody with a token.
fn granted<R: Wait, P: DirPort>(
    rt: &R,
    alloc: Global,
    port: &P,
    pad: &str,
) -> Result<Grant, DirBad> {
    let pad = Units::from_str(alloc, pad)?;
    let token = Units::from_str(alloc, "t.1")?;
    let mut pass = port.pass(rt);
    port.grant(rt, &mut pass, &pad, &[], &token, 1, DRAWN)
}

/// Whether who has a grant may log in to its pad.
fn enters<R: Wait, P: PadPort>(rt: &R, port: &P, grant: &Grant) -> bool {
    let mut hall = port.hall(rt);
    match port.pass(rt, &mut hall, &grant.pad, true) {
        Ok(mut pass) => ep_pad_calls::login(rt, port, &mut pass, grant, 2).is_ok(),
        Err(_) => false,
    }
}

/// Whether a pad has this text.
fn reads<R: Wait, P: PadPort>(
    rt: &R,
    alloc: Global,
    port: &P,
    hall: &mut P::Hall,
    name: &str,
    text: &str,
) -> Result<bool, NoMemory>
    requires { P.is_hall port.now hall.old }
    ensures { P.is_hall port.now hall.new }
{
    let name = id(alloc, name)?;
    let Ok(mut pass) = port.pass(rt, hall, &name, false) else {
        return Ok(false);
    };
    match ep_pad_calls::text(rt, port, &mut pass, None) {
        Ok(doc) => has_text(alloc, &doc, text),
        Err(_) => Ok(false),
    }
}

/// Stored pads, each with its text.
const STORED: [(&str, &str); 2] = [("b", "three\n"), ("a", "one\n")];

/// One hall is given pads with these texts.
fn read_all<R: Wait + Abort, P: PadPort>(
    rt: &R,
    alloc: Global,
    port: &P,
    rows: &[(&str, &str)],
) -> Result<(), NoMemory> {
    let mut hall = port.hall(rt);
    'rows: for (name, text) in rows {
        assert!(rt;
            reads(rt, alloc, port, &mut hall, name, text)?,
            "pad {name}"
        );
    }
    Ok(())
}

/// Why a pass of a pad is refused, with its number. One that isn't refused is `given`.
fn refused<R: Wait, P: PadPort>(
    rt: &R,
    alloc: Global,
    port: &P,
    hall: &mut P::Hall,
    name: &str,
    makes: bool,
) -> Result<(&'static str, u64), NoMemory>
    requires { P.is_hall port.now hall.old }
    ensures { P.is_hall port.now hall.new }
{
    let name = id(alloc, name)?;
    Ok(match port.pass(rt, hall, &name, makes) {
        Ok(_) => ("given", 0),
        Err(PassBad::Pads(count)) => ("pads", count),
        Err(PassBad::Shelf(count)) => ("shelf", count),
        Err(PassBad::Absent) => ("absent", 0),
        Err(PassBad::NoMemory) => ("memory", 0),
    })
}

/// Pads that are asked for on a shelf whose first call fails, where one is the most, by who makes an absent one or
/// doesn't: why each is refused.
const REFUSALS: [(&str, bool, &str, u64); 7] = [
    ("a", false, "shelf", 1),
    ("b", false, "absent", 0),
    ("a", false, "absent", 0),
    ("a", true, "given", 0),
    ("b", true, "pads", 1),
    ("b", false, "pads", 1),
    ("a", false, "given", 0),
];

/// One hall is refused pads for these causes.
fn refuse_all<R: Wait + Abort, P: PadPort>(
    rt: &R,
    alloc: Global,
    port: &P,
    rows: &[(&str, bool, &str, u64)],
) -> Result<(), NoMemory> {
    let mut hall = port.hall(rt);
    'rows: for (name, makes, cause, number) in rows {
        let (came, count) = refused(rt, alloc, port, &mut hall, name, *makes)?;
        assert!(rt;
            came == *cause && count == *number,
            "pad {name}: {came} {count}"
        );
    }
    Ok(())
}

/// Whether who is granted a pad may log in to it.
fn grants<R: Wait, P: PadPort + DirPort>(rt: &R, alloc: Global, port: &P) -> bool {
    match granted(rt, alloc, port, "a") {
        Ok(grant) => enters(rt, port, &grant),
        Err(_) => false,
    }
}

/// What is asked of a house.
#[derive(Clone, Copy)]
pub enum Asked {
    EachCall,
    EachCallOfDirectory,
    Grant,
    Stored,
    Refused,
}

/// Whether a house is as it is asked.
fn is_so<R: Wait + Abort, P: PadPort + DirPort>(
    rt: &R,
    alloc: Global,
    port: &P,
    asked: Asked,
) -> bool {
    match asked {
        Asked::EachCall => matches!(answers(rt, alloc, port), Ok(true)),
        Asked::EachCallOfDirectory => directory::answers(rt, alloc, port).is_ok(),
        Asked::Grant => grants(rt, alloc, port),
        Asked::Stored => read_all(rt, alloc, port, &STORED).is_ok(),
        Asked::Refused => refuse_all(rt, alloc, port, &REFUSALS).is_ok(),
    }
}

/// The same of a house over any shelf, pads and keeper. That it is both ports is proved here of any, and not again of
/// those that a test owns.
fn is_so_over<R: Wait + Abort, H: Shelf + Drop, P: PadCalls<H::D>, K: Keeper + Drop>(
    rt: &R,
    alloc: Global,
    house: &HouseOf<H, P, K>,
    asked: Asked,
) -> bool {
    is_so(rt, alloc, house, asked)
}

/// The same of a house in memory with so many pads at most. Whoever owns one is dear to prove, so it stands once.
pub fn is_so_in_memory<R: Wait + Abort>(
    rt: &R,
    alloc: Global,
    files: Vec<MemFile>,
    fails: &[u64],
    pads: u64,
    asked: Asked,
) -> Result<bool, Fail> {
    let house = opened(alloc, files, fails, pads)?;
    Ok(is_so_over(rt, alloc, &house, asked))
}

/// The same of an empty one.
fn is_so_empty<R: Wait + Abort>(rt: &R, alloc: Global, asked: Asked) -> Result<bool, Fail> {
    is_so_in_memory(rt, alloc, Vec::new(alloc), &[], 2, asked)
}

#[test]
fn each_call_of_a_port_answers(rt: HostRuntime) -> Result<(), Fail> {
    assert!(&rt; is_so_empty(&rt, rt.alloc(), Asked::EachCall)?);
    Ok(())
}

#[test]
fn each_call_of_its_directory_answers(rt: HostRuntime) -> Result<(), Fail> {
    assert!(&rt; is_so_empty(&rt, rt.alloc(), Asked::EachCallOfDirectory)?);
    Ok(())
}

/// The directory of a house and its pads, by one value.
#[test]
fn who_is_granted_a_pad_may_enter(rt: HostRuntime) -> Result<(), Fail> {
    assert!(&rt; is_so_empty(&rt, rt.alloc(), Asked::Grant)?);
    Ok(())
}

#[test]
fn a_stored_pad_comes_back(rt: HostRuntime) -> Result<(), Fail> {
    let alloc = rt.alloc();
    let files = files(alloc, &[("a", "one"), ("b", "three")])?;
    assert!(&rt; is_so_in_memory(&rt, alloc, files, &[], 2, Asked::Stored)?);
    Ok(())
}

#[test]
fn refusals_have_their_causes(rt: HostRuntime) -> Result<(), Fail> {
    let alloc = rt.alloc();
    assert!(&rt; is_so_in_memory(&rt, alloc, Vec::new(alloc), &[1], 1, Asked::Refused)?);
    Ok(())
}

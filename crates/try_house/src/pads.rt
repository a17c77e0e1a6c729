//! The pads of `ep_house`: toys, with threads, and a pad on its file.

ghost use Rattle.std.specs.Prelude.{◌≡◌};
ghost use Rattle.ep_house.specs.Pads.{IsHallOf};

mod held;
mod toy;

use crate::given::{LIMITS, id};
use ep_disk_mem::{MemDisk, MemFile, MemShelf};
use ep_house::{Hall, PadOver, PadPass, Pads};
use ep_outside::Shelf;
use ep_pad::{LazyPad, PadBad, PadEntry, PadReply, PassBad};
use ep_units::{NoMemory, Units};
use held::{Gate, HeldDisk, HeldShelf, waits};
use std::alloc::Global;
use std::process::Abort;
use std::sync::atomic::Ordering;
use std::sync::{Arc, Wait};
use std::test::Fail;
use std::thread::join;
use toy::{Toy, ToyBad, ToyEntry};

type MemPads = Pads<MemShelf, Toy<MemDisk>>;

type MemHall = Hall<MemShelf, Toy<MemDisk>>;

type HeldPads = Pads<HeldShelf, Toy<HeldDisk>>;

type HeldPass = PadPass<HeldShelf, Toy<HeldDisk>>;

type FilePads = Pads<MemShelf, LazyPad<MemDisk>>;

type FilePass = PadPass<MemShelf, LazyPad<MemDisk>>;

fn file(alloc: Global, name: &str, text: &str, fails: &[u64]) -> Result<MemFile, NoMemory> {
    let name = id(alloc, name)?;
    let bytes = Vec::from_slice(alloc, text.as_bytes())?;
    let fails = Vec::from_slice(alloc, fails)?;
    Ok(MemFile { name, bytes, fails })
}

/// Files of these names and texts, whose disks' calls of these numbers fail.
fn files(alloc: Global, rows: &[(&str, &str, &[u64])]) -> Result<Vec<MemFile>, NoMemory> {
    let mut files = Vec::new(alloc);
    for (name, text, fails) in rows {
        let file = file(alloc, name, text, fails)?;
        files.push(file)?;
    }
    Ok(files)
}

/// What a pad reads, or why it is refused, with its number.
fn asked<R: Wait>(
    rt: &R,
    alloc: Global,
    pads: &MemPads,
    hall: &mut MemHall,
    name: &str,
    makes: bool,
) -> Result<(&'static str, u64), NoMemory>
    requires { IsHallOf pads.now hall.old }
    ensures { IsHallOf pads.now hall.new }
{
    let name = id(alloc, name)?;
    Ok(match pads.pass(rt, hall, &name, makes) {
        Ok(mut pass) => match pass.call(rt, ToyEntry::Read) {
            Ok(total) => ("reads", total),
            Err(ToyBad::Store(count)) => ("fails", count),
            Err(ToyBad::NoMemory) => ("memory", 0),
        },
        Err(PassBad::Pads(count)) => ("pads", count),
        Err(PassBad::Shelf(count)) => ("shelf", count),
        Err(PassBad::Absent) => ("absent", 0),
        Err(PassBad::NoMemory) => ("memory", 0),
    })
}

/// One hall asks for pads, which it makes where they are absent or doesn't, and is answered so.
fn ask_all<R: Wait + Abort>(
    rt: &R,
    alloc: Global,
    pads: &MemPads,
    rows: &[(&str, bool, &str, u64)],
) -> Result<(), NoMemory> {
    let mut hall = pads.hall(rt);
    'rows: for (name, makes, answer, number) in rows {
        let (came, count) = asked(rt, alloc, pads, &mut hall, name, *makes)?;
        assert!(rt;
            came == *answer && count == *number,
            "pad {name}: {came} {count}"
        );
    }
    Ok(())
}

/// The same over these files. Whoever owns pads is dear to prove, so they stand once.
fn ask_over<R: Wait + Abort>(
    rt: &R,
    alloc: Global,
    files: Vec<MemFile>,
    fails: &[u64],
    rows: &[(&str, bool, &str, u64)],
) -> Result<(), NoMemory> {
    let fails = Vec::from_slice(alloc, fails)?;
    let shelf = MemShelf::new(alloc, files, fails)?;
    let pads: MemPads = Pads::open(alloc, shelf, LIMITS)?;
    ask_all(rt, alloc, &pads, rows)
}

#[test]
fn a_stored_pad_comes_back(rt: HostRuntime) -> Result<(), Fail> {
    let alloc = rt.alloc();
    let files = files(alloc, &[("a", "one", &[]), ("b", "three", &[])])?;
    let rows = [
        ("b", false, "reads", 5),
        ("a", true, "reads", 3),
        ("b", false, "reads", 5),
    ];
    ask_over(&rt, alloc, files, &[], &rows)?;
    Ok(())
}

#[test]
fn refusals_have_their_causes(rt: HostRuntime) -> Result<(), Fail> {
    let alloc = rt.alloc();
    let files = files(alloc, &[("b", "three", &[1])])?;
    let rows = [
        ("b", false, "shelf", 1),
        ("b", false, "fails", 1),
        ("b", false, "reads", 5),
        ("c", false, "absent", 0),
        ("c", true, "reads", 0),
        ("d", true, "pads", 2),
        ("d", false, "pads", 2),
        ("b", true, "reads", 5),
    ];
    ask_over(&rt, alloc, files, &[1], &rows)?;
    Ok(())
}

/// More names than any house opens pads.
const MANY: u64 = 10_001;

/// Whether so many names are told to be absent, and two pads are opened then.
fn none_takes_a_place<R: Wait>(rt: &R, alloc: Global, pads: &MemPads) -> Result<bool, NoMemory> {
    let mut hall = pads.hall(rt);
    'names: for number in 0..MANY {
        let name = format!(in alloc; "absent{number}")?;
        if asked(rt, alloc, pads, &mut hall, name.as_str(), false)? != ("absent", 0) {
            return Ok(false);
        }
    }
    Ok(
        asked(rt, alloc, pads, &mut hall, "absent7", true)? == ("reads", 0)
            && asked(rt, alloc, pads, &mut hall, "absent8", true)? == ("reads", 0)
            && asked(rt, alloc, pads, &mut hall, "absent9", true)? == ("pads", 2),
    )
}

#[test]
fn an_absent_pad_takes_no_place(rt: HostRuntime) -> Result<(), Fail> {
    let alloc = rt.alloc();
    let shelf = MemShelf::new(alloc, Vec::new(alloc), Vec::new(alloc))?;
    let pads: MemPads = Pads::open(alloc, shelf, LIMITS)?;
    assert!(&rt; none_takes_a_place(&rt, alloc, &pads)?);
    Ok(())
}

/// A pass of a pad. Where there is none there is no memory.
fn pass_of<R: Wait, H: Shelf + Drop, P: PadOver<H::D>>(
    rt: &R,
    alloc: Global,
    pads: &Pads<H, P>,
    name: &str,
) -> Result<PadPass<H, P>, NoMemory> {
    let name = id(alloc, name)?;
    let mut hall = pads.hall(rt);
    match pads.pass(rt, &mut hall, &name, true) {
        Ok(pass) => Ok(pass),
        Err(_) => Err(NoMemory),
    }
}

/// Pads whose first disk has the gate.
fn held_pads(alloc: Global, gate: &Arc<Gate, Global>) -> Result<HeldPads, NoMemory> {
    let shelf = HeldShelf::new(alloc, Arc::try_clone(gate)?);
    Pads::open(alloc, shelf, LIMITS)
}

/// Whether a pad adds this to that total.
fn adds<R: Wait>(rt: &R, pass: &mut HeldPass, n: u64, total: u64) -> bool {
    pass.call(rt, ToyEntry::Add(n)) == Ok(total)
}

/// Waits until the first disk is in its sync, adds to the second pad, and lets the first go on.
fn adds_meanwhile<R: Wait>(rt: &R, pass: &mut HeldPass, gate: &Gate) -> bool {
    let has_begun = waits(&gate.begun);
    let adds = adds(rt, pass, 7, 8);
    gate.opened.store(true, Ordering::SeqCst);
    has_begun && adds
}

/// Pad A's disk holds a sync until pad B has answered.
#[test]
fn two_pads_at_once(rt: HostRuntime) -> Result<(), Fail> {
    let alloc = rt.alloc();
    let gate = Arc::new(alloc, Gate::new())?;
    let pads = held_pads(alloc, &gate)?;
    let mut a = pass_of(&rt, alloc, &pads, "a")?;
    let mut b = pass_of(&rt, alloc, &pads, "b")?;
    assert!(&rt; adds(&rt, &mut a, 1, 1) && adds(&rt, &mut b, 1, 1));
    gate.armed.store(true, Ordering::SeqCst);
    let (first, second) = join(
        &rt,
        || adds(&rt, &mut a, 5, 6),
        || adds_meanwhile(&rt, &mut b, &gate),
    );
    assert!(&rt; first && second);
    assert!(&rt;
        !gate.late.load(Ordering::SeqCst),
        "pad A's sync waited too long"
    );
    Ok(())
}

/// Whether who asks for a pad adds to it.
fn enters<R: Wait>(rt: &R, alloc: Global, pads: &HeldPads, name: &str) -> bool {
    match pass_of(rt, alloc, pads, name) {
        Ok(mut pass) => adds(rt, &mut pass, 1, 1),
        Err(_) => false,
    }
}

/// Waits until the first disk is in its opening, enters the second pad, and lets the first go on.
fn enters_meanwhile<R: Wait>(rt: &R, alloc: Global, pads: &HeldPads, gate: &Gate) -> bool {
    let has_begun = waits(&gate.begun);
    let enters = enters(rt, alloc, pads, "b");
    gate.opened.store(true, Ordering::SeqCst);
    has_begun && enters
}

/// Pad A's disk holds its opening until pad B, which nobody asked for before, has answered.
#[test]
fn an_opening_holds_nobody_else(rt: HostRuntime) -> Result<(), Fail> {
    let alloc = rt.alloc();
    let gate = Arc::new(alloc, Gate::new())?;
    gate.armed.store(true, Ordering::SeqCst);
    let pads = held_pads(alloc, &gate)?;
    let mut a = pass_of(&rt, alloc, &pads, "a")?;
    let (first, second) = join(
        &rt,
        || adds(&rt, &mut a, 1, 1),
        || enters_meanwhile(&rt, alloc, &pads, &gate),
    );
    assert!(&rt; first && second);
    assert!(&rt;
        !gate.late.load(Ordering::SeqCst),
        "pad A's opening waited too long"
    );
    Ok(())
}

fn is_born<R: Wait>(rt: &R, alloc: Global, pass: &mut FilePass) -> Result<bool, NoMemory> {
    let text = Units::from_str(alloc, "ab")?;
    let reply = pass.call(rt, PadEntry::Create { text, now: 1 });
    Ok(matches!(reply, PadReply::Birth(Ok(1))))
}

fn is_deleted<R: Wait>(rt: &R, pass: &mut FilePass) -> bool {
    let reply = pass.call(rt, PadEntry::Delete { now: 2 });
    matches!(reply, PadReply::Done(Ok(())))
}

fn is_gone<R: Wait>(rt: &R, pass: &mut FilePass) -> bool {
    let reply = pass.call(rt, PadEntry::Status);
    matches!(reply, PadReply::Status(Err(PadBad::Gone)))
}

/// One pass makes the pad, another deletes it, and the first reads that it is gone.
fn lives<R: Wait>(rt: &R, alloc: Global, pads: &FilePads) -> Result<bool, NoMemory> {
    let mut one = pass_of(rt, alloc, pads, "p")?;
    let mut two = pass_of(rt, alloc, pads, "p")?;
    Ok(is_born(rt, alloc, &mut one)? && is_deleted(rt, &mut two) && is_gone(rt, &mut one))
}

/// A pad on its file is made through one pass, and read through the next.
#[test]
fn a_pad_on_its_file(rt: HostRuntime) -> Result<(), Fail> {
    let alloc = rt.alloc();
    let shelf = MemShelf::new(alloc, Vec::new(alloc), Vec::new(alloc))?;
    let pads: FilePads = Pads::open(alloc, shelf, LIMITS)?;
    assert!(&rt; lives(&rt, alloc, &pads)?);
    Ok(())
}

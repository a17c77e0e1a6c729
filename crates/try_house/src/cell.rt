//! A pad in a cell of `ep_cell`.

ghost use Rattle.ep_cell.specs.Passes.{IsOf};

use crate::given::{grant, has_text, machine};
use ep_cell::{Cell, Pass};
use ep_disk_mem::MemDisk;
use ep_pad::{PadEntry, PadMachine, PadReply};
use ep_units::{NoMemory, Units};
use std::alloc::Global;
use std::sync::Wait;
use std::test::Fail;

type Pad = PadMachine<MemDisk>;

/// Somebody logs in.
fn log_in<R: Wait>(
    rt: &R,
    alloc: Global,
    cell: &Cell<Pad>,
    pass: &mut Pass<Pad>,
) -> Result<(), NoMemory>
    requires { IsOf cell.now pass.old }
    ensures { IsOf cell.now pass.new }
{
    let grant = grant(alloc)?;
    cell.call(rt, pass, PadEntry::Login { grant, now: 1 });
    Ok(())
}

fn set_text<R: Wait>(
    rt: &R,
    alloc: Global,
    cell: &Cell<Pad>,
    pass: &mut Pass<Pad>,
    text: &str,
) -> Result<(), NoMemory>
    requires { IsOf cell.now pass.old }
    ensures { IsOf cell.now pass.new }
{
    let text = Units::from_str(alloc, text)?;
    cell.call(rt, pass, PadEntry::SetText { text, now: 2 });
    Ok(())
}

/// Whether the pad has this text.
fn reads<R: Wait>(
    rt: &R,
    alloc: Global,
    cell: &Cell<Pad>,
    pass: &mut Pass<Pad>,
    text: &str,
) -> Result<bool, NoMemory>
    requires { IsOf cell.now pass.old }
    ensures { IsOf cell.now pass.new }
{
    match cell.call(rt, pass, PadEntry::Text { rev: None }) {
        PadReply::Text(Ok(doc)) => has_text(alloc, &doc, text),
        _ => Ok(false),
    }
}

/// One pass logs in and another sets a text; how long the history is then, and whether the first reads that text.
fn shares<R: Wait>(
    rt: &R,
    alloc: Global,
    cell: &Cell<Pad>,
    one: &mut Pass<Pad>,
    two: &mut Pass<Pad>,
) -> Result<(u64, bool), NoMemory>
    requires { IsOf cell.now one.old × IsOf cell.now two.old }
    ensures { IsOf cell.now one.new × IsOf cell.now two.new }
{
    log_in(rt, alloc, cell, one)?;
    set_text(rt, alloc, cell, two, "word")?;
    let told = cell.look(one);
    Ok((told, reads(rt, alloc, cell, one, "word\n")?))
}

/// Whether a pad outside its cell has this text.
fn is_left(alloc: Global, mut pad: Pad, text: &str) -> Result<bool, Fail> {
    let doc = pad.text(None)?;
    Ok(has_text(alloc, &doc, text)?)
}

/// One pass reads what another wrote, and the machine that the cell gives back has it.
#[test]
fn a_pad_in_a_cell(rt: HostRuntime) -> Result<(), Fail> {
    let alloc = rt.alloc();
    let Ok(cell) = Cell::new(alloc, machine(alloc)?) else {
        panic!(&rt; "no memory")
    };
    let mut one = cell.new_pass(&rt);
    let mut two = cell.new_pass(&rt);
    assert_eq!(&rt; shares(&rt, alloc, &cell, &mut one, &mut two)?, (2, true));
    cell.meet(&mut one, &mut two);
    let pad = cell.close(&rt, vec![in alloc; one, two]?);
    assert!(&rt; is_left(alloc, pad, "word\n")?);
    Ok(())
}

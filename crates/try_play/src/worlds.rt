//! Scripts on a world whose journal has room for so many bytes.

use ep_csread::read;
use ep_disk_mem::MemDisk;
use ep_event::{Event, Shown};
use ep_outside::Limits;
use ep_pool::Pool;
use ep_print::print_shown;
use ep_script::{Line, LineBad, read_line};
use ep_units::{NoMemory, PadId, Units};
use ep_world::{World, WorldBad};
use std::alloc::{AllocError, Global};

/// Why a script isn't played.
#[derive(Clone, Copy, Debug, PartialEq, Eq)]
struct Stopped;

impl From<AllocError> for Stopped {
    fn from(_error: AllocError) -> Stopped {
        Stopped
    }
}

impl From<NoMemory> for Stopped {
    fn from(_error: NoMemory) -> Stopped {
        Stopped
    }
}

impl From<WorldBad> for Stopped {
    fn from(_error: WorldBad) -> Stopped {
        Stopped
    }
}

impl From<LineBad> for Stopped {
    fn from(_error: LineBad) -> Stopped {
        Stopped
    }
}

/// A world whose journal has room for so many bytes.
fn room_for(alloc: Global, journal: u64) -> Result<World<MemDisk>, Stopped> {
    let disk = MemDisk::new(alloc, Vec::new(alloc), Vec::new(alloc))?;
    let limits = Limits {
        live: 9,
        logins: 99,
        units: 999,
        journal,
        openings: 0,
        pads: 9,
    };
    let Some(id) = PadId::read(alloc, &Units::from_str(alloc, "pad")?)? else {
        return Err(Stopped);
    };
    Ok(World::new(alloc, disk, limits, id)?)
}

/// What a line shows.
fn shown(alloc: Global, world: &mut World<MemDisk>, line: &str) -> Result<Shown, Stopped> {
    match read_line(alloc, line.as_bytes())? {
        Line::Event(event) => Ok(world.step(0, event)?),
        Line::Inject { name, base, text } => {
            if !text.well_formed() {
                return Err(Stopped);
            }
            let change = read(alloc, &text, &Pool::new(alloc));
            Ok(world.step(0, Event::Inject { name, base, change })?)
        }
        Line::Head => Ok(world.head()?),
        Line::Text { rev } => Ok(world.text(rev)?),
        Line::Marks => Ok(world.marks()?),
        Line::Show { name } => Ok(world.show(name)?),
        _ => Err(Stopped),
    }
}

/// Whether the lines of a script show these, one for each.
fn plays(alloc: Global, journal: u64, rows: &[(&str, &str)]) -> Result<bool, Stopped> {
    let mut world = room_for(alloc, journal)?;
    for (line, wanted) in rows {
        let text = print_shown(alloc, &shown(alloc, &mut world, line)?)?;
        if text.trim_end() != *wanted {
            return Ok(false);
        }
    }
    Ok(true)
}

#[test]
fn a_crash_without_room(rt: HostRuntime) {
    // The first opening and the pad take 51 bytes, an opening 14.
    let rows = [
        ("create ab", "create rev 0 Z:1>2+2$ab"),
        ("login A", "login A 1.1 rev 0"),
        ("guest G", "guest G 1.2 rev 0"),
        ("insert A 0 x", "insert A ok"),
        ("submit A", "submit A base 0 Z:3>1+1$x"),
        ("crash", "crash refused full 65"),
        ("head", "head refused full 65"),
        ("text 0", "text refused full 65"),
        ("marks", "marks refused full 65"),
        ("show A", "show A rev 0 sent \"xab\\n\""),
        ("insert A 0 y", "insert A ok"),
        ("submit A", "submit A none"),
        ("take A", "take A none"),
        ("late A", "late A none"),
        ("push A", "push A none"),
        ("hear A", "hear A none"),
        ("lose A", "lose A none"),
        ("resume A", "resume A refused full 65"),
        ("login B", "login B refused full 65"),
        ("reader R", "reader R refused full 65"),
        ("inject G 0 Z:3>1+1$x", "inject G ok"),
        ("inject G 0 Z", "inject G ok"),
        ("inject G 0 Z:3>1+1$x", "inject G ok"),
        ("take G", "take G refused full 65"),
        ("take G", "take G refused read syntax 1"),
        ("crash G 4 new", "crash G refused full 65"),
        ("take G", "take G none"),
        ("create c", "create refused full 65"),
        ("set c", "set refused full 65"),
        ("drop", "drop refused full 65"),
        ("crash", "crash refused full 65"),
        ("show A", "show A rev 0 both \"yxab\\n\""),
    ];
    assert_eq!(rt; plays(rt.alloc(), 64, &rows), Ok(true));
}

#[test]
fn a_crash_with_room_and_one_without(rt: HostRuntime) {
    let rows = [
        ("create ab", "create rev 0 Z:1>2+2$ab"),
        ("crash", "crash epoch 2 head 0"),
        ("login A", "login A 2.1 rev 0"),
        ("crash A 4 new", "crash A refused full 79"),
        ("crash", "crash refused full 79"),
        ("head", "head refused full 79"),
    ];
    assert_eq!(rt; plays(rt.alloc(), 65, &rows), Ok(true));
}

#[test]
fn a_crash_within_a_take(rt: HostRuntime) {
    // The edit takes 55 bytes.
    let kept = [
        ("create ab", "create rev 0 Z:1>2+2$ab"),
        ("login A", "login A 1.1 rev 0"),
        ("insert A 0 x", "insert A ok"),
        ("submit A", "submit A base 0 Z:3>1+1$x"),
        ("crash A 4 new", "crash A refused full 120"),
        ("take A", "take A none"),
        ("crash", "crash refused full 120"),
    ];
    let lost = [
        ("create ab", "create rev 0 Z:1>2+2$ab"),
        ("login A", "login A 1.1 rev 0"),
        ("insert A 0 x", "insert A ok"),
        ("submit A", "submit A base 0 Z:3>1+1$x"),
        ("crash A 4 new", "crash A refused full 65"),
        ("crash", "crash refused full 65"),
    ];
    assert_eq!(rt; plays(rt.alloc(), 110, &kept), Ok(true));
    assert_eq!(rt; plays(rt.alloc(), 64, &lost), Ok(true));
}

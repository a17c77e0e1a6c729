//! Changes that are built.

use ep_attr::AttrMap;
use ep_cs::{Builder, Change, Kind, Op};
use ep_units::NoMemory;
use std::alloc::Global;
use std::test::Fail;

/// A change of three units that replaces the middle one: it inserts before it drops.
fn replaced(alloc: Global) -> Result<Change, NoMemory> {
    let bare = AttrMap::none(alloc);
    let mut builder = Builder::new(alloc, 3);
    builder.keep(1, 0, &bare)?;
    builder.insert(&[120], &bare)?;
    builder.drop_units(1, 0)?;
    builder.keep(1, 1, &bare)?;
    builder.finish()
}

fn copied(alloc: Global) -> Result<Change, NoMemory> {
    let change = replaced(alloc)?;
    change.copy(alloc)
}

/// Whether an operation is of that kind, and of one unit that is no newline.
fn is_one(op: &Op, kind: Kind) -> bool {
    op.kind == kind && op.units == 1 && op.lines == 0
}

#[test]
fn drops_before_inserts(rt: HostRuntime) -> Result<(), Fail> {
    let change = copied(rt.alloc())?;
    assert_eq!(rt; change.old_len(), 3);
    assert_eq!(rt; change.new_len(), 3);
    assert_eq!(rt; change.is_identity(), false);
    assert_eq!(rt; change.bank().as_slice(), [120].as_slice());
    let kinds = [Kind::Keep, Kind::Drop, Kind::Insert];
    assert_eq!(rt; change.ops().len(), kinds.len());
    for (op, kind) in change.ops().iter().zip(kinds) {
        assert!(rt; is_one(op, kind), "{kind:?}");
    }
    Ok(())
}

#[test]
fn identity(rt: HostRuntime) {
    let identity = Change::identity(rt.alloc(), 3);
    assert_eq!(rt; identity.is_identity(), true);
    assert_eq!(rt; identity.old_len(), 3);
}

//! Changes that are walked in parts.

use ep_attr::AttrMap;
use ep_cs::{Builder, Change, Kind};
use ep_cursor::Cursor;
use ep_units::NoMemory;
use std::alloc::Global;
use std::test::Fail;

/// Of six units two are kept, two dropped, and two give way to three.
fn change(alloc: Global) -> Result<Change, NoMemory> {
    let bare = AttrMap::none(alloc);
    let mut builder = Builder::new(alloc, 6);
    builder.keep(2, 1, &bare)?;
    builder.drop_units(2, 0)?;
    builder.insert(&[120, 121, 122], &bare)?;
    builder.finish()
}

#[test]
fn in_parts(rt: HostRuntime) -> Result<(), Fail> {
    let change = change(rt.alloc())?;
    let mut cursor = Cursor::new(&change);
    for (kind, units, text) in [
        (Kind::Keep, 2, 0),
        (Kind::Keep, 1, 0),
        (Kind::Drop, 2, 0),
        (Kind::Drop, 1, 0),
        (Kind::Insert, 3, 3),
        (Kind::Insert, 2, 2),
        (Kind::Insert, 1, 1),
    ] {
        assert!(rt; cursor.head().is_some(), "{kind:?} of {units}");
        if let Some(head) = cursor.head() {
            assert!(rt; head.units > 0, "{kind:?} of {units}");
            assert_eq!(rt; head.kind, kind, "of {units}");
            assert_eq!(rt; head.units, units, "{kind:?}");
            assert_eq!(rt; head.text.len(), text, "{kind:?} of {units}");
            cursor.advance(1, head.lines);
        }
    }
    assert!(rt; cursor.head().is_none());
    Ok(())
}

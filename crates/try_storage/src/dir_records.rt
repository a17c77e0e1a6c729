//! New ids, and what stands under the keys of a directory.

use crate::keepers::put_all;
use ep_dir_records::{DirBad, Drawn, IdKind, Records, SessionInfo, session_text};
use ep_keep::MapKeeper;
use ep_outside::KeepBad;
use ep_units::{NoMemory, Units};
use std::alloc::Global;
use std::test::Fail;

const DRAWN: Drawn = Drawn {
    digits: [10, 11, 12, 13, 14, 15, 16, 17, 18, 35],
};

/// The records of a map in which this stands under a key.
fn records(alloc: Global, key: &str, value: &str) -> Result<Records<MapKeeper>, KeepBad> {
    let mut keeper = MapKeeper::new(alloc, Vec::new(alloc));
    put_all(alloc, &mut keeper, &[(key, Some(value))])?;
    Ok(Records::new(alloc, keeper))
}

fn is_text(alloc: Global, units: &Units, wanted: &str) -> Result<bool, NoMemory> {
    let text = units.to_text_lossy(alloc)?;
    Ok(text.as_str() == wanted)
}

/// Whether this is the new id behind a count of ids.
fn is_new_id(alloc: Global, kind: IdKind, count: &str, wanted: &str) -> Result<bool, KeepBad> {
    let mut records = records(alloc, "n", count)?;
    match records.new_id(kind, &DRAWN) {
        Ok((id, _)) => Ok(is_text(alloc, &id, wanted)?),
        Err(_) => Ok(false),
    }
}

#[test]
fn ids(rt: HostRuntime) -> Result<(), Fail> {
    for (kind, count, text) in [
        (IdKind::Group, "0", "g.abcdefghiz000000"),
        (IdKind::Author, "37", "a.abcdefghiz000011"),
        (IdKind::Session, "2176782335", "s.abcdefghizzzzzzz"),
        (IdKind::ReadOnly, "1679616", "r.abcdefghiz010000"),
    ] {
        assert!(rt; is_new_id(rt.alloc(), kind, count, text)?, "at {text}");
    }
    Ok(())
}

/// What comes of a new id.
#[derive(Clone, Copy, Debug, PartialEq, Eq)]
enum Given {
    /// So many are given with it.
    Many(u64),
    Spent,
    /// The count is none.
    Kept,
    Failed,
}

fn new_given(alloc: Global, count: &str) -> Result<Given, KeepBad> {
    let mut records = records(alloc, "n", count)?;
    match records.new_id(IdKind::Group, &DRAWN) {
        Ok((_, many)) => Ok(Given::Many(many)),
        Err(DirBad::IdsSpent) => Ok(Given::Spent),
        Err(DirBad::Kept(_)) => Ok(Given::Kept),
        Err(_) => Ok(Given::Failed),
    }
}

#[test]
fn counts(rt: HostRuntime) -> Result<(), Fail> {
    for (count, wanted) in [
        ("0", Given::Many(1)),
        ("10", Given::Many(11)),
        ("2176782336", Given::Spent),
        ("2176782337", Given::Kept),
        ("", Given::Kept),
        ("01", Given::Kept),
        ("+1", Given::Kept),
        ("1 ", Given::Kept),
    ] {
        assert_eq!(rt; new_given(rt.alloc(), count)?, wanted, "at {count}");
    }
    Ok(())
}

/// What is read of a session.
#[derive(Clone, Copy, Debug, PartialEq, Eq)]
enum Found {
    /// A session with just this text.
    Same,
    Other,
    /// The text is no session's.
    Kept,
    Failed,
}

/// What a session is that was read where that text stands.
fn seen(alloc: Global, info: &SessionInfo, text: &str) -> Result<Found, NoMemory> {
    let again = session_text(alloc, &info.group, &info.author, info.valid_until)?;
    Ok(if again.as_str() == text {
        Found::Same
    } else {
        Found::Other
    })
}

fn read_at(alloc: Global, text: &str) -> Result<Found, KeepBad> {
    let mut records = records(alloc, "s/x", text)?;
    let id = Units::from_str(alloc, "x")?;
    match records.read_session(&id) {
        Ok(Some(info)) => Ok(seen(alloc, &info, text)?),
        Ok(None) => Ok(Found::Other),
        Err(DirBad::Kept(_)) => Ok(Found::Kept),
        Err(_) => Ok(Found::Failed),
    }
}

#[test]
fn sessions(rt: HostRuntime) -> Result<(), Fail> {
    for (text, wanted) in [
        (
            "g.0123456789abcdef a.0123456789ABCDEF 18446744073709551615",
            Found::Same,
        ),
        (
            "g.0123456789abcdef a.0123456789ABCDEF 18446744073709551616",
            Found::Kept,
        ),
        ("g.0123456789abcdef a.0123456789ABCDEF 07", Found::Kept),
        ("g.0123456789abcdef  a.0123456789ABCDEF 7", Found::Kept),
        ("g.0123456789abcdef a.0123456789ABCDEF 7 ", Found::Kept),
        ("a.0123456789abcdef a.0123456789ABCDEF 7", Found::Kept),
        ("g.0123456789abcde a.0123456789ABCDEF 7", Found::Kept),
        ("g.0123456789abcde- a.0123456789ABCDEF 7", Found::Kept),
        ("bad", Found::Kept),
    ] {
        assert_eq!(rt; read_at(rt.alloc(), text)?, wanted, "at {text}");
    }
    Ok(())
}

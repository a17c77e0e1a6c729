//! Attribute maps.

use ep_attr::{Attr, AttrMap, follow_change};
use ep_units::{NoMemory, Units};
use std::alloc::Global;
use std::test::Fail;

fn attr(alloc: Global, key: &str, value: &str) -> Result<Attr, NoMemory> {
    let key = Units::from_str(alloc, key)?;
    let value = Units::from_str(alloc, value)?;
    Ok(Attr { key, value })
}

/// The pairs that are written as `key=value,key=value`.
fn pairs(alloc: Global, text: &str) -> Result<Vec<Attr>, NoMemory> {
    let mut pairs = Vec::new(alloc);
    for pair in text.split(',') {
        if let Some((key, value)) = pair.split_once('=') {
            pairs.push(attr(alloc, key, value)?)?;
        }
    }
    Ok(pairs)
}

/// The map of pairs that are written so.
fn map(alloc: Global, text: &str) -> Result<AttrMap, NoMemory> {
    let pairs = pairs(alloc, text)?;
    AttrMap::read(alloc, &pairs)
}

/// Whether a map has the pairs that are written so.
fn is(alloc: Global, found: &AttrMap, text: &str) -> Result<bool, NoMemory> {
    let wanted = map(alloc, text)?;
    Ok(*found == wanted)
}

fn is_copied(alloc: Global, a: &AttrMap) -> Result<bool, NoMemory> {
    let copy = a.copy(alloc)?;
    Ok(copy == *a)
}

#[derive(Clone, Copy)]
enum Operation {
    /// A document's map after a change's.
    After,
    /// Both maps, the later value counting.
    Joined,
    /// The second map after the first.
    Followed,
}

impl Operation {
    fn of(self, alloc: Global, a: &AttrMap, b: &AttrMap) -> Result<AttrMap, NoMemory> {
        match self {
            Operation::After => a.apply_doc(alloc, b),
            Operation::Joined => a.compose_change(alloc, b),
            Operation::Followed => follow_change(alloc, a, b),
        }
    }

    /// Whether it makes that map of two.
    fn makes(self, alloc: Global, a: &AttrMap, b: &AttrMap, text: &str) -> Result<bool, NoMemory> {
        let made = self.of(alloc, a, b)?;
        is(alloc, &made, text)
    }

    /// Whether it makes that map of two that are written so.
    fn gives(self, alloc: Global, a: &str, b: &str, text: &str) -> Result<bool, NoMemory> {
        let a = map(alloc, a)?;
        let b = map(alloc, b)?;
        Ok(is_copied(alloc, &a)? && self.makes(alloc, &a, &b, text)?)
    }
}

/// Whether the operations make these maps of two, in the order in which they stand above.
fn give(alloc: Global, a: &str, b: &str, made: [&str; 3]) -> Result<(bool, bool, bool), NoMemory> {
    Ok((
        Operation::After.gives(alloc, a, b, made[0])?,
        Operation::Joined.gives(alloc, a, b, made[1])?,
        Operation::Followed.gives(alloc, a, b, made[2])?,
    ))
}

#[test]
fn operations(rt: HostRuntime) -> Result<(), Fail> {
    for (a, b, after, joined, followed) in [
        (
            "color=red",
            "color=blue",
            "color=blue",
            "color=blue",
            "color=blue",
        ),
        ("color=blue", "color=red", "color=red", "color=red", ""),
        ("bold=true", "bold=", "", "bold=", "bold="),
        ("bold=", "bold=true", "bold=true", "bold=true", ""),
        ("b=1,a=1", "c=1,b=", "a=1,c=1", "a=1,b=,c=1", "b=,c=1"),
        ("a=1", "", "a=1", "a=1", ""),
        ("", "a=,b=2", "b=2", "a=,b=2", "a=,b=2"),
        ("a=1,a=2", "a=1", "a=1", "a=1", "a=1"),
    ] {
        let (is_after, is_joined, is_followed) = give(rt.alloc(), a, b, [after, joined, followed])?;
        assert!(rt; is_after, "{b} after {a}");
        assert!(rt; is_joined, "{a} and {b}");
        assert!(rt; is_followed, "{b} following {a}");
    }
    Ok(())
}

/// Whether a map has that value at a key.
fn has(alloc: Global, map: &AttrMap, key: &str, value: &[u16]) -> Result<bool, NoMemory> {
    let key = Units::from_str(alloc, key)?;
    Ok(
        map.get(key.as_slice())
            .is_some_and(|found| found.as_slice() == value),
    )
}

#[test]
fn looked_up(rt: HostRuntime) -> Result<(), Fail> {
    let alloc = rt.alloc();
    assert!(rt; AttrMap::none(alloc).pairs().is_empty());
    let map = map(alloc, "b=1,a=2,b=3")?;
    assert!(rt; has(alloc, &map, "b", &[51])?);
    assert_eq!(rt; map.pairs().len(), 2);
    assert!(rt; !map.has_first());
    Ok(())
}

fn has_first(alloc: Global, text: &str) -> Result<bool, NoMemory> {
    Ok(map(alloc, text)?.has_first())
}

#[test]
fn first(rt: HostRuntime) -> Result<(), Fail> {
    for (text, first) in [
        ("bold=true,insertorder=first", true),
        ("insertorder=last", false),
    ] {
        assert_eq!(rt; has_first(rt.alloc(), text)?, first, "at {text}");
    }
    Ok(())
}

//! Changes that are read from changeset text, and printed.

use ep_attr::Attr;
use ep_cs::Change;
use ep_csread::{
    ReadBad, Wire, Wires, for_wire, for_wire_all, has_pairs, print, print_attribs, read,
    read_attribs,
};
use ep_pool::Pool;
use ep_units::{NoMemory, Units};
use std::alloc::Global;
use std::test::Fail;

fn attr(alloc: Global, key: &str, value: &str) -> Result<Attr, NoMemory> {
    let key = Units::from_str(alloc, key)?;
    let value = Units::from_str(alloc, value)?;
    Ok(Attr { key, value })
}

fn put(alloc: Global, pool: &mut Pool, key: &str, value: &str) -> Result<(), NoMemory> {
    let attr = attr(alloc, key, value)?;
    pool.reserve(1)?;
    if pool.can_number_more() {
        pool.put(attr);
    }
    Ok(())
}

/// The pool of these pairs, in their order.
fn pool_of(alloc: Global, pairs: &[(&str, &str)]) -> Result<Pool, NoMemory> {
    let mut pool = Pool::new(alloc);
    for (key, value) in pairs {
        put(alloc, &mut pool, *key, *value)?;
    }
    Ok(pool)
}

/// The change that a text spells with a pool.
fn change(alloc: Global, text: &str, pool: &Pool) -> Result<Change, ReadBad> {
    let text = Units::from_str(alloc, text)?;
    read(alloc, &text, pool)
}

/// Whether these are the units of a text.
fn spell(alloc: Global, units: &Units, text: &str) -> Result<bool, NoMemory> {
    Ok(Units::from_str(alloc, text)?.as_slice() == units.as_slice())
}

/// Whether a change is printed so with a pool.
fn prints(alloc: Global, change: &Change, pool: &Pool, normal: &str) -> Result<bool, NoMemory> {
    if !has_pairs(change, pool) {
        return Ok(false);
    }
    let text = print(alloc, change, pool)?;
    spell(alloc, &text, normal)
}

/// Whether the change that a text spells with a pool is printed so.
fn is_normal(alloc: Global, text: &str, pool: &Pool, normal: &str) -> Result<bool, ReadBad> {
    let change = change(alloc, text, pool)?;
    Ok(prints(alloc, &change, pool, normal)?)
}

#[test]
fn printed(rt: HostRuntime) -> Result<(), Fail> {
    let alloc = rt.alloc();
    let pool = pool_of(
        alloc,
        &[
            ("u", "true"),
            ("z", "true"),
            ("b", "true"),
            ("y", "true"),
            ("e", "true"),
            ("f", "true"),
        ],
    )?;
    for (text, normal) in [
        ("Z:5g>1|5=2p=v*4*5+1$x", "Z:5g>1|5=2p=v*4*5+1$x"),
        ("Z:6>0=1+1-1$a", "Z:6>0=1-1+1$a"),
        ("Z:6<2=1|1-2-1+1$x", "Z:6<2=1|1-2-1+1$x"),
        ("Z:03>02*2+01=1*5*0+1$xy", "Z:3>2*2+1=1*0*5+1$xy"),
        ("Z:5>0*0|1=3*0|1=1$", "Z:5>0*0|2=4$"),
        ("Z:3<0=3$", "Z:3>0$"),
    ] {
        assert!(rt;
            is_normal(alloc, text, &pool, normal)?,
            "{text} as {normal}"
        );
    }
    Ok(())
}

/// Why a text is refused with the pool without attributes.
fn refusal(alloc: Global, text: &str) -> Option<ReadBad> {
    let pool = Pool::new(alloc);
    change(alloc, text, &pool).err()
}

#[test]
fn refused(rt: HostRuntime) {
    for (text, bad) in [
        ("", ReadBad::Syntax(0)),
        ("Z:6>1=5+1", ReadBad::Syntax(9)),
        ("Z:6>1=5+!$x", ReadBad::Syntax(8)),
        ("Z:6>1*$x", ReadBad::Syntax(6)),
        ("Z:1z141z4>0$", ReadBad::Number(2)),
        ("Z:6>1|zzzzzzzzzzzzzzzzzzzzz=0*9+1$!", ReadBad::Number(6)),
        ("Z:6>1=5*0+1$!", ReadBad::NoAttr(0)),
        ("Z:6>1=5+1$", ReadBad::Bank(1, 0)),
        ("Z:6>1=5|1+1$!", ReadBad::Lines(1)),
        ("Z:6>0|2=1$", ReadBad::Lines(0)),
        ("Z:6>2|1+2$\na", ReadBad::Lines(0)),
        ("Z:6>2=5+1$!", ReadBad::Length),
        ("Z:6>0=7$", ReadBad::Length),
        ("Z:1z141z3>1+1$!", ReadBad::Length),
        ("Z:1>2+1=1+1$😀", ReadBad::Pair(0)),
    ] {
        assert_eq!(rt; refusal(rt.alloc(), text), Some(bad), "at {text}");
    }
}

#[test]
fn not_refused(rt: HostRuntime) {
    for text in [
        "Z:6>1|1=5+1$!",
        "Z:1z141z3<0$",
        "Z:1z141z3>0+1-1$!",
        "Z:1>0+0+0+0+0+0+0+0$",
    ] {
        assert_eq!(rt; refusal(rt.alloc(), text), None, "at {text}");
    }
}

/// The number of an attribute in a pool.
fn number(alloc: Global, pool: &Pool, key: &str, value: &str) -> Result<Option<u32>, NoMemory> {
    let attr = attr(alloc, key, value)?;
    Ok(pool.find(&attr))
}

/// A text's change in wire form.
fn wire_of(alloc: Global, text: &str, pool: &Pool) -> Result<Wire, ReadBad> {
    let change = change(alloc, text, pool)?;
    Ok(for_wire(alloc, &change)?)
}

#[test]
fn own_pool(rt: HostRuntime) -> Result<(), Fail> {
    let alloc = rt.alloc();
    let pool = pool_of(alloc, &[("a", "b"), ("bold", "true")])?;
    let wire = wire_of(alloc, "Z:3>2*1+1=1*0*1+1$xy", &pool)?;
    assert!(rt; spell(alloc, &wire.text, "Z:3>2*0+1=1*0*1+1$xy")?);
    assert_eq!(rt; wire.pool.len(), 2);
    assert_eq!(rt; number(alloc, &wire.pool, "bold", "true")?, Some(0));
    Ok(())
}

/// The change that inserts a text with these attributes.
fn insertion(alloc: Global, text: &str, attribs: &str, pool: &Pool) -> Result<Change, ReadBad> {
    let text = Units::from_str(alloc, text)?;
    let attribs = Units::from_str(alloc, attribs)?;
    read_attribs(alloc, &text, &attribs, pool)
}

/// Whether the operations of an insertion are printed so, with a pool of so many attributes.
fn prints_attribs(
    alloc: Global,
    change: &Change,
    text: &str,
    pairs: u32,
) -> Result<bool, NoMemory> {
    if change.old_len() != 0 {
        return Ok(false);
    }
    let wire = print_attribs(alloc, change)?;
    Ok(wire.pool.len() == pairs && spell(alloc, &wire.text, text)?)
}

#[test]
fn attributes_alone(rt: HostRuntime) -> Result<(), Fail> {
    let alloc = rt.alloc();
    let attribs = "*0+1+1";
    let pool = pool_of(alloc, &[("bold", "true")])?;
    let change = insertion(alloc, "ab", attribs, &pool)?;
    assert!(rt; prints_attribs(alloc, &change, attribs, 1)?);
    Ok(())
}

/// The changes of three texts.
fn changes(alloc: Global, pool: &Pool) -> Result<Vec<Change>, Fail> {
    let mut changes = Vec::new(alloc);
    for text in ["Z:1>1*2+1$x", "Z:2>1+1$y", "Z:3>2*0+1*2+1$zz"] {
        changes.push(change(alloc, text, pool)?)?;
    }
    Ok(changes)
}

/// The changes of three texts in wire form.
fn wires(alloc: Global) -> Result<Wires, Fail> {
    let pool = pool_of(alloc, &[("author", "c"), ("author", "b"), ("author", "a")])?;
    let changes = changes(alloc, &pool)?;
    Ok(for_wire_all(alloc, &changes)?)
}

/// Whether that text stands at a place.
fn has_text(alloc: Global, wires: &Wires, i: usize, text: &str) -> Result<bool, NoMemory> {
    match wires.texts.get(i) {
        None => Ok(false),
        Some(told) => spell(alloc, told, text),
    }
}

#[test]
fn one_pool(rt: HostRuntime) -> Result<(), Fail> {
    let alloc = rt.alloc();
    let wires = wires(alloc)?;
    assert_eq!(rt; wires.pool.len(), 2);
    for (i, text) in ["Z:1>1*0+1$x", "Z:2>1+1$y", "Z:3>2*1+1*0+1$zz"]
        .into_iter()
        .enumerate()
    {
        assert!(rt; has_text(alloc, &wires, i, text)?, "{i}: {text}");
    }
    Ok(())
}

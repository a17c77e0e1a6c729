//! Texts of UTF-16 units, their numbers in base 36, and ids of pads.

use ep_units::{NoMemory, PadId, TextBad, Units, read36, write36};
use std::alloc::Global;
use std::cmp::Ordering;
use std::test::Fail;

/// `a`, a pair of two units, and a newline.
const TEXT: &str = "a😀\n";

const UNITS: [u16; 4] = [97, 0xD83D, 0xDE00, 10];

/// Whether these are the units of a text.
fn spell(alloc: Global, units: &[u16], text: &str) -> Result<bool, NoMemory> {
    Ok(Units::from_str(alloc, text)?.as_slice() == units)
}

/// Whether units are this text in UTF-8, with U+FFFD for each half that stands alone.
fn are_text(alloc: Global, units: &Units, text: &str) -> Result<bool, NoMemory> {
    Ok(units.to_text_lossy(alloc)?.as_str() == text)
}

fn pushed(alloc: Global) -> Result<Units, NoMemory> {
    let mut made = Units::new(alloc);
    made.push(97)?;
    made.push_all(&[0xD83D, 0xDE00, 10])?;
    Ok(made)
}

fn is_copied(alloc: Global, text: &str, units: &[u16]) -> Result<bool, NoMemory> {
    let made = Units::from_str(alloc, text)?;
    Ok(made.copy(alloc)?.as_slice() == units)
}

fn is_taken(alloc: Global, units: &[u16]) -> Result<bool, NoMemory> {
    Ok(Units::from_slice(alloc, units)?.as_slice() == units)
}

#[test]
fn units_of_a_text(rt: HostRuntime) -> Result<(), Fail> {
    let alloc = rt.alloc();
    assert!(rt; spell(alloc, &UNITS, TEXT)?);
    assert!(rt; Units::new(alloc).is_empty());
    assert!(rt; is_copied(alloc, TEXT, &UNITS)?);
    assert!(rt; is_taken(alloc, &[97])?);
    let made = pushed(alloc)?;
    assert_eq!(rt; made.len(), 4);
    assert_eq!(rt; made.as_slice(), UNITS.as_slice());
    Ok(())
}

/// Whether the number is spelled so behind other units.
fn is_spelled(alloc: Global, n: u64, text: &str) -> Result<bool, NoMemory> {
    let mut out = Units::from_str(alloc, "Z:")?;
    write36(n, &mut out)?;
    let spelled = out.to_text_lossy(alloc)?;
    Ok(spelled.strip_prefix("Z:") == Some(text))
}

#[test]
fn numbers_spelled(rt: HostRuntime) -> Result<(), Fail> {
    for (n, text) in [
        (0, "0"),
        (35, "z"),
        (36, "10"),
        (196, "5g"),
        (4294967295, "1z141z3"),
        (u64::MAX, "3w5e11264sgsf"),
    ] {
        assert!(rt; is_spelled(rt.alloc(), n, text)?, "{n} as {text}");
    }
    Ok(())
}

/// The number at a place of a text, and the place behind it.
fn number_at(alloc: Global, text: &str, at: usize) -> Result<Option<(u64, usize)>, NoMemory> {
    let units = Units::from_str(alloc, text)?;
    Ok(read36(units.as_slice(), at))
}

#[test]
fn numbers_read(rt: HostRuntime) -> Result<(), Fail> {
    for (text, at, number) in [
        ("5g", 0, Some((196, 2))),
        ("5g", 1, Some((16, 2))),
        ("5g", 2, None),
        ("5g", 3, None),
        ("5g", usize::MAX, None),
        ("", 0, None),
        ("Z:01>0", 2, Some((1, 4))),
        ("aB", 0, Some((10, 1))),
        ("B", 0, None),
        ("1z141z3", 0, Some((4294967295, 7))),
        ("1z141z4", 0, None),
        ("zzzzzzzzzzzzzzzzzzzz", 0, None),
        ("00000000000000000000001z141z3$", 0, Some((4294967295, 29))),
    ] {
        assert_eq!(rt;
            number_at(rt.alloc(), text, at)?,
            number,
            "at {at} of {text}"
        );
    }
    Ok(())
}

fn is_cleaned(alloc: Global, text: &str, clean: &str) -> Result<bool, NoMemory> {
    let cleaned = Units::from_str(alloc, text)?.clean(alloc)?;
    are_text(alloc, &cleaned, clean)
}

#[test]
fn texts_cleaned(rt: HostRuntime) -> Result<(), Fail> {
    for (text, clean) in [
        ("a\tb\r\nc", "a        b\nc"),
        ("\r\r\n\n\r", "\n\n\n\n"),
        ("\u{A0}😀", " 😀"),
    ] {
        assert!(rt; is_cleaned(rt.alloc(), text, clean)?, "to {clean}");
    }
    Ok(())
}

/// The order of two texts, whether they are equal, and whether the first is less.
fn order(alloc: Global, a: &str, b: &str) -> Result<(Ordering, bool, bool), NoMemory> {
    let a = Units::from_str(alloc, a)?;
    let b = Units::from_str(alloc, b)?;
    Ok((a.cmp(&b), a == b, a < b))
}

#[test]
fn texts_in_order(rt: HostRuntime) -> Result<(), Fail> {
    for (a, b, is) in [
        ("", "", Ordering::Equal),
        ("", "a", Ordering::Less),
        ("ab", "ab", Ordering::Equal),
        ("ab", "abc", Ordering::Less),
        ("b", "abc", Ordering::Greater),
        ("B", "a", Ordering::Less),
        ("\u{FFFD}", "😀", Ordering::Greater),
    ] {
        assert_eq!(rt;
            order(rt.alloc(), a, b)?,
            (is, is.is_eq(), is.is_lt()),
            "{a} and {b}"
        );
    }
    Ok(())
}

/// Whether a text comes back out of its units.
fn comes_back(alloc: Global, text: &str) -> Result<bool, TextBad> {
    let units = Units::from_str(alloc, text)?;
    let exact = units.to_text(alloc)?;
    Ok(exact.as_str() == text && are_text(alloc, &units, text)? && units.well_formed())
}

#[test]
fn there_and_back(rt: HostRuntime) -> Result<(), Fail> {
    assert!(rt; comes_back(rt.alloc(), TEXT)?);
    Ok(())
}

/// Whether units are refused for the half that stands alone at that place, and are this text with U+FFFD.
fn is_halved(alloc: Global, units: &[u16], at: u64, text: &str) -> Result<bool, NoMemory> {
    let units = Units::from_slice(alloc, units)?;
    let bad = units.to_text(alloc).err();
    Ok(!units.well_formed() && bad == Some(TextBad::LonePair(at)) && are_text(alloc, &units, text)?)
}

#[test]
fn half_of_a_pair(rt: HostRuntime) -> Result<(), Fail> {
    let rows: [(&[u16], u64, &str); 4] = [
        (&[0xD83D], 0, "\u{FFFD}"),
        (&[0xDE00, 97], 0, "\u{FFFD}a"),
        (&[97, 0xD83D, 0xDE00, 0xDE00], 3, "a😀\u{FFFD}"),
        (&[0xD83D, 0xD83D, 0xDE00], 0, "\u{FFFD}😀"),
    ];
    for (units, at, text) in rows {
        assert!(rt; is_halved(rt.alloc(), units, at, text)?, "{at} of {text}");
    }
    Ok(())
}

/// Whether a text is a pad's own id: its front, so many units of three bytes each, and its back.
fn is_own(alloc: Global, front: &str, threes: usize, back: &str) -> Result<bool, NoMemory> {
    let mut text = Units::from_str(alloc, front)?;
    for _ in 0..threes {
        text.push(0x6C34)?;
    }
    text.push_all(Units::from_str(alloc, back)?.as_slice())?;
    Ok(PadId::read(alloc, &text)?.is_some())
}

#[test]
fn own_ids(rt: HostRuntime) -> Result<(), Fail> {
    let group = "g.0aA9bB8cC7dD6eE5";
    let fifty = "12345678901234567890123456789012345678901234567890";
    for (part, name, own) in [
        ("", "pad", true),
        ("", "", false),
        ("", fifty, true),
        (fifty, "1", false),
        ("", "a$b", false),
        ("", "r.abcdefghij000000", false),
        ("r", "abc", true),
        ("g.0aA9", "$pad", false),
        ("g.0aA9bB8cC7dD6eE-", "$pad", false),
        (group, "$pad", true),
        (group, "$", false),
        (group, "$a$b", false),
        (group, "$r.x", true),
    ] {
        assert_eq!(rt; is_own(rt.alloc(), part, 0, name)?, own, "at {part}{name}");
    }
    Ok(())
}

#[test]
fn bytes_of_a_name(rt: HostRuntime) -> Result<(), Fail> {
    let group = "g.0aA9bB8cC7dD6eE5$";
    // 33 units of three bytes and one of one, and one byte more
    for (part, more, own) in [
        ("", "a", true),
        ("", "ab", false),
        (group, "a", true),
        (group, "ab", false),
    ] {
        assert_eq!(rt;
            is_own(rt.alloc(), part, 33, more)?,
            own,
            "at {part}..{more}"
        );
    }
    Ok(())
}

/// A copy of the id that a text is.
fn copied_id(alloc: Global, text: &str) -> Result<Option<PadId>, NoMemory> {
    let text = Units::from_str(alloc, text)?;
    match PadId::read(alloc, &text)? {
        None => Ok(None),
        Some(id) => Ok(Some(id.copy(alloc)?)),
    }
}

/// Whether a text is a pad's own id, whose copy is that text and has that group.
fn has_group(alloc: Global, text: &str, group: &str) -> Result<bool, NoMemory> {
    let Some(id) = copied_id(alloc, text)? else {
        return Ok(false);
    };
    match id.group() {
        None => Ok(false),
        Some(found) => Ok(spell(alloc, found, group)? && spell(alloc, id.as_slice(), text)?),
    }
}

#[test]
fn group_of_an_id(rt: HostRuntime) -> Result<(), Fail> {
    assert!(rt; has_group(rt.alloc(), "g.0aA9bB8cC7dD6eE5$pad", "g.0aA9bB8cC7dD6eE5")?);
    Ok(())
}

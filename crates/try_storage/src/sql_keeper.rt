//! The keeper over a database, in a file and in memory.

use crate::keepers::{are_listed, get_fails, is_got, list_fails, put_all, put_fails};
use ep_keep_sql::{FileKeeper, SqlKeeper};
use ep_outside::{Device, KeepBad, Keeper};
use std::alloc::Global;
use std::test::Fail;

/// What is kept under `a/` in the file.
const KEPT: [(&str, &str); 2] = [("a/1", "z"), ("a/\u{FFFD}", "")];

/// Puts what the file is to keep: whether it is there.
fn is_kept<K: Keeper>(alloc: Global, keeper: &mut K) -> Result<bool, KeepBad> {
    let puts = [
        ("a/\u{FFFD}", Some("")),
        ("a/1", Some("x")),
        ("a0", Some("y")),
        ("b", None),
        ("a/1", Some("z")),
    ];
    put_all(alloc, keeper, &puts)?;
    are_listed(keeper, "a/", &KEPT)
}

/// Whether it is there again, and what is removed is gone.
fn is_kept_again<K: Keeper>(alloc: Global, keeper: &mut K) -> Result<bool, KeepBad> {
    let are_listed = are_listed(keeper, "a/", &KEPT)?;
    put_all(alloc, keeper, &[("a0", None)])?;
    Ok(are_listed && is_got(keeper, "a0", None)? && keeper.faults() == 0)
}

/// Whether a keeper that held nothing holds what was put.
fn is_held<K: Keeper>(alloc: Global, keeper: &mut K) -> Result<bool, KeepBad> {
    let puts = [("a/1", Some("x")), ("a/2", Some("y")), ("b", Some("z"))];
    put_all(alloc, keeper, &puts)?;
    put_all(alloc, keeper, &[("a/1", None)])?;
    let are_listed = are_listed(keeper, "a/", &[("a/2", "y")])?;
    Ok(are_listed && is_got(keeper, "a/1", None)? && keeper.faults() == 0)
}

/// Whether each call fails, and is counted.
fn all_fail<K: Keeper>(alloc: Global, keeper: &mut K) -> bool {
    get_fails(keeper, "a")
        && list_fails(keeper, "")
        && put_fails(alloc, keeper, &[])
        && keeper.faults() == 3
}

/// A beginning of keys, the greatest of the keys that begin so, and where the texts that begin so end.
type Prefix = (&'static str, &'static str, Option<&'static str>);

const PREFIXES: [Prefix; 5] = [
    ("", "\u{10FFFF}", None),
    ("s/", "s/\u{10FFFF}", Some("s0")),
    ("a\u{D7FF}", "a\u{D7FF}\u{10FFFF}", Some("a\u{E000}")),
    (
        "a\u{10FFFF}\u{10FFFF}",
        "a\u{10FFFF}\u{10FFFF}\u{10FFFF}",
        Some("b"),
    ),
    ("\u{10FFFF}", "\u{10FFFF}\u{10FFFF}", None),
];

/// Puts these keys, and the beginning itself: whether just the two that begin so are listed.
fn ends_there<K: Keeper>(
    alloc: Global,
    keeper: &mut K,
    (prefix, greatest, end): Prefix,
) -> Result<bool, KeepBad> {
    put_all(alloc, keeper, &[(prefix, Some("")), (greatest, Some(""))])?;
    if let Some(end) = end {
        put_all(alloc, keeper, &[(end, Some("y"))])?;
    }
    are_listed(keeper, prefix, &[(prefix, ""), (greatest, "")])
}

/// The first beginning whose keys are listed otherwise.
fn first_unlisted<K: Keeper>(
    alloc: Global,
    keeper: &mut K,
    rows: &[Prefix],
) -> Result<Option<&'static str>, KeepBad> {
    for row in rows {
        if !ends_there(alloc, keeper, *row)? {
            return Ok(Some(row.0));
        }
    }
    Ok(None)
}

/// What is asked of a keeper.
#[derive(Clone, Copy)]
enum Asked {
    Keeps,
    KeepsAgain,
    Fails,
    Holds,
    Lists,
}

/// Nothing where it is so, and else this.
fn unless(is_so: bool, what: &'static str) -> Option<&'static str> {
    if is_so { None } else { Some(what) }
}

/// What isn't as it is asked.
fn wrong<K: Keeper>(
    alloc: Global,
    keeper: &mut K,
    asked: Asked,
) -> Result<Option<&'static str>, KeepBad> {
    match asked {
        Asked::Keeps => Ok(unless(is_kept(alloc, keeper)?, "kept")),
        Asked::KeepsAgain => Ok(unless(is_kept_again(alloc, keeper)?, "kept again")),
        Asked::Fails => Ok(unless(all_fail(alloc, keeper), "a failure")),
        Asked::Holds => Ok(unless(is_held(alloc, keeper)?, "held")),
        Asked::Lists => first_unlisted(alloc, keeper, &PREFIXES),
    }
}

/// The same of a keeper that is opened over a file, and closed. Whoever owns one is dear to prove, so it stands once.
fn wrong_in_file(
    rt: &HostRuntime,
    path: &str,
    asked: Asked,
) -> Result<Option<&'static str>, KeepBad> {
    let mut keeper = FileKeeper::open(rt, path)?;
    wrong(rt.alloc(), &mut keeper, asked)
}

/// The same of one in memory.
fn wrong_in_memory(alloc: Global, asked: Asked) -> Result<Option<&'static str>, KeepBad> {
    let mut keeper = SqlKeeper::in_memory(alloc)?;
    wrong(alloc, &mut keeper, asked)
}

#[test]
fn keeps_what_was_put(rt: HostRuntime) -> Result<(), Fail> {
    assert_eq!(rt; wrong_in_file(&rt, "keeps.db", Asked::Keeps)?, None);
    assert_eq!(rt; wrong_in_file(&rt, "keeps.db", Asked::KeepsAgain)?, None);
    Ok(())
}

#[test]
fn fails_without_its_file(rt: HostRuntime) -> Result<(), Fail> {
    assert_eq!(rt;
        wrong_in_file(&rt, "no/such/folder.db", Asked::Fails)?,
        None
    );
    Ok(())
}

#[test]
fn holds_in_memory(rt: HostRuntime) -> Result<(), Fail> {
    assert_eq!(rt; wrong_in_memory(rt.alloc(), Asked::Holds)?, None);
    Ok(())
}

#[test]
fn lists_up_to_the_end_of_a_prefix(rt: HostRuntime) -> Result<(), Fail> {
    assert_eq!(rt; wrong_in_memory(rt.alloc(), Asked::Lists)?, None);
    Ok(())
}

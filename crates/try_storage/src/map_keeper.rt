//! The keeper in memory.

use crate::keepers::{are_listed, get_fails, is_got, put_all, put_fails};
use ep_keep::MapKeeper;
use ep_outside::{KeepBad, Keeper};
use std::alloc::Global;
use std::test::Fail;

/// Whether a keeper that held nothing holds what was put.
fn is_held<K: Keeper>(alloc: Global, keeper: &mut K) -> Result<bool, KeepBad> {
    let puts = [
        ("b", Some("2")),
        ("a/2", Some("y")),
        ("a/1", Some("x")),
        ("b", None),
        ("a/1", Some("z")),
        ("c", None),
    ];
    put_all(alloc, keeper, &puts)?;
    let is_got = is_got(keeper, "b", None)? && is_got(keeper, "a/1", Some("z"))?;
    let are_listed = are_listed(keeper, "a/", &[("a/1", "z"), ("a/2", "y")])?;
    Ok(is_got && are_listed && keeper.faults() == 0)
}

#[test]
fn holds_what_was_put(rt: HostRuntime) -> Result<(), Fail> {
    let alloc = rt.alloc();
    let mut keeper = MapKeeper::new(alloc, Vec::new(alloc));
    assert!(rt; is_held(alloc, &mut keeper)?);
    Ok(())
}

/// Whether the second call and the third fail, and what was put before is still there.
fn fail_between<K: Keeper>(alloc: Global, keeper: &mut K) -> Result<bool, KeepBad> {
    put_all(alloc, keeper, &[("a", Some("1"))])?;
    let fail = get_fails(keeper, "a") && put_fails(alloc, keeper, &[("a", None)]);
    let is_counted = keeper.faults() == 2;
    Ok(fail && is_counted && are_listed(keeper, "", &[("a", "1")])?)
}

#[test]
fn fails_at_the_listed_calls(rt: HostRuntime) -> Result<(), Fail> {
    let alloc = rt.alloc();
    let mut keeper = MapKeeper::new(alloc, vec![in alloc; 2, 3]?);
    assert!(rt; fail_between(alloc, &mut keeper)?);
    Ok(())
}

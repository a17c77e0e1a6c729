//! A map that another thread has.

use ep_keep::MapKeeper;
use ep_keep_far::FarKeeper;
use ep_outside::{Device, KeepBad, Keeper, Put, Text};
use std::alloc::Global;
use std::sync::Wait;
use std::test::Fail;
use std::thread::join;

fn put<K: Keeper>(alloc: Global, keeper: &mut K, key: &str, value: &str) -> Result<(), KeepBad> {
    let puts = [Put {
        key: Text::from_str(alloc, key)?,
        value: Some(Text::from_str(alloc, value)?),
    }];
    keeper.put_all(&puts)
}

/// Whether this stands under a key.
fn is_got<K: Keeper>(keeper: &mut K, key: &str, value: &str) -> Result<bool, KeepBad> {
    Ok(keeper.get(key)?.map_or(false, |got| got.as_str() == value))
}

fn is_refused<K: Keeper>(keeper: &mut K, key: &str) -> bool {
    matches!(keeper.get(key), Err(KeepBad::Failed))
}

fn count<K: Keeper>(keeper: &mut K, prefix: &str) -> Result<usize, KeepBad> {
    Ok(keeper.list_prefix(prefix)?.items.len())
}

/// Puts, gets and lists, where the third call fails: whether what was put was got, whether the third was refused, how
/// many were listed, and the faults.
fn calls<R: Wait + Drop>(
    alloc: Global,
    mut keeper: FarKeeper<R, MapKeeper>,
) -> Result<(bool, bool, usize, u64), KeepBad> {
    put(alloc, &mut keeper, "a/1", "x")?;
    let is_got = is_got(&mut keeper, "a/1", "x")?;
    let is_refused = is_refused(&mut keeper, "a/2");
    let listed = count(&mut keeper, "a/")?;
    Ok((is_got, is_refused, listed, keeper.faults()))
}

#[test]
fn calls_are_made_by_another_thread(rt: HostRuntime) -> Result<(), Fail> {
    let alloc = rt.alloc();
    let map = MapKeeper::new(alloc, vec![in alloc; 3]?);
    let (keeper, mut desk) = FarKeeper::new(rt, alloc, map)?;
    let (came, ()) = join(&rt, move || calls(alloc, keeper), || desk.answer_all(&rt));
    assert_eq!(rt; came?, (true, true, 1, 1));
    Ok(())
}

#[test]
fn each_call_fails_without_a_desk(rt: HostRuntime) -> Result<(), Fail> {
    let alloc = rt.alloc();
    let mut keeper = FarKeeper::<HostRuntime, MapKeeper>::alone(rt, alloc)?;
    assert!(rt; is_refused(&mut keeper, "a/1"));
    assert_eq!(rt; keeper.faults(), 1);
    Ok(())
}

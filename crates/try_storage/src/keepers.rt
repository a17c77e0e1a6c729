//! Calls of any keeper.

use ep_outside::{KeepBad, Keeper, Pair, Put, Text};
use ep_units::NoMemory;
use std::alloc::Global;

fn value_of(alloc: Global, value: Option<&str>) -> Result<Option<Text>, NoMemory> {
    let Some(value) = value else {
        return Ok(None);
    };
    let text = Text::from_str(alloc, value)?;
    Ok(Some(text))
}

fn put(alloc: Global, key: &str, value: Option<&str>) -> Result<Put, NoMemory> {
    let key = Text::from_str(alloc, key)?;
    let value = value_of(alloc, value)?;
    Ok(Put { key, value })
}

fn puts(alloc: Global, rows: &[(&str, Option<&str>)]) -> Result<Vec<Put>, NoMemory> {
    let mut puts = Vec::new(alloc);
    for (key, value) in rows {
        let put = put(alloc, key, *value)?;
        puts.push(put)?;
    }
    Ok(puts)
}

/// Puts all of them in one call.
pub fn put_all<K: Keeper>(
    alloc: Global,
    keeper: &mut K,
    rows: &[(&str, Option<&str>)],
) -> Result<(), KeepBad> {
    let puts = puts(alloc, rows)?;
    keeper.put_all(puts.as_slice())
}

/// Whether this stands under a key.
pub fn is_got<K: Keeper>(keeper: &mut K, key: &str, wanted: Option<&str>) -> Result<bool, KeepBad> {
    let value = keeper.get(key)?;
    Ok(value.as_ref().map(|text| text.as_str()) == wanted)
}

fn are_pairs(pairs: &[Pair], wanted: &[(&str, &str)]) -> bool {
    if pairs.len() != wanted.len() {
        return false;
    }
    for (pair, (key, value)) in pairs.iter().zip(wanted) {
        if pair.key.as_str() != *key || pair.value.as_str() != *value {
            return false;
        }
    }
    true
}

/// Whether just these pairs have keys that begin so.
pub fn are_listed<K: Keeper>(
    keeper: &mut K,
    prefix: &str,
    wanted: &[(&str, &str)],
) -> Result<bool, KeepBad> {
    let pairs = keeper.list_prefix(prefix)?;
    Ok(are_pairs(pairs.as_slice(), wanted))
}

/// Whether the keeper fails to get.
pub fn get_fails<K: Keeper>(keeper: &mut K, key: &str) -> bool {
    matches!(keeper.get(key), Err(KeepBad::Failed))
}

/// Whether the keeper fails to put.
pub fn put_fails<K: Keeper>(alloc: Global, keeper: &mut K, rows: &[(&str, Option<&str>)]) -> bool {
    matches!(put_all(alloc, keeper, rows), Err(KeepBad::Failed))
}

/// Whether the keeper fails to list.
pub fn list_fails<K: Keeper>(keeper: &mut K, prefix: &str) -> bool {
    matches!(keeper.list_prefix(prefix), Err(KeepBad::Failed))
}

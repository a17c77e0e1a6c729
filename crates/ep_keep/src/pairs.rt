//! Pairs by rising key.

ghost use Rattle.std.specs.Prelude.{◌≡◌, IfOk};
ghost use Rattle.ep_outside.specs.Kept.{after, key_cmp, listed, put_in, value_at, with, without};

use ep_outside::{Pair, Pairs, Put, Text};
use ep_units::NoMemory;
use std::alloc::Global;
use std::cmp::Ordering;

fn order(a: &str, b: &str) -> Ordering
    ensures { result ≡ key_cmp a.now b.now }
{
    a.cmp(b)
}

/// What stands under a key.
pub fn value_of(alloc: Global, pairs: &[Pair], key: &str) -> Result<Option<Text>, NoMemory>
    ensures { IfOk result (λ value. value ≡ value_at pairs.now key.now) }
{
    for pair in pairs {
        match order(key, pair.key.as_str()) {
            Ordering::Less => return Ok(None),
            Ordering::Equal => return Ok(Some(pair.value.copy(alloc)?)),
            Ordering::Greater => {}
        }
    }
    Ok(None)
}

/// Puts a value under a key.
pub fn put_value(pairs: &mut Vec<Pair>, key: Text, value: Text) -> Result<(), NoMemory>
    ensures { IfOk result (λ _. pairs.new.items ≡ with pairs.old.items key value) }
{
    let mut at = 0;
    while at < pairs.len() {
        match order(key.as_str(), pairs[at].key.as_str()) {
            Ordering::Less => break,
            Ordering::Equal => {
                pairs[at] = Pair { key, value };
                return Ok(());
            }
            Ordering::Greater => {}
        }
        at += 1;
    }
    pairs.insert(at, Pair { key, value })?;
    Ok(())
}

/// Removes what stands under a key.
pub fn remove_value(pairs: &mut Vec<Pair>, key: &str)
    ensures { pairs.new.items ≡ without pairs.old.items key.now }
{
    let mut at = 0;
    while at < pairs.len() {
        match order(key, pairs[at].key.as_str()) {
            Ordering::Less => return,
            Ordering::Equal => {
                pairs.remove(at);
                return;
            }
            Ordering::Greater => {}
        }
        at += 1;
    }
}

fn copy_pair(alloc: Global, pair: &Pair) -> Result<Pair, NoMemory>
    ensures { IfOk result (λ p. p ≡ pair.now) }
{
    Ok(Pair {
        key: pair.key.copy(alloc)?,
        value: pair.value.copy(alloc)?,
    })
}

/// The same pairs.
pub fn copy_pairs(alloc: Global, pairs: &[Pair]) -> Result<Vec<Pair>, NoMemory>
    ensures { IfOk result (λ copy. copy.items ≡ pairs.now) }
{
    let mut copy = Vec::new(alloc);
    for pair in pairs {
        copy.push(copy_pair(alloc, pair)?)?;
    }
    Ok(copy)
}

/// The pairs whose keys begin so.
pub fn pairs_with(alloc: Global, pairs: &[Pair], prefix: &str) -> Result<Pairs, NoMemory>
    ensures { IfOk result (λ found. found ≡ listed pairs.now prefix.now) }
{
    let mut items = Vec::new(alloc);
    for pair in pairs {
        if pair.key.as_str().as_bytes().starts_with(prefix.as_bytes()) {
            items.push(copy_pair(alloc, pair)?)?;
        }
    }
    Ok(Pairs { items })
}

fn put_one(alloc: Global, pairs: &mut Vec<Pair>, put: &Put) -> Result<(), NoMemory>
    ensures { IfOk result (λ _. pairs.new.items ≡ put_in pairs.old.items put.now.key put.now.value) }
{
    match &put.value {
        Some(value) => put_value(pairs, put.key.copy(alloc)?, value.copy(alloc)?),
        None => {
            remove_value(pairs, put.key.as_str());
            Ok(())
        }
    }
}

/// The pairs after some puts.
pub fn put_pairs(alloc: Global, pairs: &mut Vec<Pair>, puts: &[Put]) -> Result<(), NoMemory>
    ensures { IfOk result (λ _. pairs.new.items ≡ after pairs.old.items puts.now) }
{
    for put in puts {
        put_one(alloc, pairs, put)?;
    }
    Ok(())
}

//! Puts are copied, and compared.

ghost use Rattle.std.specs.Prelude.{◌≡◌, IfOk, IsTrue};

use ep_outside::{Put, Text};
use ep_units::NoMemory;
use std::alloc::Global;

fn copy_of_value(alloc: Global, value: &Option<Text>) -> Result<Option<Text>, NoMemory>
    ensures { IfOk result (λ copy. copy ≡ value.now) }
{
    match value {
        Some(value) => Ok(Some(value.copy(alloc)?)),
        None => Ok(None),
    }
}

fn copy_of_put(alloc: Global, put: &Put) -> Result<Put, NoMemory>
    ensures { IfOk result (λ copy. copy ≡ put.now) }
{
    Ok(Put {
        key: put.key.copy(alloc)?,
        value: copy_of_value(alloc, &put.value)?,
    })
}

pub fn copy_of(alloc: Global, puts: &[Put]) -> Result<Vec<Put>, NoMemory>
    ensures { IfOk result (λ copies. copies.items ≡ puts.now) }
{
    let mut copies = Vec::new(alloc);
    for put in puts {
        copies.push(copy_of_put(alloc, put)?)?;
    }
    Ok(copies)
}

fn is_same_value(one: &Option<Text>, other: &Option<Text>) -> bool
    ensures { IsTrue result → one.now ≡ other.now }
{
    match (one, other) {
        (None, None) => true,
        (Some(one), Some(other)) => one.as_str() == other.as_str(),
        _ => false,
    }
}

fn is_same(one: &Put, other: &Put) -> bool
    ensures { IsTrue result → one.now ≡ other.now }
{
    one.key.as_str() == other.key.as_str() && is_same_value(&one.value, &other.value)
}

pub fn are_same(some: &[Put], others: &[Put]) -> bool
    ensures { IsTrue result → some.now ≡ others.now }
{
    let mut at = 0;
    for put in some {
        let Some(other) = others.get(at) else {
            return false;
        };
        if !is_same(put, other) {
            return false;
        }
        at += 1;
    }
    at == others.len()
}

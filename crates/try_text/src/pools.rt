//! Pools, and their JSON.

use ep_attr::Attr;
use ep_pool::{Pool, PoolBad, PoolMember};
use ep_units::{NoMemory, Units};
use serde_json::Value;
use std::alloc::Global;
use std::test::Fail;

fn attr(alloc: Global, key: &str, value: &str) -> Result<Attr, NoMemory> {
    let key = Units::from_str(alloc, key)?;
    let value = Units::from_str(alloc, value)?;
    Ok(Attr { key, value })
}

/// Puts an attribute where there is room; its number.
fn put(alloc: Global, pool: &mut Pool, key: &str, value: &str) -> Result<Option<u32>, NoMemory> {
    let attr = attr(alloc, key, value)?;
    pool.reserve(1)?;
    if pool.can_number_more() {
        Ok(Some(pool.put(attr)))
    } else {
        Ok(None)
    }
}

fn find(alloc: Global, pool: &Pool, key: &str, value: &str) -> Result<Option<u32>, NoMemory> {
    let attr = attr(alloc, key, value)?;
    Ok(pool.find(&attr))
}

#[test]
fn numbers_put(rt: HostRuntime) -> Result<(), Fail> {
    let mut pool = Pool::new(rt.alloc());
    assert!(rt; pool.get(0).is_none());
    for (key, value, number) in [
        ("bold", "true", 0),
        ("bold", "true", 0),
        ("author", "a.x", 1),
    ] {
        let given = put(rt.alloc(), &mut pool, key, value)?;
        assert_eq!(rt; given, Some(number), "{key} of {value}");
    }
    assert_eq!(rt; pool.len(), 2);
    assert!(rt; pool.can_number_more());
    assert!(rt; pool.get(2).is_none());
    assert!(rt;
        pool.get(1)
            .is_some_and(|a| a.value.as_slice() == [97, 46, 120].as_slice())
    );
    Ok(())
}

/// The pool of two attributes.
fn two(alloc: Global) -> Result<Pool, NoMemory> {
    let mut pool = Pool::new(alloc);
    put(alloc, &mut pool, "bold", "true")?;
    put(alloc, &mut pool, "author", "a.x")?;
    Ok(pool)
}

#[test]
fn numbers_found(rt: HostRuntime) -> Result<(), Fail> {
    let pool = two(rt.alloc())?;
    for (key, value, number) in [("author", "a.x", Some(1)), ("author", "true", None)] {
        let found = find(rt.alloc(), &pool, key, value)?;
        assert_eq!(rt; found, number, "{key} of {value}");
    }
    Ok(())
}

/// Whether that is the pool's JSON.
fn is_written(alloc: Global, pool: &Pool, text: &str) -> Result<bool, NoMemory> {
    let json = pool.to_json(alloc)?;
    Ok(json.to_string(alloc)?.as_str() == text)
}

/// The pool of a JSON text; of a text that is no JSON as for want of memory.
fn read(alloc: Global, text: &str) -> Result<Pool, PoolBad> {
    match Value::from_str(alloc, text) {
        Ok(value) => Pool::from_json(alloc, &value),
        Err(_) => Err(PoolBad::NoMemory),
    }
}

#[test]
fn there_and_back(rt: HostRuntime) -> Result<(), Fail> {
    let alloc = rt.alloc();
    let text =
        "{\"nextNum\":2,\"numToAttrib\":{\"0\":[\"bold\",\"true\"],\"1\":[\"author\",\"a.x\"]}}";
    let pool = two(alloc)?;
    assert!(rt; is_written(alloc, &pool, text)?, "to {text}");
    let again = read(alloc, text)?;
    assert!(rt; is_written(alloc, &again, text)?, "from {text}");
    Ok(())
}

fn refusal(alloc: Global, text: &str) -> Option<PoolBad> {
    read(alloc, text).err()
}

#[test]
fn refusals(rt: HostRuntime) {
    let next_num = PoolBad::Shape(PoolMember::NextNum);
    let num_to_attrib = PoolBad::Shape(PoolMember::NumToAttrib);
    for (text, bad) in [
        ("[]", next_num),
        (
            "{\"nextNum\":9007199254740992,\"numToAttrib\":{}}",
            next_num,
        ),
        ("{\"nextNum\":-1,\"numToAttrib\":{}}", next_num),
        ("{\"nextNum\":0.5,\"numToAttrib\":{}}", next_num),
        (
            "{\"nextNum\":1.0,\"numToAttrib\":{\"0\":[\"a\",\"b\"]}}",
            next_num,
        ),
        ("{\"nextNum\":0}", num_to_attrib),
        ("{\"nextNum\":0,\"numToAttrib\":[]}", num_to_attrib),
        (
            "{\"nextNum\":1,\"numToAttrib\":{\"00\":[\"a\",\"b\"]}}",
            num_to_attrib,
        ),
        (
            "{\"nextNum\":1,\"numToAttrib\":{\"+0\":[\"a\",\"b\"]}}",
            num_to_attrib,
        ),
        (
            "{\"nextNum\":1,\"numToAttrib\":{\"0\":[\"a\"]}}",
            num_to_attrib,
        ),
        (
            "{\"nextNum\":1,\"numToAttrib\":{\"0\":[\"a\",\"b\",\"c\"]}}",
            num_to_attrib,
        ),
        (
            "{\"nextNum\":2,\"numToAttrib\":{\"0\":[\"bold\",\"true\"]}}",
            PoolBad::Gap(1),
        ),
        (
            "{\"nextNum\":9007199254740991,\"numToAttrib\":{\"0\":[\"a\",\"b\"]}}",
            PoolBad::Gap(1),
        ),
        (
            "{\"nextNum\":0,\"numToAttrib\":{\"9007199254740991\":[\"a\",\"b\"]}}",
            PoolBad::Gap(9007199254740991),
        ),
        (
            "{\"nextNum\":0,\"numToAttrib\":{\"9007199254740992\":[\"a\",\"b\"]}}",
            num_to_attrib,
        ),
        (
            "{\"nextNum\":1,\"numToAttrib\":{\"0\":[\"a\",\"b\"],\"10\":[\"a\",\"b\"],\"9\":[\"a\",\"b\"]}}",
            PoolBad::Gap(9),
        ),
        (
            "{\"nextNum\":2,\"numToAttrib\":{\"0\":[\"a\",\"b\"],\"1\":[\"a\",\"b\"]}}",
            PoolBad::Twice(1),
        ),
    ] {
        assert_eq!(rt; refusal(rt.alloc(), text), Some(bad), "at {text}");
    }
}

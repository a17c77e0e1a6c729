//! The shortest records. The stored run of the program `records` has the others.

use ep_record::{Record, decode, encode, encode_behind};
use ep_units::NoMemory;
use std::alloc::Global;
use std::test::Fail;

fn is_written(alloc: Global, on: bool, wanted: &[u8]) -> Result<bool, NoMemory> {
    let record = Record::Public { on };
    let bytes = encode(alloc, &record)?;
    Ok(bytes.as_slice() == wanted)
}

/// Behind a front, in the bytes of an earlier record.
fn is_written_behind(
    alloc: Global,
    front: &[u8],
    on: bool,
    wanted: &[u8],
) -> Result<bool, NoMemory> {
    let (earlier, record) = (Record::Public { on: true }, Record::Public { on });
    let spare = encode(alloc, &earlier)?;
    let bytes = encode_behind(alloc, front, &record, Some(spare))?;
    Ok(bytes.as_slice() == wanted)
}

fn is_record(alloc: Global, bytes: &[u8]) -> Result<bool, NoMemory> {
    let record = decode(alloc, bytes)?;
    Ok(record.is_some())
}

#[test]
fn public(rt: HostRuntime) -> Result<(), Fail> {
    let alloc = rt.alloc();
    assert!(rt; is_written(alloc, true, &[5, 1])?);
    assert!(rt; is_written_behind(alloc, &[7, 8], false, &[7, 8, 5, 0])?);
    assert!(rt; is_record(alloc, &[5, 1])?);
    assert!(rt; !is_record(alloc, &[5, 2])?);
    Ok(())
}

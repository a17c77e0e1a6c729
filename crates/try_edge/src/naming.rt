//! How the files of pads are named.

use crate::folders::pad;
use ep_edge::{file_name, id_of};
use ep_units::{NoMemory, PadId};
use std::alloc::Global;
use std::test::Fail;

fn is_named(alloc: Global, pad: &PadId, name: &str) -> Result<bool, NoMemory> {
    Ok(file_name(alloc, pad)?.as_str() == name)
}

fn is_read(alloc: Global, pad: &PadId, name: &str) -> Result<bool, NoMemory> {
    match id_of(alloc, name)? {
        Some(id) => Ok(id.as_slice() == pad.as_slice()),
        None => Ok(false),
    }
}

// The pad's file has this name, and the name is read as the pad's.
fn has_file(alloc: Global, id: &str, name: &str) -> Result<bool, Fail> {
    let pad = pad(alloc, id)?;
    Ok(is_named(alloc, &pad, name)? && is_read(alloc, &pad, name)?)
}

#[test]
fn files_of_pads(rt: HostRuntime) -> Result<(), Fail> {
    for (id, name) in [
        ("pad", "706164.pad"),
        ("é😀", "c3a9f09f9880.pad"),
        (
            "g.0123456789abcdef$x",
            "672e303132333435363738396162636465662478.pad",
        ),
    ] {
        assert!(rt; has_file(rt.alloc(), id, name)?, "at {name}");
    }
    Ok(())
}

#[test]
fn other_files(rt: HostRuntime) -> Result<(), Fail> {
    for name in [
        "",
        ".pad",
        "706164",
        "706164.PAD",
        "7061640.pad",
        "70616g.pad",
        "6A.pad",
        // no UTF-8; `r.x`, a read-only id; `a$b`
        "ff.pad",
        "722e78.pad",
        "612462.pad",
        "padd.lock",
    ] {
        assert!(rt; id_of(rt.alloc(), name)?.is_none(), "at {name}");
    }
    Ok(())
}

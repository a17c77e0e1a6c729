//! A shelf in memory, judged into a sink in memory.

ghost use Rattle.std.specs.Prelude.{◌≤◌};

use ep_disk_mem::{MemDisk, MemFile, MemShelf, MemSink};
use ep_outside::Failed;
use ep_units::{NoMemory, PadId, Units};
use ep_verdicts::{Found, VerdictsBad, verify_to};
use std::alloc::Global;
use std::test::Fail;
use std::thread::Threads;

const START: &[u8] = b"EPADJNL1";

// Records, each behind the mark that one comes and its length.
const OPEN: &[u8] = b"\x01\0\0\0\x09\x01\0\0\0\0\0\0\0\x01";

const CREATE: &[u8] = b"\x01\0\0\0\x1a\x02\0\0\0\0\0\0\0\x01\0\0\0\0\0\0\0\x01\0\0\0\x05hello";

const REV: &[u8] =
    b"\x01\0\0\0\x34\x03\0\0\0\0\0\0\0\x01\0\0\0\0\0\0\0\x01\0\0\0\0\0\0\0\x05\0\0\0\x03a.A\0\0\0\0\x0bZ:6>1=5+1$!\0\0\0\0";

const DELETE: &[u8] = b"\x01\0\0\0\x09\x04\0\0\0\0\0\0\0\x06";

// No more records come.
const END: &[u8] = b"\0";

/// A file under a name, its bytes in parts. Its disk's call of this number fails.
#[derive(Clone, Copy)]
struct File {
    name: &'static str,
    parts: &'static [&'static [u8]],
    fails: u64,
}

const PAD: File = File {
    name: "a",
    parts: &[START, OPEN, CREATE, REV, END],
    fails: 0,
};

const DELETED: File = File {
    name: "b",
    parts: &[START, OPEN, CREATE, REV, DELETE, END],
    fails: 0,
};

/// The same, but its disk fails.
const UNREAD: File = File {
    fails: 1,
    ..DELETED
};

/// No journal.
const FOREIGN: File = File {
    name: "c\n\"\\",
    parts: &[b"0123456789"],
    fails: 0,
};

/// Its second record can't come there.
const TWICE_OPEN: File = File {
    name: "d",
    parts: &[START, OPEN, OPEN, END],
    fails: 0,
};

fn bytes(alloc: Global, parts: &[&[u8]]) -> Result<Vec<u8>, NoMemory> {
    let mut bytes = Vec::new(alloc);
    for part in parts {
        bytes.extend_from_slice(part)?;
    }
    Ok(bytes)
}

fn id(alloc: Global, name: &str) -> Result<PadId, Fail> {
    let text = Units::from_str(alloc, name)?;
    Ok(PadId::read(alloc, &text)?.ok_or(Failed)?)
}

fn mem_file(alloc: Global, file: &File) -> Result<MemFile, Fail> {
    Ok(MemFile {
        name: id(alloc, file.name)?,
        bytes: bytes(alloc, file.parts)?,
        fails: Vec::from_slice(alloc, &[file.fails])?,
    })
}

/// A shelf of these files. Its call of this number fails.
fn shelf(alloc: Global, files: &[File], fails: u64) -> Result<MemShelf, Fail> {
    let mut all = Vec::new(alloc);
    for file in files {
        all.push(mem_file(alloc, file)?)?;
    }
    Ok(MemShelf::new(alloc, all, Vec::from_slice(alloc, &[fails])?)?)
}

/// A word for what came of it.
fn word(answer: Result<Found, VerdictsBad<MemDisk>>) -> &'static str {
    match answer {
        Ok(Found::Sound) => "sound",
        Ok(Found::Broken) => "broken",
        Err(VerdictsBad::Shelf(_)) => "shelf",
        Err(VerdictsBad::Disk(_)) => "disk",
        Err(VerdictsBad::Sink) => "sink",
        Err(VerdictsBad::NoMemory) => "memory",
    }
}

/// Whether so many workers come to this over these files, and write this. The shelf's call of the one number fails, and
/// the sink's of the other.
fn judges<R: Threads>(
    rt: &R,
    alloc: Global,
    workers: u32,
    files: &[File],
    fails: (u64, u64),
    told: (&str, &str),
) -> Result<bool, Fail>
    requires { (1 ≤ workers) × (workers ≤ 64) }
{
    let mut shelf = shelf(alloc, files, fails.0)?;
    let mut sink = MemSink::new(alloc, Vec::from_slice(alloc, &[fails.1])?);
    let word = word(verify_to(rt, alloc, &mut shelf, &mut sink, workers));
    Ok(word == told.0 && sink.as_slice() == told.1.as_bytes())
}

const SOUND: &str = "\"a\" whole head 1 units 7\n\"b\" absent\n";

const ALL: &str =
    "\"a\" whole head 1 units 7\n\"b\" absent\n\"c\\n\\\"\\\\\" foreign\n\"d\" record 1\n";

#[test]
fn lines_by_one_and_by_many(rt: HostRuntime) -> Result<(), Fail> {
    for (files, told) in [
        ([DELETED, PAD].as_slice(), ("sound", SOUND)),
        (&[DELETED, PAD, TWICE_OPEN, FOREIGN], ("broken", ALL)),
    ] {
        assert!(rt;
            judges(&rt, rt.alloc(), 1, files, (0, 0), told)?,
            "one at {told:?}"
        );
        assert!(rt;
            judges(&rt, rt.alloc(), 4, files, (0, 0), told)?,
            "four at {told:?}"
        );
    }
    Ok(())
}

#[test]
fn failing_devices(rt: HostRuntime) -> Result<(), Fail> {
    for (deleted, fails, told) in [
        (DELETED, (3, 0), ("shelf", "")),
        (UNREAD, (0, 0), ("disk", "")),
        (DELETED, (0, 3), ("sink", SOUND)),
    ] {
        let files = [deleted, PAD, TWICE_OPEN, FOREIGN];
        assert!(rt;
            judges(&rt, rt.alloc(), 4, &files, fails, told)?,
            "at {told:?}"
        );
    }
    Ok(())
}

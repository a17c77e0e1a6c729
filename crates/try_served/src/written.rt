//! What writers tell, over a link, a source and a sink in memory.

use crate::messages::{COMMIT_1, DENY, EMPTY, coming};
use ep_disk_mem::{MemSink, MemSource};
use ep_link::MemLink;
use ep_units::{NoMemory, Units};
use ep_written::{Wrote, write_to};
use std::alloc::Global;
use std::sync::Wait;
use std::test::Fail;

/// Writes what the source has to a server's pad.
fn write<R: Wait>(
    rt: &R,
    alloc: Global,
    link: &mut MemLink,
    source: &mut MemSource,
    sink: &mut MemSink,
) -> Result<Wrote, NoMemory> {
    let pad = Units::from_str(alloc, "p")?;
    let token = Units::from_str(alloc, "t.1")?;
    Ok(write_to(rt, alloc, link, source, sink, &pad, &token))
}

/// Writes a script to a server that tells this.
fn write_script<R: Wait>(
    rt: &R,
    alloc: Global,
    texts: &[&str],
    script: &str,
    sink: &mut MemSink,
) -> Result<Wrote, NoMemory> {
    let mut link = MemLink::new(alloc, coming(alloc, texts)?, Vec::new(alloc));
    let bytes = Vec::from_slice(alloc, script.as_bytes())?;
    let mut source = MemSource::new(bytes, Vec::new(alloc));
    write(rt, alloc, &mut link, &mut source, sink)
}

/// Whether writing a script ends so, and this is told. The sink's writes of these numbers fail.
fn tells<R: Wait>(
    rt: &R,
    alloc: Global,
    texts: &[&str],
    script: &str,
    fails: &[u64],
    wanted: (Wrote, &str),
) -> Result<bool, NoMemory> {
    let mut sink = MemSink::new(alloc, Vec::from_slice(alloc, fails)?);
    let wrote = write_script(rt, alloc, texts, script, &mut sink)?;
    Ok(wrote == wanted.0 && sink.as_slice() == wanted.1.as_bytes())
}

#[test]
fn tells_what_came_of_it(rt: HostRuntime) -> Result<(), Fail> {
    for (texts, script, fails, wanted) in [
        (
            [EMPTY, COMMIT_1].as_slice(),
            "insert 0 hi",
            [].as_slice(),
            (Wrote::All, "rev 1 \"hi\\n\"\n"),
        ),
        (
            &[EMPTY],
            "insert 9 x",
            &[],
            (Wrote::BadLine, "error line 1 place\n"),
        ),
        (
            &[EMPTY],
            "\nhead",
            &[],
            (Wrote::BadLine, "error line 2 syntax\n"),
        ),
        (&[EMPTY], "insert 0 a", &[], (Wrote::LinkClosed, "")),
        (
            &[DENY],
            "",
            &[],
            (Wrote::Refused, "refused {\"accessStatus\":\"deny\"}\n"),
        ),
        (&["{}"], "", &[], (Wrote::Refused, "refused message\n")),
        (&[DENY], "", &[1], (Wrote::SinkFault, "")),
    ] {
        assert!(rt;
            tells(&rt, rt.alloc(), texts, script, fails, wanted)?,
            "at {wanted:?}"
        );
    }
    Ok(())
}

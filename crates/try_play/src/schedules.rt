//! Schedules whose lines an independent program worked out.

ghost use Rattle.std.specs.Prelude.{◌≤◌};

use ep_disk_mem::MemSink;
use ep_make::{MakeBad, make};
use std::alloc::Global;
use std::test::Fail;

/// Whether a schedule writes these lines.
fn makes(alloc: Global, number: u64, clients: u32, edits: u32, lines: &str) -> Result<bool, MakeBad>
    requires some { 1 ≤ clients }
    requires few { clients ≤ 64 }
    requires short { edits ≤ 100000 }
{
    let mut page = MemSink::new(alloc, Vec::new(alloc));
    make(alloc, &mut page, number, clients, edits)?;
    Ok(page.as_slice() == lines.as_bytes())
}

#[test]
fn lines_are_those_worked_out(rt: HostRuntime) {
    let alloc = rt.alloc();
    let lines = "clients 2\nedits 0\nrevisions 1\nunits 1\nagreeing 2\n";
    assert_eq!(rt; makes(alloc, 7, 2, 0, lines), Ok(true));
    let lines = "clients 1\nedits 1\nrevisions 2\nunits 2\nagreeing 1\n";
    assert_eq!(rt; makes(alloc, 0, 1, 1, lines), Ok(true));
    let lines = "clients 1\nedits 20\nrevisions 9\nunits 9\nagreeing 1\n";
    assert_eq!(rt; makes(alloc, 12746779759654841037, 1, 20, lines), Ok(true));
    let lines = "clients 10\nedits 6\nrevisions 7\nunits 5\nagreeing 10\n";
    assert_eq!(rt; makes(alloc, 6478530251362591854, 10, 6, lines), Ok(true));
}

#[test]
fn a_write_that_fails_is_told(rt: HostRuntime) -> Result<(), Fail> {
    let fails = vec![in rt.alloc(); 1]?;
    let mut page = MemSink::new(rt.alloc(), fails);
    assert_eq!(rt;
        make(rt.alloc(), &mut page, 0, 1, 1),
        Err(MakeBad::SinkFault)
    );
    Ok(())
}

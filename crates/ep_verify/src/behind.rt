//! What stands behind the records of a file.

ghost use Rattle.std.specs.Prelude.{◌≡◌, ◌+◌, drop, Some, IfOk, IfSome};
ghost use Rattle.ep_journal.specs.File.{end_of, stands_for};
ghost use Rattle.ep_verify.specs.Verdicts.{behind};

use ep_journal::{Records, scan};
use ep_units::NoMemory;
use std::alloc::Global;

/// A journal's header, and a gate that is open.
const OPEN: [u8; 9] = [69, 80, 65, 68, 74, 78, 76, 49, 1];

/// The place of the gate behind these records; none where no file is so long.
fn gate_behind(records: &Records) -> Option<usize>
    ensures { IfSome result (λ gate. gate ≡ end_of 8 records.now) }
{
    let mut gate: usize = 8;
    for i in 0..records.len() {
        gate = gate.checked_add(records.get(i).len())?.checked_add(5)?;
    }
    Some(gate)
}

/// All behind a gate.
fn all_behind(bytes: &[u8], gate: usize) -> &[u8]
    ensures { result.now ≡ drop (gate + 1) bytes.now }
{
    if gate < bytes.len() {
        &bytes[gate + 1..]
    } else {
        &bytes[bytes.len()..]
    }
}

/// How many whole records stand behind the first closed gate of a file with these records.
pub fn count_behind(alloc: Global, bytes: &[u8], records: &Records) -> Result<u64, NoMemory>
    requires { stands_for bytes.now ≡ Some records.now }
    ensures { IfOk result (λ count. count ≡ behind bytes.now) }
{
    let gate = gate_behind(records).ok_or(NoMemory)?;
    let mut opened = Vec::from_slice(alloc, &OPEN)?;
    opened.extend_from_slice(all_behind(bytes, gate))?;
    let Some(found) = scan(alloc, &opened)? else {
        return Ok(0);
    };
    Ok(found.len() as u64)
}

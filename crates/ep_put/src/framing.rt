//! Records as the bytes of a file.

ghost use Rattle.std.specs.Prelude.{◌≡◌, ◌≤◌, ◌++◌, ◌∷◌, [], None, false, length, IfErr, IfOk, OnOk, nat_lt};
ghost use Rattle.std.specs.List.{AllByRecursion};
ghost use Rattle.ep_history.specs.Machine.{most_bytes};
ghost use Rattle.ep_pad_file.specs.Standing.{size};
ghost use Rattle.ep_record.specs.Bytes.{IsRecord, bytes_of};
ghost use Rattle.ep_put.specs.Steps.{IsFull};
ghost use Rattle.ep_put.specs.Whole.{first_large, gated, gated_all};

use crate::bad::PutBad;
use ep_journal::RECORD_MAX;
use ep_record::{Record, encode};
use std::alloc::{AllocError, Global};

/// The bytes of a record, of which there aren't too many.
fn encoded(alloc: Global, entry: &Record) -> Result<Vec<u8>, PutBad>
    ensures bytes { IfOk result (λ bytes. bytes.items ≡ bytes_of entry.now) }
    ensures few { IfOk result (λ bytes. length bytes.items ≤ 67108864) }
    ensures is { OnOk result (IsRecord entry.now) }
    ensures small { OnOk result (nat_lt most_bytes (size entry.now) ≡ false) }
    ensures large { IfErr result (IsFull (first_large (entry.now ∷ []))) }
{
    let bytes = encode(alloc, entry)?;
    let size = bytes.len() as u64;
    if size > RECORD_MAX {
        return Err(PutBad::Full(size));
    }
    Ok(bytes)
}

/// Adds bytes behind an open gate.
fn add_gated(rec: &[u8], out: &mut Vec<u8>) -> Result<(), AllocError>
    requires { length rec.now ≤ 67108864 }
    ensures { OnOk result (out.new.items ≡ out.old.items ++ gated rec.now) }
{
    out.push(1)?;
    out.extend_from_slice(&(rec.len() as u32).to_be_bytes())?;
    out.extend_from_slice(rec)
}

/// Adds a record behind an open gate.
fn add(alloc: Global, entry: &Record, out: &mut Vec<u8>) -> Result<(), PutBad>
    ensures added { OnOk result (out.new.items ≡ out.old.items ++ gated (bytes_of entry.now)) }
    ensures is { OnOk result (IsRecord entry.now) }
    ensures small { OnOk result (nat_lt most_bytes (size entry.now) ≡ false) }
    ensures large { IfErr result (IsFull (first_large (entry.now ∷ []))) }
{
    let rec = encoded(alloc, entry)?;
    add_gated(&rec, out)?;
    Ok(())
}

/// Records behind open gates, and a closed gate.
pub fn gated_all(alloc: Global, records: &[Record]) -> Result<Vec<u8>, PutBad>
    ensures bytes { IfOk result (λ out. out.items ≡ gated_all records.now) }
    ensures are { OnOk result (AllByRecursion IsRecord records.now) }
    ensures small { OnOk result (first_large records.now ≡ None) }
    ensures large { IfErr result (IsFull (first_large records.now)) }
{
    let mut out = Vec::new(alloc);
    for entry in records {
        add(alloc, entry, &mut out)?;
    }
    out.push(0)?;
    Ok(out)
}

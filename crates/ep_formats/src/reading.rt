//! Records read from bytes.

ghost use Rattle.std.specs.Prelude.{◌≡◌, List, IfOk, IfSome, Some};
ghost use Rattle.ep_fields.specs.Reading.{Gives};
ghost use Rattle.ep_formats.specs.declared.record.Record.{Record};
ghost use Rattle.ep_formats.specs.Bytes.{IsEncoding};
ghost use Rattle.ep_formats.specs.Reading.{create_at, delete_at, framed_at, mark_at, nop_at, of_kind, open_at, public_at, record_at, rev_at, spacing_at};

use crate::laws::what_is_written_is_read;
use crate::record::Record;
use crate::writing::{USUAL_SPACING, written};
use ep_fields::{Fault, change_of, flag_of, frame_of, number_of, session_of, text_of};
use ep_frames::FrameMark;
use ep_units::NoMemory;
use std::alloc::Global;

#[tactic(auto, unfolding(crate::specs::Reading::mark_at))]
fn mark_of(alloc: Global, bytes: &[u8]) -> Result<FrameMark, Fault>
    ensures { Gives (λ m. m) result (mark_at bytes.now) }
{
    match bytes {
        [] => Err(Fault::NoRecord),
        [1, rest @ ..] => {
            let (doc, _) = frame_of(alloc, rest)?;
            Ok(FrameMark::Here(doc))
        }
        [2, ..] => Ok(FrameMark::Left),
        [_, ..] => Ok(FrameMark::None),
    }
}

/// Format 1 has no frames.
fn framed_of(alloc: Global, bytes: &[u8], format: u8) -> Result<FrameMark, Fault>
    ensures { Gives (λ m. m) result (framed_at format bytes.now) }
{
    if format == 1 {
        return Ok(FrameMark::None);
    }
    mark_of(alloc, bytes)
}

/// Format 1 has one spacing, which isn't written. One of more than 32 bits is none.
#[tactic(auto, unfolding(crate::specs::Reading::spacing_at))]
fn spacing_of(bytes: &[u8], format: u8) -> Result<(u32, &[u8]), Fault>
    ensures { Gives (λ x. (x.0, x.1.now)) result (spacing_at format bytes.now) }
{
    if format == 1 {
        return Ok((USUAL_SPACING, bytes));
    }
    let (spacing, rest) = number_of(bytes)?;
    if spacing > u64::from(u32::MAX) {
        return Err(Fault::NoRecord);
    }
    Ok((spacing as u32, rest))
}

#[tactic(auto, unfolding(crate::specs::Reading::open_at))]
fn open_of(bytes: &[u8]) -> Result<Record, Fault>
    ensures { Gives (λ r. r) result (open_at bytes.now) }
{
    let (epoch, _) = number_of(bytes)?;
    Ok(Record::Open { epoch })
}

#[tactic(auto, unfolding(crate::specs::Reading::create_at))]
fn create_of(alloc: Global, bytes: &[u8], format: u8) -> Result<Record, Fault>
    ensures { Gives (λ r. r) result (create_at format bytes.now) }
{
    let (birth, rest) = number_of(bytes)?;
    let (time, rest) = number_of(rest)?;
    let (spacing, rest) = spacing_of(rest, format)?;
    let (text, _) = text_of(alloc, rest)?;
    Ok(Record::Create {
        birth,
        time,
        spacing,
        text,
    })
}

#[tactic(auto, unfolding(crate::specs::Reading::rev_at))]
fn rev_of(alloc: Global, bytes: &[u8], format: u8) -> Result<Record, Fault>
    ensures { Gives (λ r. r) result (rev_at format bytes.now) }
{
    let (session, rest) = session_of(bytes)?;
    let (time, rest) = number_of(rest)?;
    let (author, rest) = text_of(alloc, rest)?;
    let (fixed, rest) = flag_of(rest)?;
    let (change, rest) = change_of(alloc, rest)?;
    let frame = framed_of(alloc, rest, format)?;
    Ok(Record::Rev {
        session,
        time,
        author,
        fixed,
        change,
        frame,
    })
}

#[tactic(auto, unfolding(crate::specs::Reading::delete_at))]
fn delete_of(bytes: &[u8]) -> Result<Record, Fault>
    ensures { Gives (λ r. r) result (delete_at bytes.now) }
{
    let (time, _) = number_of(bytes)?;
    Ok(Record::Delete { time })
}

#[tactic(auto, unfolding(crate::specs::Reading::public_at))]
fn public_of(bytes: &[u8]) -> Result<Record, Fault>
    ensures { Gives (λ r. r) result (public_at bytes.now) }
{
    let (on, _) = flag_of(bytes)?;
    Ok(Record::Public { on })
}

#[tactic(auto, unfolding(crate::specs::Reading::nop_at))]
fn nop_of(bytes: &[u8]) -> Result<Record, Fault>
    ensures { Gives (λ r. r) result (nop_at bytes.now) }
{
    let (session, rest) = session_of(bytes)?;
    let (time, _) = number_of(rest)?;
    Ok(Record::Nop { session, time })
}

fn of_kind(alloc: Global, kind: u8, bytes: &[u8], format: u8) -> Result<Record, Fault>
    ensures { Gives (λ r. r) result (of_kind format kind bytes.now) }
{
    match kind {
        1 => open_of(bytes),
        2 => create_of(alloc, bytes, format),
        3 => rev_of(alloc, bytes, format),
        4 => delete_of(bytes),
        5 => public_of(bytes),
        6 => nop_of(bytes),
        7 => Ok(Record::Format),
        _ => Err(Fault::NoRecord),
    }
}

/// The record that these bytes begin with, if they are one's.
#[tactic(auto, unfolding(crate::specs::Reading::record_at))]
fn record_of(alloc: Global, bytes: &[u8], format: u8) -> Result<Record, Fault>
    ensures { Gives (λ r. r) result (record_at format bytes.now) }
{
    match bytes {
        [] => Err(Fault::NoRecord),
        [kind, rest @ ..] => of_kind(alloc, *kind, rest, format),
    }
}

/// Only a record that is written so is the bytes': they have no other spelling of its fields and nothing more.
fn whole(alloc: Global, bytes: &[u8], format: u8) -> Result<Record, Fault>
    ensures found { IfOk result (λ r. IsEncoding format bytes.now r) }
    ensures only { (r : Record) → IsEncoding format bytes.now r → Gives (λ s. s) result (Some r) }
{
    what_is_written_is_read();
    let entry = record_of(alloc, bytes, format)?;
    let again = written(alloc, &entry, format)?;
    if again.as_slice() == bytes {
        Ok(entry)
    } else {
        Err(Fault::NoRecord)
    }
}

/// The record that the bytes are in a format, none where they are no record's. Each format but 1 is format 2.
pub fn decode(alloc: Global, bytes: &[u8], format: u8) -> Result<Option<Record>, NoMemory>
    // What is found has these bytes.
    ensures found { IfOk result (λ o. IfSome o (λ r. IsEncoding format bytes.now r)) }
    // A record with these bytes is found.
    ensures only { (r : Record) → IsEncoding format bytes.now r → IfOk result (λ o. o ≡ Some r) }
{
    match whole(alloc, bytes, format) {
        Ok(entry) => Ok(Some(entry)),
        Err(Fault::NoRecord) => Ok(None),
        Err(Fault::Memory) => Err(NoMemory),
    }
}

//! Records written as bytes.

ghost use Rattle.std.specs.Prelude.{◌≡◌, [], true, take, drop, length, IfOk, IsErrOf};
ghost use Rattle.ep_units.specs.Clean.{clean};
ghost use Rattle.ep_fields.specs.Bytes.{text, IsText};
ghost use Rattle.ep_fields.specs.Writing.{Adds};
ghost use Rattle.ep_formats.specs.Bytes.{bytes_of, framed, maker, marked, spaced, IsEncoding, IsFramed, IsMaker, IsMark, IsRecord, IsSpaced};

use crate::record::Record;
use ep_fields::{Fault, put_change, put_flag, put_frame, put_number, put_session, put_text};
use ep_frames::FrameMark;
use ep_units::{NoMemory, Session, Units};
use std::alloc::{AllocError, Global};

/// For how many bytes there is room at first: the record of a letter has fewer.
const ROOM: usize = 128;

/// A spacing is at most this.
const MOST_SPACING: u32 = 1000;

/// The spacing of format 1.
pub(crate) const USUAL_SPACING: u32 = 100;

/// Whether cleaning leaves the text as it is.
fn is_clean(alloc: Global, us: &Units) -> Result<bool, NoMemory>
    ensures { IfOk result (λ b. (b ≡ true → clean us.now ≡ us.now) × (clean us.now ≡ us.now → b ≡ true)) }
{
    Ok(us.clean(alloc)? == *us)
}

fn put_cleaned(alloc: Global, us: &Units, out: &mut Vec<u8>) -> Result<(), Fault>
    ensures { Adds result out.old.items out.new.items (text us.now) (IsText us.now × (clean us.now ≡ us.now)) }
{
    if !is_clean(alloc, us)? {
        return Err(Fault::NoRecord);
    }
    put_text(alloc, us, out)
}

/// Format 1 has one spacing, which isn't written.
fn put_spacing(spacing: u32, format: u8, out: &mut Vec<u8>) -> Result<(), Fault>
    ensures { Adds result out.old.items out.new.items (spaced format spacing) (IsSpaced format spacing) }
{
    if spacing == 0 || spacing > MOST_SPACING || (format == 1 && spacing != USUAL_SPACING) {
        return Err(Fault::NoRecord);
    }
    if format == 1 {
        return Ok(());
    }
    put_number(u64::from(spacing), out)
}

fn put_mark(alloc: Global, mark: &FrameMark, out: &mut Vec<u8>) -> Result<(), Fault>
    ensures { Adds result out.old.items out.new.items (marked mark.now) (IsMark mark.now) }
{
    match mark {
        FrameMark::None => Ok(out.push(0)?),
        FrameMark::Here(doc) => {
            out.push(1)?;
            put_frame(alloc, doc, out)
        }
        FrameMark::Left => Ok(out.push(2)?),
    }
}

/// Format 1 has no frames.
fn put_framed(alloc: Global, mark: &FrameMark, format: u8, out: &mut Vec<u8>) -> Result<(), Fault>
    ensures { Adds result out.old.items out.new.items (framed format mark.now) (IsFramed format mark.now) }
{
    if format != 1 {
        return put_mark(alloc, mark, out);
    }
    match mark {
        FrameMark::None => Ok(()),
        FrameMark::Here(_) => Err(Fault::NoRecord),
        FrameMark::Left => Err(Fault::NoRecord),
    }
}

fn put_create(
    alloc: Global,
    birth: u64,
    time: u64,
    spacing: u32,
    text: &Units,
    format: u8,
    out: &mut Vec<u8>,
) -> Result<(), Fault>
    ensures { Adds result out.old.items out.new.items (bytes_of format (Record.Create birth time spacing text.now)) (IsRecord format (Record.Create birth time spacing text.now)) }
{
    out.push(2)?;
    put_number(birth, out)?;
    put_number(time, out)?;
    put_spacing(spacing, format, out)?;
    put_cleaned(alloc, text, out)
}

/// Who made a revision and when, and whether a newline follows.
fn put_maker(
    alloc: Global,
    session: Session,
    time: u64,
    author: &Units,
    fixed: bool,
    out: &mut Vec<u8>,
) -> Result<(), Fault>
    ensures { Adds result out.old.items out.new.items (maker session time author.now fixed) (IsMaker session time author.now) }
{
    put_session(session, out)?;
    put_number(time, out)?;
    put_text(alloc, author, out)?;
    put_flag(fixed, out)
}

fn put(alloc: Global, entry: &Record, format: u8, out: &mut Vec<u8>) -> Result<(), Fault>
    ensures { Adds result out.old.items out.new.items (bytes_of format entry.now) (IsRecord format entry.now) }
{
    match entry {
        Record::Open { epoch } => {
            out.push(1)?;
            put_number(*epoch, out)
        }
        Record::Create {
            birth,
            time,
            spacing,
            text,
        } => put_create(alloc, *birth, *time, *spacing, text, format, out),
        Record::Rev {
            session,
            time,
            author,
            fixed,
            change,
            frame,
        } => {
            out.push(3)?;
            put_maker(alloc, *session, *time, author, *fixed, out)?;
            put_change(alloc, change, out)?;
            put_framed(alloc, frame, format, out)
        }
        Record::Delete { time } => {
            out.push(4)?;
            put_number(*time, out)
        }
        Record::Public { on } => {
            out.push(5)?;
            put_flag(*on, out)
        }
        Record::Nop { session, time } => {
            out.push(6)?;
            put_session(*session, out)?;
            put_number(*time, out)
        }
        Record::Format => Ok(out.push(7)?),
    }
}

/// An empty vector, in memory that is to spare.
fn cleared(alloc: Global, spare: Option<Vec<u8>>) -> Result<Vec<u8>, AllocError>
    ensures { IfOk result (λ v. v.items ≡ []) }
{
    let Some(mut out) = spare else {
        return Vec::with_capacity(alloc, ROOM);
    };
    out.clear();
    Ok(out)
}

/// The bytes of a record in a format, where it has some.
pub(crate) fn written(alloc: Global, entry: &Record, format: u8) -> Result<Vec<u8>, Fault>
    ensures bytes { IfOk result (λ v. IsEncoding format v.items entry.now) }
    ensures none { IsErrOf result (Fault.NoRecord) → IsRecord format entry.now → ⊥ }
{
    written_behind(alloc, &[], entry, format, None)
}

/// The same behind other bytes.
fn written_behind(
    alloc: Global,
    front: &[u8],
    entry: &Record,
    format: u8,
    spare: Option<Vec<u8>>,
) -> Result<Vec<u8>, Fault>
    ensures front { IfOk result (λ v. take (length front.now) v.items ≡ front.now) }
    ensures bytes { IfOk result (λ v. IsEncoding format (drop (length front.now) v.items) entry.now) }
    ensures none { IsErrOf result (Fault.NoRecord) → IsRecord format entry.now → ⊥ }
{
    let mut out = cleared(alloc, spare)?;
    out.extend_from_slice(front)?;
    put(alloc, entry, format, &mut out)?;
    Ok(out)
}

/// The bytes of a record in a format.
///
/// A record that has none is answered as for want of memory: one with half of a pair alone, with a text of 2^32 bytes or
/// more, a Create whose text isn't cleaned or whose spacing isn't 1 to 1,000, a frame of too many bytes, and in format 1 a
/// frame or another spacing than 100.
pub fn encode(alloc: Global, entry: &Record, format: u8) -> Result<Vec<u8>, NoMemory>
    ensures { IfOk result (λ v. IsEncoding format v.items entry.now) }
{
    match written(alloc, entry, format) {
        Ok(bytes) => Ok(bytes),
        Err(_) => Err(NoMemory),
    }
}

/// The same behind other bytes, in memory that is to spare.
pub fn encode_behind(
    alloc: Global,
    front: &[u8],
    entry: &Record,
    format: u8,
    spare: Option<Vec<u8>>,
) -> Result<Vec<u8>, NoMemory>
    ensures front { IfOk result (λ v. take (length front.now) v.items ≡ front.now) }
    ensures bytes { IfOk result (λ v. IsEncoding format (drop (length front.now) v.items) entry.now) }
{
    match written_behind(alloc, front, entry, format, spare) {
        Ok(bytes) => Ok(bytes),
        Err(_) => Err(NoMemory),
    }
}

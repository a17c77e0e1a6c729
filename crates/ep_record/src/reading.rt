//! Records read from bytes.

ghost use Rattle.std.specs.Prelude.{◌≡◌, List, length, IfOk, IfErr, OnOk, IfSome, Some, true, []};
ghost use Rattle.ep_attr.specs.AttrMap.{Pair};
ghost use Rattle.ep_pool.specs.Pool.{pair_of, put};
ghost use Rattle.ep_units.specs.Text.{is_well_formed};
ghost use Rattle.ep_csread.specs.Reading.{reading};
ghost use Rattle.ep_history.specs.declared.record.Record.{Record};
ghost use Rattle.ep_record.specs.Bytes.{IsEncoding};
ghost use Rattle.ep_record.specs.Reading.{Gives, change_at, count_at, ok_of, counted_at, create_at, delete_at, flag_at, nop_at, number_at, of_kind, open_at, pair_at, pairs_at, pool_at, public_at, record_at, rev_at, session_at, text_at, utf8_in};

use crate::fault::Fault;
use crate::laws::what_is_written_is_read;
use crate::writing::written;
use ep_attr::Attr;
use ep_cs::Change;
use ep_csread::{ReadBad, read};
use ep_history::Record;
use ep_pool::Pool;
use ep_units::{NoMemory, Session, Units};
use std::alloc::Global;
use std::str::from_utf8;

#[tactic(auto, unfolding(crate::specs::Reading::count_at))]
fn count_of(bytes: &[u8]) -> Result<(u32, &[u8]), Fault>
    ensures { Gives (λ x. (x.0, x.1.now)) result (count_at bytes.now) }
{
    if bytes.len() < 4 {
        return Err(Fault::NoRecord);
    }
    let (front, rest) = bytes.split_at(4);
    let n = u32::from_be_bytes([front[0], front[1], front[2], front[3]]);
    Ok((n, rest))
}

#[tactic(auto, unfolding(crate::specs::Reading::number_at))]
fn number_of(bytes: &[u8]) -> Result<(u64, &[u8]), Fault>
    ensures { Gives (λ x. (x.0, x.1.now)) result (number_at bytes.now) }
{
    if bytes.len() < 8 {
        return Err(Fault::NoRecord);
    }
    let (front, rest) = bytes.split_at(8);
    let n = u64::from_be_bytes([
        front[0], front[1], front[2], front[3], front[4], front[5], front[6], front[7],
    ]);
    Ok((n, rest))
}

#[tactic(auto, unfolding(crate::specs::Reading::session_at))]
fn session_of(bytes: &[u8]) -> Result<(Session, &[u8]), Fault>
    ensures { Gives (λ x. (x.0, x.1.now)) result (session_at bytes.now) }
{
    let (epoch, rest) = number_of(bytes)?;
    let (count, rest) = number_of(rest)?;
    Ok((Session { epoch, count }, rest))
}

#[tactic(auto, unfolding(crate::specs::Reading::flag_at))]
fn flag_of(bytes: &[u8]) -> Result<(bool, &[u8]), Fault>
    ensures { Gives (λ x. (x.0, x.1.now)) result (flag_at bytes.now) }
{
    match bytes {
        [] => Err(Fault::NoRecord),
        [b, rest @ ..] => Ok((*b == 1, rest)),
    }
}

#[tactic(auto, unfolding(crate::specs::Reading::counted_at))]
fn counted_of(bytes: &[u8]) -> Result<(&[u8], &[u8]), Fault>
    ensures { Gives (λ x. (x.0.now, x.1.now)) result (counted_at bytes.now) }
{
    let (len, rest) = count_of(bytes)?;
    let len = len as usize;
    if rest.len() < len {
        return Err(Fault::NoRecord);
    }
    Ok(rest.split_at(len))
}

#[tactic(auto, using(crate::proofs::Texts::utf8_is, crate::proofs::Texts::utf8_is_none))]
fn utf8_of(bytes: &[u8]) -> Result<&str, Fault>
    ensures { Gives (λ s. s.now) result (utf8_in bytes.now) }
{
    match from_utf8(bytes) {
        Ok(text) => Ok(text),
        Err(_) => Err(Fault::NoRecord),
    }
}

#[tactic(auto, unfolding(crate::specs::Reading::text_at))]
fn text_of(alloc: Global, bytes: &[u8]) -> Result<(Units, &[u8]), Fault>
    ensures read { Gives (λ x. (x.0, x.1.now)) result (text_at bytes.now) }
    ensures whole { IfOk result (λ x. is_well_formed x.0 ≡ true) }
{
    let (bytes, rest) = counted_of(bytes)?;
    let text = utf8_of(bytes)?;
    Ok((Units::from_str(alloc, text)?, rest))
}

#[tactic(auto, unfolding(crate::specs::Reading::pair_at))]
fn pair_of(alloc: Global, bytes: &[u8]) -> Result<(Attr, &[u8]), Fault>
    ensures { Gives (λ x. (pair_of x.0, x.1.now)) result (pair_at bytes.now) }
{
    let (key, rest) = text_of(alloc, bytes)?;
    let (value, rest) = text_of(alloc, rest)?;
    Ok((Attr { key, value }, rest))
}

/// Puts a pair into a pool. A pool that can number no more answers as for want of memory.
fn put(attr: Attr, pool: &mut Pool) -> Result<(), Fault>
    ensures pairs { OnOk result (pool.new.pairs ≡ put pool.old.pairs (pair_of attr)) }
    ensures memory { IfErr result (λ e. e ≡ Fault.Memory) }
{
    if !pool.can_number_more() {
        return Err(Fault::Memory);
    }
    pool.reserve(1)?;
    pool.put(attr);
    Ok(())
}

fn pairs_of(alloc: Global, count: u32, bytes: &[u8]) -> Result<(Pool, &[u8]), Fault>
    ensures { Gives (λ x. (x.0.pairs, x.1.now)) result (pairs_at count [] bytes.now) }
{
    let mut pool = Pool::new(alloc);
    let mut rest = bytes;
    for _ in 0..count {
        let (attr, after) = pair_of(alloc, rest)?;
        put(attr, &mut pool)?;
        rest = after;
    }
    Ok((pool, rest))
}

#[tactic(auto, unfolding(crate::specs::Reading::pool_at))]
fn pool_of(alloc: Global, bytes: &[u8]) -> Result<(Pool, &[u8]), Fault>
    ensures { Gives (λ x. (x.0.pairs, x.1.now)) result (pool_at bytes.now) }
{
    let (count, rest) = count_of(bytes)?;
    pairs_of(alloc, count, rest)
}

/// The change that a text spells.
fn spelled(alloc: Global, text: &Units, pool: &Pool) -> Result<Change, Fault>
    requires { is_well_formed text.now ≡ true }
    ensures { Gives (λ c. c) result (ok_of (reading pool.now.pairs text.now)) }
{
    match read(alloc, text, pool) {
        Ok(change) => Ok(change),
        Err(ReadBad::NoMemory) => Err(Fault::Memory),
        Err(_) => Err(Fault::NoRecord),
    }
}

#[tactic(auto, unfolding(crate::specs::Reading::change_at))]
fn change_of(alloc: Global, bytes: &[u8]) -> Result<(Change, &[u8]), Fault>
    ensures { Gives (λ x. (x.0, x.1.now)) result (change_at bytes.now) }
{
    let (text, rest) = text_of(alloc, bytes)?;
    let (pool, rest) = pool_of(alloc, rest)?;
    Ok((spelled(alloc, &text, &pool)?, rest))
}

#[tactic(auto, unfolding(crate::specs::Reading::open_at))]
fn open_of(bytes: &[u8]) -> Result<Record, Fault>
    ensures { Gives (λ r. r) result (open_at bytes.now) }
{
    let (epoch, _) = number_of(bytes)?;
    Ok(Record::Open { epoch })
}

#[tactic(auto, unfolding(crate::specs::Reading::create_at))]
fn create_of(alloc: Global, bytes: &[u8]) -> Result<Record, Fault>
    ensures { Gives (λ r. r) result (create_at bytes.now) }
{
    let (birth, rest) = number_of(bytes)?;
    let (time, rest) = number_of(rest)?;
    let (text, _) = text_of(alloc, rest)?;
    Ok(Record::Create { birth, time, text })
}

#[tactic(auto, unfolding(crate::specs::Reading::rev_at))]
fn rev_of(alloc: Global, bytes: &[u8]) -> Result<Record, Fault>
    ensures { Gives (λ r. r) result (rev_at bytes.now) }
{
    let (session, rest) = session_of(bytes)?;
    let (time, rest) = number_of(rest)?;
    let (author, rest) = text_of(alloc, rest)?;
    let (fixed, rest) = flag_of(rest)?;
    let (change, _) = change_of(alloc, rest)?;
    Ok(Record::Rev {
        session,
        time,
        author,
        fixed,
        change,
    })
}

#[tactic(auto, unfolding(crate::specs::Reading::delete_at))]
fn delete_of(bytes: &[u8]) -> Result<Record, Fault>
    ensures { Gives (λ r. r) result (delete_at bytes.now) }
{
    let (time, _) = number_of(bytes)?;
    Ok(Record::Delete { time })
}

#[tactic(auto, unfolding(crate::specs::Reading::public_at))]
fn public_of(bytes: &[u8]) -> Result<Record, Fault>
    ensures { Gives (λ r. r) result (public_at bytes.now) }
{
    let (on, _) = flag_of(bytes)?;
    Ok(Record::Public { on })
}

#[tactic(auto, unfolding(crate::specs::Reading::nop_at))]
fn nop_of(bytes: &[u8]) -> Result<Record, Fault>
    ensures { Gives (λ r. r) result (nop_at bytes.now) }
{
    let (session, rest) = session_of(bytes)?;
    let (time, _) = number_of(rest)?;
    Ok(Record::Nop { session, time })
}

fn of_kind(alloc: Global, kind: u8, bytes: &[u8]) -> Result<Record, Fault>
    ensures { Gives (λ r. r) result (of_kind kind bytes.now) }
{
    match kind {
        1 => open_of(bytes),
        2 => create_of(alloc, bytes),
        3 => rev_of(alloc, bytes),
        4 => delete_of(bytes),
        5 => public_of(bytes),
        6 => nop_of(bytes),
        _ => Err(Fault::NoRecord),
    }
}

/// The record that these bytes begin with, if they are one's.
#[tactic(auto, unfolding(crate::specs::Reading::record_at))]
fn record_of(alloc: Global, bytes: &[u8]) -> Result<Record, Fault>
    ensures { Gives (λ r. r) result (record_at bytes.now) }
{
    match bytes {
        [] => Err(Fault::NoRecord),
        [kind, rest @ ..] => of_kind(alloc, *kind, rest),
    }
}

/// Only a record that is written so is the bytes': they have no other spelling of the change and nothing more.
fn whole(alloc: Global, bytes: &[u8]) -> Result<Record, Fault>
    ensures found { IfOk result (λ r. IsEncoding bytes.now r) }
    ensures only { (r : Record) → IsEncoding bytes.now r → Gives (λ s. s) result (Some r) }
{
    what_is_written_is_read();
    let entry = record_of(alloc, bytes)?;
    let again = written(alloc, &entry)?;
    if again.as_slice() == bytes {
        Ok(entry)
    } else {
        Err(Fault::NoRecord)
    }
}

/// The record that the bytes are, none where they are no record's.
pub fn decode(alloc: Global, bytes: &[u8]) -> Result<Option<Record>, NoMemory>
    // What is found has these bytes.
    ensures found { IfOk result (λ o. IfSome o (λ r. IsEncoding bytes.now r)) }
    // A record with these bytes is found.
    ensures only { (r : Record) → IsEncoding bytes.now r → IfOk result (λ o. o ≡ Some r) }
{
    match whole(alloc, bytes) {
        Ok(entry) => Ok(Some(entry)),
        Err(Fault::NoRecord) => Ok(None),
        Err(Fault::Memory) => Err(NoMemory),
    }
}

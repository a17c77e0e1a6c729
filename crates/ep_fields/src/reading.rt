//! Fields read from the front of bytes.

ghost use Rattle.std.specs.Prelude.{◌≡◌, IfOk, IfErr, OnOk, true, []};
ghost use Rattle.ep_pool.specs.Pool.{pair_of, put};
ghost use Rattle.ep_units.specs.Text.{is_well_formed};
ghost use Rattle.ep_csread.specs.Reading.{reading, reading_attribs};
ghost use Rattle.ep_fields.specs.Reading.{Gives, change_at, count_at, ok_of, counted_at, flag_at, frame_at, number_at, pair_at, pairs_at, pool_at, session_at, text_at, utf8_in};

use crate::fault::Fault;
use ep_attr::Attr;
use ep_cs::Change;
use ep_csread::{ReadBad, read, read_attribs};
use ep_pool::Pool;
use ep_units::{Session, Units};
use std::alloc::Global;
use std::str::from_utf8;

#[tactic(auto, unfolding(crate::specs::Reading::count_at))]
fn count_of(bytes: &[u8]) -> Result<(u32, &[u8]), Fault>
    ensures { Gives (λ x. (x.0, x.1.now)) result (count_at bytes.now) }
{
    if bytes.len() < 4 {
        return Err(Fault::NoRecord);
    }
    let (front, rest) = bytes.split_at(4);
    let n = u32::from_be_bytes([front[0], front[1], front[2], front[3]]);
    Ok((n, rest))
}

#[tactic(auto, unfolding(crate::specs::Reading::number_at))]
pub fn number_of(bytes: &[u8]) -> Result<(u64, &[u8]), Fault>
    ensures { Gives (λ x. (x.0, x.1.now)) result (number_at bytes.now) }
{
    if bytes.len() < 8 {
        return Err(Fault::NoRecord);
    }
    let (front, rest) = bytes.split_at(8);
    let n = u64::from_be_bytes([
        front[0], front[1], front[2], front[3], front[4], front[5], front[6], front[7],
    ]);
    Ok((n, rest))
}

#[tactic(auto, unfolding(crate::specs::Reading::session_at))]
pub fn session_of(bytes: &[u8]) -> Result<(Session, &[u8]), Fault>
    ensures { Gives (λ x. (x.0, x.1.now)) result (session_at bytes.now) }
{
    let (epoch, rest) = number_of(bytes)?;
    let (count, rest) = number_of(rest)?;
    Ok((Session { epoch, count }, rest))
}

#[tactic(auto, unfolding(crate::specs::Reading::flag_at))]
pub fn flag_of(bytes: &[u8]) -> Result<(bool, &[u8]), Fault>
    ensures { Gives (λ x. (x.0, x.1.now)) result (flag_at bytes.now) }
{
    match bytes {
        [] => Err(Fault::NoRecord),
        [b, rest @ ..] => Ok((*b == 1, rest)),
    }
}

#[tactic(auto, unfolding(crate::specs::Reading::counted_at))]
fn counted_of(bytes: &[u8]) -> Result<(&[u8], &[u8]), Fault>
    ensures { Gives (λ x. (x.0.now, x.1.now)) result (counted_at bytes.now) }
{
    let (len, rest) = count_of(bytes)?;
    let len = len as usize;
    if rest.len() < len {
        return Err(Fault::NoRecord);
    }
    Ok(rest.split_at(len))
}

#[tactic(auto, using(crate::proofs::Texts::utf8_is, crate::proofs::Texts::utf8_is_none))]
fn utf8_of(bytes: &[u8]) -> Result<&str, Fault>
    ensures { Gives (λ s. s.now) result (utf8_in bytes.now) }
{
    match from_utf8(bytes) {
        Ok(text) => Ok(text),
        Err(_) => Err(Fault::NoRecord),
    }
}

#[tactic(auto, unfolding(crate::specs::Reading::text_at))]
pub fn text_of(alloc: Global, bytes: &[u8]) -> Result<(Units, &[u8]), Fault>
    ensures read { Gives (λ x. (x.0, x.1.now)) result (text_at bytes.now) }
    ensures whole { IfOk result (λ x. is_well_formed x.0 ≡ true) }
{
    let (bytes, rest) = counted_of(bytes)?;
    let text = utf8_of(bytes)?;
    Ok((Units::from_str(alloc, text)?, rest))
}

#[tactic(auto, unfolding(crate::specs::Reading::pair_at))]
fn pair_of(alloc: Global, bytes: &[u8]) -> Result<(Attr, &[u8]), Fault>
    ensures { Gives (λ x. (pair_of x.0, x.1.now)) result (pair_at bytes.now) }
{
    let (key, rest) = text_of(alloc, bytes)?;
    let (value, rest) = text_of(alloc, rest)?;
    Ok((Attr { key, value }, rest))
}

/// Puts a pair into a pool. A pool that can number no more answers as for want of memory.
fn put(attr: Attr, pool: &mut Pool) -> Result<(), Fault>
    ensures pairs { OnOk result (pool.new.pairs ≡ put pool.old.pairs (pair_of attr)) }
    ensures memory { IfErr result (λ e. e ≡ Fault.Memory) }
{
    if !pool.can_number_more() {
        return Err(Fault::Memory);
    }
    pool.reserve(1)?;
    pool.put(attr);
    Ok(())
}

fn pairs_of(alloc: Global, count: u32, bytes: &[u8]) -> Result<(Pool, &[u8]), Fault>
    ensures { Gives (λ x. (x.0.pairs, x.1.now)) result (pairs_at count [] bytes.now) }
{
    let mut pool = Pool::new(alloc);
    let mut rest = bytes;
    for _ in 0..count {
        let (attr, after) = pair_of(alloc, rest)?;
        put(attr, &mut pool)?;
        rest = after;
    }
    Ok((pool, rest))
}

#[tactic(auto, unfolding(crate::specs::Reading::pool_at))]
fn pool_of(alloc: Global, bytes: &[u8]) -> Result<(Pool, &[u8]), Fault>
    ensures { Gives (λ x. (x.0.pairs, x.1.now)) result (pool_at bytes.now) }
{
    let (count, rest) = count_of(bytes)?;
    pairs_of(alloc, count, rest)
}

/// The change that a text spells.
fn spelled(alloc: Global, text: &Units, pool: &Pool) -> Result<Change, Fault>
    requires { is_well_formed text.now ≡ true }
    ensures { Gives (λ c. c) result (ok_of (reading pool.now.pairs text.now)) }
{
    match read(alloc, text, pool) {
        Ok(change) => Ok(change),
        Err(ReadBad::NoMemory) => Err(Fault::Memory),
        Err(_) => Err(Fault::NoRecord),
    }
}

#[tactic(auto, unfolding(crate::specs::Reading::change_at))]
pub fn change_of(alloc: Global, bytes: &[u8]) -> Result<(Change, &[u8]), Fault>
    ensures { Gives (λ x. (x.0, x.1.now)) result (change_at bytes.now) }
{
    let (text, rest) = text_of(alloc, bytes)?;
    let (pool, rest) = pool_of(alloc, rest)?;
    Ok((spelled(alloc, &text, &pool)?, rest))
}

/// The document that an attributed text is, as the change that inserts it.
fn inserted(alloc: Global, text: &Units, attribs: &Units, pool: &Pool) -> Result<Change, Fault>
    requires { is_well_formed text.now ≡ true }
    ensures { Gives (λ c. c) result (ok_of (reading_attribs pool.now.pairs text.now attribs.now)) }
{
    match read_attribs(alloc, text, attribs, pool) {
        Ok(change) => Ok(change),
        Err(ReadBad::NoMemory) => Err(Fault::Memory),
        Err(_) => Err(Fault::NoRecord),
    }
}

/// The document that a frame is, as the change on no units that inserts it, and the bytes behind.
#[tactic(auto, unfolding(crate::specs::Reading::frame_at))]
pub fn frame_of(alloc: Global, bytes: &[u8]) -> Result<(Change, &[u8]), Fault>
    ensures { Gives (λ x. (x.0, x.1.now)) result (frame_at bytes.now) }
{
    let (text, rest) = text_of(alloc, bytes)?;
    let (attribs, rest) = text_of(alloc, rest)?;
    let (pool, rest) = pool_of(alloc, rest)?;
    Ok((inserted(alloc, &text, &attribs, &pool)?, rest))
}

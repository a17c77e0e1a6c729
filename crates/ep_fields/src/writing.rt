//! Fields written as bytes.

ghost use Rattle.std.specs.Prelude.{◌≡◌, ◌≤◌, ◌<◌, ◌+◌, ◌^◌, ℕ, slice_index, ◌++◌, ◌∷◌, [], true, false, take, drop, length, IfOk, OnOk, IsErrOf};
ghost use Rattle.std.specs.List.{flat_map, AllByRecursion};
ghost use Rattle.std.specs.String.{string_bytes};
ghost use Rattle.ep_units.specs.Text.{is_well_formed};
ghost use Rattle.ep_units.specs.Utf8.{utf8_of};
ghost use Rattle.ep_pool.specs.Pool.{pair_of};
ghost use Rattle.ep_fields.specs.Bytes.{change, count, flag, frame, number, pair, pool, session, text, IsChange, IsFrame, IsInsertion, IsNumber, IsPair, IsPool, IsSession, IsText};
ghost use Rattle.ep_cs.specs.Spelling.{old_len};
ghost use Rattle.ep_csread.specs.Spelling.{has_pairs, printed};
ghost use Rattle.ep_fields.specs.Writing.{Adds, begun, is_ascii};

use crate::fault::Fault;
use ep_attr::Attr;
use ep_cs::Change;
use ep_csread::{Wire, own_pool, print, print_attribs, print_front};
use ep_pool::Pool;
use ep_units::{NoMemory, Session, TextBad, Units, well_formed_has_no_lone_half};
use std::alloc::Global;

/// A count has so many bytes.
const COUNT: usize = 4;

/// A text in a record has at most so many bytes.
const MOST_BYTES: usize = u32::MAX as usize;

/// A frame has at most so many bytes.
pub const MOST_FRAME: usize = 16_777_216;

#[tactic(auto, unfolding(crate::specs::Bytes::number))]
pub fn put_number(n: u64, out: &mut Vec<u8>) -> Result<(), Fault>
    ensures { Adds result out.old.items out.new.items (number n) (IsNumber n) }
{
    out.extend_from_slice(&n.to_be_bytes())?;
    Ok(())
}

#[tactic(auto, unfolding(crate::specs::Bytes::count))]
fn put_count(n: u32, out: &mut Vec<u8>) -> Result<(), Fault>
    ensures { Adds result out.old.items out.new.items (count n) (n < 2 ^ 32) }
{
    out.extend_from_slice(&n.to_be_bytes())?;
    Ok(())
}

#[tactic(auto, unfolding(crate::specs::Bytes::session))]
pub fn put_session(by: Session, out: &mut Vec<u8>) -> Result<(), Fault>
    ensures { Adds result out.old.items out.new.items (session by) (IsSession by) }
{
    put_number(by.epoch, out)?;
    put_number(by.count, out)
}

pub fn put_flag(on: bool, out: &mut Vec<u8>) -> Result<(), Fault>
    ensures { Adds result out.old.items out.new.items (flag on) (Unit {0}) }
{
    out.push(if on { 1 } else { 0 })?;
    Ok(())
}

fn have_16_bits(units: &[u16])
    ensures { (i : ℕ) → slice_index units.now i < 2 ^ 16 }
{}

/// The bytes of a text, where it has some and they are few enough to be counted.
fn utf8(alloc: Global, us: &Units) -> Result<String, Fault>
    ensures bytes { IfOk result (λ s. string_bytes s ≡ utf8_of us.now) }
    ensures is { OnOk result (IsText us.now) }
    ensures none { IsErrOf result (Fault.NoRecord) → IsText us.now → ⊥ }
{
    well_formed_has_no_lone_half();
    let units = us.as_slice();
    have_16_bits(units);
    match us.to_text(alloc) {
        Ok(bytes) => {
            if bytes.len() > MOST_BYTES {
                return Err(Fault::NoRecord);
            }
            Ok(bytes)
        }
        Err(TextBad::LonePair(_)) => Err(Fault::NoRecord),
        Err(TextBad::NoMemory) => Err(Fault::Memory),
    }
}

/// Sets each byte to the low seven bits of its unit, and says whether no unit has more of them.
fn narrow(units: &[u16], bytes: &mut [u8]) -> bool
    requires { length units.now ≡ length bytes.old }
    ensures ascii { result ≡ is_ascii units.now }
    ensures bytes { result ≡ true → bytes.new ≡ units.now }
{
    let mut ascii = true;
    for i in 0..units.len() {
        ascii &= units[i] < 128;
        bytes[i] = (units[i] % 128) as u8;
    }
    ascii
}

/// Makes of four bytes, the front of a text and room for its rest how many bytes the text has, and the text. Says whether
/// the rest is ASCII; else they are of no use.
#[tactic(auto, unfolding(crate::specs::Bytes::count))]
fn set_text(rest: &[u16], bytes: &mut [u8]) -> bool
    requires room { COUNT + length rest.now ≤ length bytes.old }
    requires few { length bytes.old < COUNT + 2 ^ 32 }
    ensures ascii { result ≡ is_ascii rest.now }
    ensures bytes { result ≡ true → bytes.new ≡ count (length (begun bytes.old (length rest.now) ++ rest.now)) ++ (begun bytes.old (length rest.now) ++ rest.now) }
{
    let (count, text) = bytes.split_at_mut(COUNT);
    count.copy_from_slice(&(text.len() as u32).to_be_bytes());
    let (_, back) = text.split_at_mut(text.len() - rest.len());
    narrow(rest, back)
}

/// Makes room for how many bytes a text has.
#[inline(always)]
fn begin_text(out: &mut Vec<u8>) -> Result<(), NoMemory>
    ensures { OnOk result (out.new.items ≡ out.old.items ++ 0 ∷ 0 ∷ 0 ∷ 0 ∷ []) }
{
    out.push(0)?;
    out.push(0)?;
    out.push(0)?;
    out.push(0)?;
    Ok(())
}

/// Ends a text that was begun at a place, by four bytes and its front, which is ASCII. Where its rest is too, it is counted;
/// otherwise all of it goes, and this says so.
#[inline(always)]
fn end_text(at: usize, rest: &[u16], out: &mut Vec<u8>) -> Result<bool, Fault>
    requires room { at + COUNT ≤ length out.old.items }
    requires front { is_ascii (drop (at + COUNT) out.old.items) ≡ true }
    ensures put { IfOk result (λ ascii. ascii ≡ true → (out.new.items ≡ take at out.old.items ++ text (drop (at + COUNT) out.old.items ++ rest.now)) × IsText (drop (at + COUNT) out.old.items ++ rest.now)) }
    ensures not { IfOk result (λ ascii. ascii ≡ false → out.new.items ≡ take at out.old.items) }
    ensures memory { IsErrOf result (Fault.NoRecord) → ⊥ }
{
    let units = out.len() - at - COUNT + rest.len();
    if units > MOST_BYTES {
        out.truncate(at);
        return Ok(false);
    }
    out.resize(at + COUNT + units, 0)?;
    let (_, added) = out.split_at_mut(at);
    let ascii = set_text(rest, added);
    if !ascii {
        out.truncate(at);
    }
    Ok(ascii)
}

/// Appends a text that is ASCII, whose bytes are its units. Otherwise it appends nothing, and says so.
fn put_ascii(units: &[u16], out: &mut Vec<u8>) -> Result<bool, Fault>
    ensures put { IfOk result (λ ascii. ascii ≡ true → (out.new.items ≡ out.old.items ++ text units.now) × IsText units.now) }
    ensures not { IfOk result (λ ascii. ascii ≡ false → out.new.items ≡ out.old.items) }
    ensures memory { IsErrOf result (Fault.NoRecord) → ⊥ }
{
    let at = out.len();
    begin_text(out)?;
    end_text(at, units, out)
}

/// Appends the spelling of a change that is ASCII. Otherwise it appends nothing, and says so.
fn put_spelling(
    alloc: Global,
    done: &Change,
    pairs: &Pool,
    out: &mut Vec<u8>,
) -> Result<bool, Fault>
    requires { has_pairs pairs.now.pairs done.now.runs ≡ true }
    ensures put { IfOk result (λ ascii. ascii ≡ true → (out.new.items ≡ out.old.items ++ text (printed pairs.now.pairs done.now)) × IsText (printed pairs.now.pairs done.now)) }
    ensures not { IfOk result (λ ascii. ascii ≡ false → out.new.items ≡ out.old.items) }
    ensures memory { IsErrOf result (Fault.NoRecord) → ⊥ }
{
    let at = out.len();
    begin_text(out)?;
    print_front(alloc, done, pairs, out)?;
    end_text(at, done.bank().as_slice(), out)
}

#[tactic(auto, unfolding(crate::specs::Bytes::text))]
fn put_utf8(alloc: Global, us: &Units, out: &mut Vec<u8>) -> Result<(), Fault>
    ensures { Adds result out.old.items out.new.items (text us.now) (IsText us.now) }
{
    let bytes = utf8(alloc, us)?;
    put_count(bytes.len() as u32, out)?;
    out.extend_from_slice(bytes.as_bytes())?;
    Ok(())
}

/// Most texts are ASCII, and need no string.
#[inline(always)]
pub fn put_text(alloc: Global, us: &Units, out: &mut Vec<u8>) -> Result<(), Fault>
    ensures { Adds result out.old.items out.new.items (text us.now) (IsText us.now) }
{
    if put_ascii(us.as_slice(), out)? {
        return Ok(());
    }
    put_utf8(alloc, us, out)
}

/// Appends the spelling of a change. Most are ASCII, and need no text.
fn put_spelled(alloc: Global, done: &Change, pairs: &Pool, out: &mut Vec<u8>) -> Result<(), Fault>
    requires { has_pairs pairs.now.pairs done.now.runs ≡ true }
    ensures { Adds result out.old.items out.new.items (text (printed pairs.now.pairs done.now)) (IsText (printed pairs.now.pairs done.now)) }
{
    if put_spelling(alloc, done, pairs, out)? {
        return Ok(());
    }
    put_utf8(alloc, &print(alloc, done, pairs)?, out)
}

#[tactic(auto, unfolding(crate::specs::Bytes::pair))]
fn put_pair(alloc: Global, attr: &Attr, out: &mut Vec<u8>) -> Result<(), Fault>
    ensures { Adds result out.old.items out.new.items (pair (pair_of attr.now)) (IsPair (pair_of attr.now)) }
{
    put_text(alloc, &attr.key, out)?;
    put_text(alloc, &attr.value, out)
}

fn put_pairs(alloc: Global, pairs: &Pool, out: &mut Vec<u8>) -> Result<(), Fault>
    ensures { Adds result out.old.items out.new.items (flat_map pair pairs.now.pairs) (AllByRecursion IsPair pairs.now.pairs) }
{
    for n in 0..pairs.len() {
        if let Some(attr) = pairs.get(n) {
            put_pair(alloc, attr, out)?;
        }
    }
    Ok(())
}

#[tactic(auto, unfolding(crate::specs::Bytes::pool))]
fn put_pool(alloc: Global, pairs: &Pool, out: &mut Vec<u8>) -> Result<(), Fault>
    ensures { Adds result out.old.items out.new.items (pool pairs.now.pairs) (IsPool pairs.now.pairs) }
{
    put_count(pairs.len(), out)?;
    put_pairs(alloc, pairs, out)
}

#[tactic(auto, unfolding(crate::specs::Bytes::change))]
#[inline(always)]
pub fn put_change(alloc: Global, done: &Change, out: &mut Vec<u8>) -> Result<(), Fault>
    ensures { Adds result out.old.items out.new.items (change done.now) (IsChange done.now) }
{
    let _runs = done.ops();
    let pairs = own_pool(alloc, done)?;
    put_spelled(alloc, done, &pairs, out)?;
    put_pool(alloc, &pairs, out)
}

/// Appends the document that a change on no units inserts, as a frame.
#[tactic(auto, unfolding(crate::specs::Bytes::frame))]
fn put_framed(alloc: Global, doc: &Change, out: &mut Vec<u8>) -> Result<(), Fault>
    requires { old_len doc.now.edit ≡ 0 }
    ensures { Adds result out.old.items out.new.items (frame doc.now) (IsInsertion doc.now) }
{
    let _runs = doc.ops();
    let Wire { text, pool } = print_attribs(alloc, doc)?;
    put_text(alloc, doc.bank(), out)?;
    put_text(alloc, &text, out)?;
    put_pool(alloc, &pool, out)
}

/// Appends a document as a frame. A change that isn't on no units has none, nor has a document of too many bytes.
pub fn put_frame(alloc: Global, doc: &Change, out: &mut Vec<u8>) -> Result<(), Fault>
    ensures { Adds result out.old.items out.new.items (frame doc.now) (IsFrame doc.now) }
{
    if doc.old_len() != 0 {
        return Err(Fault::NoRecord);
    }
    let at = out.len();
    put_framed(alloc, doc, out)?;
    if out.len() - at > MOST_FRAME {
        return Err(Fault::NoRecord);
    }
    Ok(())
}

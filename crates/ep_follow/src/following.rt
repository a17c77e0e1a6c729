//! The change that follows another.

ghost use Rattle.std.specs.Prelude.{◌≡◌, true, IfOk};
ghost use Rattle.ep_cs.specs.Doc.{Doc};
ghost use Rattle.ep_cs.specs.Edit.{apply};
ghost use Rattle.ep_cs.specs.Fits.{Fits, is_identity};
ghost use Rattle.ep_follow.specs.Follows.{is_a, Follows};
ghost use Rattle.ep_follow.specs.Following.{IsFollower};

use crate::step::walk;
use crate::writer::Writer;
use ep_cs::{Builder, Change, First, MOST_UNITS};
use ep_cursor::Cursor;
use ep_units::NoMemory;
use std::alloc::Global;

/// What follows, written as far as the second change goes.
fn written(alloc: Global, a: &Change, b: &Change, first: First) -> Result<Builder, NoMemory>
    requires { (doc : Doc) × Fits a.now doc × Fits b.now doc }
    ensures { IfOk result (λ out. (doc : Doc) → Fits a.now doc → Fits b.now doc → IsFollower (is_a first) a.now b.now doc out) }
{
    let room = MOST_UNITS - a.new_len();
    if b.bank().len() > room as usize {
        return Err(NoMemory);
    }
    let runs = a.ops().len().saturating_add(b.ops().len());
    let builder = Builder::with_capacity(alloc, a.new_len(), runs, b.bank().len())?;
    let mut writer = Writer::new(builder);
    let mut left = Cursor::new(a);
    let mut right = Cursor::new(b);
    walk(alloc, &mut writer, &mut left, &mut right, first)?;
    // The units that still wait are kept as all that is left.
    Ok(writer.out)
}

/// What follows, written piece by piece.
fn walked(alloc: Global, a: &Change, b: &Change, first: First) -> Result<Change, NoMemory>
    requires { (doc : Doc) × Fits a.now doc × Fits b.now doc }
    ensures exact { IfOk result (λ c. Follows first a.now b.now c) }
    ensures fits { IfOk result (λ c. (doc : Doc) → Fits a.now doc → Fits b.now doc → Fits c (apply a.now.edit doc)) }
    ensures through { IfOk result (λ c. is_identity a.now.edit ≡ true → c ≡ b.now) }
    ensures nothing { IfOk result (λ c. is_identity b.now.edit ≡ true → is_identity c.edit ≡ true) }
{
    written(alloc, a, b, first)?.finish()
}

/// The second of two changes of one document, as a change of what the first makes of it: it keeps what the first
/// inserts, inserts what the second inserts, and drops and paints what is left. At a gap where both insert and nothing
/// else decides, `first` says whose piece goes first. It fits the first's result of every document that both fit.
/// Where the first's result and the second's insertions have 2^32 units or more together, memory is said to be wanting,
/// but where one of them alters nothing.
pub fn follow(alloc: Global, a: &Change, b: &Change, first: First) -> Result<Change, NoMemory>
    requires { (doc : Doc) × Fits a.now doc × Fits b.now doc }
    ensures exact { IfOk result (λ c. Follows first a.now b.now c) }
    ensures fits { IfOk result (λ c. (doc : Doc) → Fits a.now doc → Fits b.now doc → Fits c (apply a.now.edit doc)) }
    ensures through { IfOk result (λ c. is_identity a.now.edit ≡ true → c ≡ b.now) }
    ensures nothing { IfOk result (λ c. is_identity b.now.edit ≡ true → is_identity c.edit ≡ true) }
{
    // Their runs are normal.
    let _first = a.ops();
    let _second = b.ops();
    if a.is_identity() {
        return b.copy(alloc);
    }
    if b.is_identity() {
        return Ok(Change::identity(alloc, a.new_len()));
    }
    walked(alloc, a, b, first)
}

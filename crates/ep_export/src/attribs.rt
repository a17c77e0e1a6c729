//! The attributes of a document, with the numbers of a pool that has them.

ghost use Rattle.std.specs.Prelude.{◌≡◌, ◌+◌, ◌-◌, ◌<◌, ◌++◌, length, take, drop, true, IfOk};
ghost use Rattle.ep_units.specs.Base36.{write36};
ghost use Rattle.ep_cs.specs.Change.{bank_of};
ghost use Rattle.ep_cs.specs.Spelling.{new_len, old_len};
ghost use Rattle.ep_csread.specs.Spelling.{has_pairs, ops_text, printed};

use ep_cs::Change;
use ep_csread::print_front;
use ep_pool::Pool;
use ep_units::{NoMemory, Units, write36};
use std::alloc::Global;

/// How many units stand before the operations of a change on no units: `Z:`, 0, `>` and its length.
fn before(alloc: Global, change: &Change) -> Result<usize, NoMemory>
    ensures { IfOk result (λ n. n ≡ 3 + length (write36 0 ++ write36 (new_len change.now.edit))) }
{
    let mut lengths = Units::new(alloc);
    write36(0, &mut lengths)?;
    write36(u64::from(change.new_len()), &mut lengths)?;
    Ok(lengths.len().saturating_add(3))
}

/// The units from a place on, without the last.
fn part(alloc: Global, units: &[u16], start: usize) -> Result<Units, NoMemory>
    requires { start < length units.now }
    ensures { IfOk result (λ us. us ≡ take (length units.now - 1 - start) (drop start units.now)) }
{
    let end = units.len() - 1;
    Units::from_slice(alloc, &units[start..end])
}

/// The spelling up to the bank.
fn front(alloc: Global, change: &Change, pool: &Pool) -> Result<Units, NoMemory>
    requires { has_pairs pool.now.pairs change.now.runs ≡ true }
    ensures { IfOk result (λ out. out ++ bank_of change.now.edit ≡ printed pool.now.pairs change.now) }
{
    let mut out = Units::new(alloc);
    print_front(alloc, change, pool, &mut out)?;
    Ok(out)
}

/// The operations alone of a change on no units, with a pool that has its pairs.
pub fn spell_attribs(alloc: Global, change: &Change, pool: &Pool) -> Result<Units, NoMemory>
    requires nothing { old_len change.now.edit ≡ 0 }
    requires pairs { has_pairs pool.now.pairs change.now.runs ≡ true }
    ensures { IfOk result (λ us. us ≡ ops_text pool.now.pairs change.now.runs) }
{
    let front = front(alloc, change, pool)?;
    let start = before(alloc, change)?;
    part(alloc, front.as_slice(), start)
}

//! Changes in wire form: each with a pool of its own, of just the pairs that it names.

ghost use Rattle.std.specs.Prelude.{◌≡◌, true, fold, IfOk, OnOk};
ghost use Rattle.std.specs.List.{flat_map};
ghost use Rattle.ep_attr.specs.Attrs.{pairs_of};
ghost use Rattle.ep_pool.specs.Pool.{pair_of, put};
ghost use Rattle.ep_cs.specs.Spelling.{old_len};
ghost use Rattle.ep_csread.specs.Spelling.{has_pairs, ops_text, pairs_named, printed};

use crate::printing::{print, write_ops};
use ep_attr::Attr;
use ep_cs::{Change, Op};
use ep_pool::Pool;
use ep_units::{NoMemory, Units};
use std::alloc::Global;

/// A text of changeset operations, and the pool by which it numbers attributes.
#[derive(Drop)]
pub struct Wire {
    pub text: Units,
    pub pool: Pool,
}

/// Puts the attribute where it isn't there yet. A pool that can number no more answers as for want of memory.
#[tactic(auto, using(crate::proofs::WirePool::put_found))]
fn put(alloc: Global, attr: &Attr, pool: &mut Pool) -> Result<(), NoMemory>
    ensures { OnOk result (pool.new.pairs ≡ put pool.old.pairs (pair_of attr.now)) }
{
    if pool.find(attr).is_none() {
        if !pool.can_number_more() {
            return Err(NoMemory);
        }
        let key = attr.key.copy(alloc)?;
        let value = attr.value.copy(alloc)?;
        pool.reserve(1)?;
        pool.put(Attr { key, value });
    }
    Ok(())
}

fn put_all(alloc: Global, attrs: &[Attr], pool: &mut Pool) -> Result<(), NoMemory>
    ensures { OnOk result (pool.new.pairs ≡ fold put pool.old.pairs (pairs_of attrs.now)) }
{
    for attr in attrs {
        put(alloc, attr, pool)?;
    }
    Ok(())
}

/// Puts the pairs that operations name.
pub(crate) fn put_ops(alloc: Global, ops: &[Op], pool: &mut Pool) -> Result<(), NoMemory>
    ensures { OnOk result (pool.new.pairs ≡ fold put pool.old.pairs (flat_map (λ o. o.attrs.pairs) ops.now)) }
{
    for op in ops {
        put_all(alloc, op.attrs.pairs(), pool)?;
    }
    Ok(())
}

/// The pool of just the pairs that operations name.
fn pool_of(alloc: Global, ops: &[Op]) -> Result<Pool, NoMemory>
    ensures { IfOk result (λ pool. pool.pairs ≡ pairs_named ops.now) }
{
    let mut pool = Pool::new(alloc);
    put_ops(alloc, ops, &mut pool)?;
    Ok(pool)
}

/// The pool of just the pairs that a change names.
#[tactic(auto, using(crate::proofs::WirePool::named_there))]
pub fn own_pool(alloc: Global, change: &Change) -> Result<Pool, NoMemory>
    ensures pairs { IfOk result (λ pool. pool.pairs ≡ pairs_named change.now.runs) }
    ensures has { IfOk result (λ pool. has_pairs pool.pairs change.now.runs ≡ true) }
{
    pool_of(alloc, change.ops())
}

/// The normal spelling of a change with the pool of its own pairs.
#[tactic(auto, using(crate::proofs::WirePool::named_there, crate::proofs::WirePool::printed_named))]
pub fn for_wire(alloc: Global, change: &Change) -> Result<Wire, NoMemory>
    ensures text { IfOk result (λ wire. wire.text ≡ printed (pairs_named change.now.runs) change.now) }
    ensures pool { IfOk result (λ wire. wire.pool.pairs ≡ pairs_named change.now.runs) }
{
    let pool = own_pool(alloc, change)?;
    let text = print(alloc, change, &pool)?;
    Ok(Wire { text, pool })
}

/// The operations alone of a change that makes a whole text, which are `+` operations, with the pool of
/// their own pairs. The text itself is the change's bank.
#[tactic(auto, using(crate::proofs::WirePool::named_there))]
pub fn print_attribs(alloc: Global, change: &Change) -> Result<Wire, NoMemory>
    requires { old_len change.now.edit ≡ 0 }
    ensures text { IfOk result (λ wire. wire.text ≡ ops_text (pairs_named change.now.runs) change.now.runs) }
    ensures pool { IfOk result (λ wire. wire.pool.pairs ≡ pairs_named change.now.runs) }
{
    let pool = pool_of(alloc, change.ops())?;
    let mut text = Units::new(alloc);
    write_ops(alloc, change.ops(), &pool, &mut text)?;
    Ok(Wire { text, pool })
}

//! Changes in wire form with one pool for all of them.

ghost use Rattle.std.specs.Prelude.{◌≡◌, true, map, IfOk};
ghost use Rattle.std.specs.List.{list_all};
ghost use Rattle.ep_csread.specs.Spelling.{all_named, has_pairs, printed};

use crate::printing::print;
use crate::wire::put_ops;
use ep_cs::Change;
use ep_pool::Pool;
use ep_units::{NoMemory, Units};
use std::alloc::Global;

/// Texts of changesets, and the one pool by which they number attributes.
#[derive(Drop)]
pub struct Wires {
    pub texts: Vec<Units>,
    pub pool: Pool,
}

/// The pool of just the pairs that changes name.
fn pool_of_all(alloc: Global, changes: &[Change]) -> Result<Pool, NoMemory>
    ensures { IfOk result (λ pool. pool.pairs ≡ all_named changes.now) }
{
    let mut pool = Pool::new(alloc);
    for change in changes {
        put_ops(alloc, change.ops(), &mut pool)?;
    }
    Ok(pool)
}

fn spelled(alloc: Global, changes: &[Change], pool: &Pool) -> Result<Vec<Units>, NoMemory>
    requires { list_all (λ c. has_pairs pool.now.pairs c.runs) changes.now ≡ true }
    ensures { IfOk result (λ texts. texts.items ≡ map (printed pool.now.pairs) changes.now) }
{
    let mut texts = Vec::with_capacity(alloc, changes.len())?;
    for change in changes {
        texts.push(print(alloc, change, pool)?)?;
    }
    Ok(texts)
}

/// The normal spellings of changes with one pool, which numbers their pairs in the order in which they come.
pub fn for_wire_all(alloc: Global, changes: &[Change]) -> Result<Wires, NoMemory>
    ensures texts { IfOk result (λ wires. wires.texts.items ≡ map (printed (all_named changes.now)) changes.now) }
    ensures pool { IfOk result (λ wires. wires.pool.pairs ≡ all_named changes.now) }
{
    let pool = pool_of_all(alloc, changes)?;
    let texts = spelled(alloc, changes, &pool)?;
    Ok(Wires { texts, pool })
}

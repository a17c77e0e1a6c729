//! The attributes of documents as they are printed.

ghost use Rattle.std.specs.Prelude.{◌≡◌, IfOk, string_bytes};
ghost use Rattle.serde_json.specs.Written.{compact_text};
ghost use Rattle.ep_pool.specs.Json.{pool_json};
ghost use Rattle.ep_print.specs.Marks.{attribs_out, pool_out};

use ep_apply::Doc;
use ep_csread::print_attribs;
use ep_pool::Pool;
use ep_units::NoMemory;
use std::alloc::Global;

/// What is printed of a document's attributes.
#[derive(Drop)]
pub(crate) struct Marks {
    pub attribs: String,
    pub pool: String,
}

#[tactic(auto, using(crate::proofs::Floats::no_floats))]
fn print_pool(alloc: Global, pool: &Pool) -> Result<String, NoMemory>
    ensures { IfOk result (λ s. string_bytes s ≡ compact_text (pool_json pool.now.pairs)) }
{
    Ok(pool.to_json(alloc)?.to_string(alloc)?)
}

pub(crate) fn print_marks(alloc: Global, doc: &Doc) -> Result<Marks, NoMemory>
    ensures attribs { IfOk result (λ m. string_bytes m.attribs ≡ attribs_out doc.now) }
    ensures pool { IfOk result (λ m. string_bytes m.pool ≡ pool_out doc.now) }
{
    let wire = print_attribs(alloc, &doc.as_insert(alloc)?)?;
    let attribs = wire.text.to_text_lossy(alloc)?;
    let pool = print_pool(alloc, &wire.pool)?;
    Ok(Marks { attribs, pool })
}

//! Who is named.

ghost use Rattle.std.specs.Prelude.{◌≡◌, IfOk};
ghost use Rattle.std.specs.List.{list_any};
ghost use Rattle.ep_history.specs.Accept.{names_author};
ghost use Rattle.ep_sign.specs.Signing.{inserts_another, naming};
ghost use Rattle.ep_sign.specs.Writing.{is_anothers};

use ep_attr::{Attr, AttrMap};
use ep_cs::{Change, Kind, Op};
use ep_units::{NoMemory, Units};
use std::alloc::Global;

/// The key `author`.
const AUTHOR: [u16; 6] = [97, 117, 116, 104, 111, 114];

/// Whether a map names this author, or none.
pub fn names_author(author: &Units, attrs: &AttrMap) -> bool
    ensures { result ≡ names_author author.now attrs.now }
{
    match attrs.get(&AUTHOR) {
        None => true,
        Some(named) => named.is_empty() || named == author,
    }
}

/// Whether an operation inserts units that name another.
fn is_anothers(author: &Units, op: &Op) -> bool
    ensures { result ≡ is_anothers author.now op.now }
{
    match op.kind {
        Kind::Keep => false,
        Kind::Drop => false,
        Kind::Insert => !names_author(author, &op.attrs),
    }
}

/// Whether some operation does.
fn any_anothers(author: &Units, ops: &[Op]) -> bool
    ensures { result ≡ list_any (is_anothers author.now) ops.now }
{
    ops.iter().any(|op| is_anothers(author, op))
}

/// Whether a change inserts units that name another.
pub fn inserts_another(author: &Units, change: &Change) -> bool
    ensures { result ≡ inserts_another author.now change.now.edit }
{
    any_anothers(author, change.ops())
}

/// The map of one pair, which names an author.
pub fn naming(alloc: Global, author: &Units) -> Result<AttrMap, NoMemory>
    ensures { IfOk result (λ m. m ≡ naming author.now) }
{
    AttrMap::read(
        alloc,
        &[Attr {
            key: Units::from_slice(alloc, &AUTHOR)?,
            value: author.copy(alloc)?,
        }],
    )
}

//! Whether two changes are the same.

ghost use Rattle.std.specs.Prelude.{◌≡◌, ◌↔◌, IsTrue};
ghost use Rattle.ep_cs.specs.Normal.{same_kind as same_kind_of};
ghost use Rattle.ep_replay.specs.Same.{same_op, same_ops};

use ep_cs::{Change, Kind, Op};
use ep_units::Units;

fn same_kind(a: Kind, b: Kind) -> bool
    ensures { result ≡ same_kind_of a b }
{
    match (a, b) {
        (Kind::Keep, Kind::Keep) => true,
        (Kind::Drop, Kind::Drop) => true,
        (Kind::Insert, Kind::Insert) => true,
        (_, _) => false,
    }
}

fn same_op(a: &Op, b: &Op) -> bool
    ensures { result ≡ same_op a.now b.now }
{
    same_kind(a.kind, b.kind) && a.units == b.units && a.lines == b.lines && a.attrs == b.attrs
}

fn same_ops(a: &[Op], b: &[Op]) -> bool
    ensures { result ≡ same_ops a.now b.now }
{
    let mut rest = b;
    for op in a {
        let Some((other, later)) = rest.split_first() else {
            return false;
        };
        if !same_op(op, other) {
            return false;
        }
        rest = later;
    }
    rest.is_empty()
}

/// Whether two texts are the same.
pub fn is_same(a: &Units, b: &Units) -> bool
    ensures { IsTrue result ↔ (a.now ≡ b.now) }
{
    *a == *b
}

/// Whether two changes are the same.
#[tactic(auto, using(crate::proofs::Sameness::same_ops_true, crate::proofs::Sameness::same_ops_told, crate::proofs::Sameness::one_change))]
pub fn same_change(a: &Change, b: &Change) -> bool
    ensures { IsTrue result ↔ (a.now ≡ b.now) }
{
    a.old_len() == b.old_len() && same_ops(a.ops(), b.ops()) && is_same(a.bank(), b.bank())
}

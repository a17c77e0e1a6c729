//! Operations that are one splice.

ghost use Rattle.std.specs.Prelude.{◌≡◌, ◌<◌, ◌^◌, true, length, IfSome};
ghost use Rattle.ep_attr.specs.AttrMap.{is_none};
ghost use Rattle.ep_cs.specs.Runs.{cells, all_passed, all_inserted};
ghost use Rattle.ep_apply.specs.Splices.{AreSplice, BeginWith};

use ep_attr::AttrMap;
use ep_blocks::{Splice, Stretch};
use ep_cs::{Kind, Op};

/// How many units the first of some operations pass, and the others.
#[derive(Clone, Copy)]
struct Begun<'a> {
    units: u32,
    rest: &'a [Op],
}

/// Whether an operation keeps, or drops, as asked, and gives no map.
fn is_bare(op: &Op, kind: Kind) -> bool
    ensures kind { result ≡ true → op.now.kind ≡ kind }
    ensures bare { result ≡ true → is_none op.now.attrs ≡ true }
{
    match (op.kind, kind) {
        (Kind::Keep, Kind::Keep) | (Kind::Drop, Kind::Drop) => op.attrs.is_none(),
        _ => false,
    }
}

/// The first operations that keep, or drop, as asked, and give no map.
fn first_runs(ops: &[Op], kind: Kind) -> Begun<'_>
    requires { all_passed ops.now < 2 ^ 32 }
    ensures { BeginWith kind ops.now result.units result.rest.now }
{
    let mut units = 0;
    let mut rest = ops;
    'first: while let Some((op, later)) = rest.split_first() {
        if !is_bare(op, kind) {
            return Begun { units, rest };
        }
        units += op.passed();
        rest = later;
    }
    Begun { units, rest }
}

/// What operations do, where that is one splice. `none` is the map without pairs.
pub fn splice_of<'a>(ops: &'a [Op], bank: &'a [u16], none: &'a AttrMap) -> Option<Splice<'a>>
    requires short { all_passed ops.now < 2 ^ 32 }
    requires bank { all_inserted ops.now ≡ length bank.now }
    ensures is { IfSome result (λ s. AreSplice ops.now bank.now s.at s.dropped (cells s.new.attrs.now s.new.text.now)) }
    ensures text { IfSome result (λ s. length s.new.text.now ≡ length bank.now) }
{
    let kept = first_runs(ops, Kind::Keep);
    let gone = first_runs(kept.rest, Kind::Drop);
    let attrs = match gone.rest {
        [] => none,
        [op] => match op.kind {
            Kind::Insert => &op.attrs,
            _ => return None,
        },
        _ => return None,
    };
    Some(Splice {
        at: kept.units,
        dropped: gone.units,
        new: Stretch { text: bank, attrs },
    })
}

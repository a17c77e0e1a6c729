//! Pads by rising name.

ghost use Rattle.std.specs.Prelude.{◌≡◌, IfSome, IsPermutation, IsTrue};
ghost use Rattle.ep_units.specs.Text.{text_cmp};
ghost use Rattle.ep_outside.specs.Shelf.{rises};

use ep_units::PadId;
use std::cmp::Ordering;

/// These pads by rising name; `None` where one stands twice.
pub fn in_order(mut pads: Vec<PadId>) -> Option<Vec<PadId>>
    ensures rises { IfSome result (λ sorted. IsTrue (rises sorted.items)) }
    ensures same { IfSome result (λ sorted. IsPermutation pads.items sorted.items) }
{
    pads.sort_unstable_by(order);
    if are_rising(&pads) { Some(pads) } else { None }
}

fn order(a: &PadId, b: &PadId) -> Ordering
    ensures { result ≡ text_cmp a.now b.now }
{
    a.as_slice().cmp(&b.as_slice())
}

// Each name is less than the next.
fn are_rising(pads: &[PadId]) -> bool
    ensures { IsTrue result → IsTrue (rises pads.now) }
{
    for i in 1..pads.len() {
        if !order(&pads[i - 1], &pads[i]).is_lt() {
            return false;
        }
    }
    true
}

//! What a shelf has of a name.

ghost use Rattle.std.specs.Prelude.{◌≡◌, ◌≢◌, ◌≤◌, ◌⊎◌, ℕ, List, Ok, None, true, false, IfOk, IfSome, OnErr, IsErrOf};
ghost use Rattle.ep_outside.specs.Outside.{HasRisen};
ghost use Rattle.ep_outside.specs.Shelf.{Holds, IsAmong};

use ep_outside::{Shelf, ShelfBad};
use ep_units::PadId;

/// The disk of a name, where there is one or it is made.
pub fn disk_of<H: Shelf>(shelf: &mut H, name: &PadId, makes: bool) -> Result<Option<H::D>, ShelfBad>
    ensures later { H.failures shelf.old ≤ H.failures shelf.new }
    ensures others { (other : List ℕ) → other ≢ name.now → H.told shelf.new other ≡ H.told shelf.old other }
    ensures spares { makes ≡ false → (H.names shelf.new ≡ H.names shelf.old) ⊎ IsAmong (H.names shelf.old) name.now true }
    ensures found { IfOk result (λ found. IfSome found (λ disk. (H.D.failures disk ≡ 0) × Holds (H.told shelf.old name.now) (H.D.told disk))) }
    ensures none { result ≡ Ok None → (makes ≡ false) × IsAmong (H.names shelf.old) name.now false }
    ensures unmade { result ≡ Ok None → (H.names shelf.new ≡ H.names shelf.old) × (H.told shelf.new name.now ≡ H.told shelf.old name.now) }
    ensures err { OnErr result (H.told shelf.new name.now ≡ H.told shelf.old name.now) }
    ensures cause { IsErrOf result ShelfBad.Failed → HasRisen (H.failures shelf.old) (H.failures shelf.new) }
{
    if !makes && !shelf.has(name)? {
        return Ok(None);
    }
    Ok(Some(shelf.open(name)?))
}

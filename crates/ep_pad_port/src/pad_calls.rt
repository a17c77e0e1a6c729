//! What the port asks of the machine of a pad.

use ep_house::PadOver;
use ep_outside::{Disk, Machine};
use ep_pad::{LazyPad, PadEntry, PadReply};

/// A machine that stands on such a disk, and whose calls are those of a pad.
pub trait PadCalls<D: Disk>: PadOver<D> + Machine<Entry = PadEntry, Reply = PadReply> {
    ghost use Rattle.std.specs.Prelude.{◌≡◌, List};
    ghost use Rattle.ep_pad.specs.declared.entries.PadEntry.{PadEntry};
    ghost use Rattle.ep_pad.specs.declared.entries.PadReply.{PadReply};
    ghost use Rattle.ep_pad.specs.Entries.{MayAsk, entry_of};
    ghost use Rattle.ep_pad.specs.Lazy.{IsLegalFrom, Lazy};

    /// What may be asked of a pad may be called.
    ghost may_ask: { (e : PadEntry) → MayAsk (entry_of e) → Self.allows e };

    /// The pad that it is, with the same limits.
    ghost begun: { Self → Lazy D };

    ghost same_limits: { (m : Self) → (begun m).limits ≡ Self.limits_of m };

    /// Its legal histories are those of a pad that began so.
    ghost is_legal: { (m : Self) (h : List (PadEntry × PadReply)) → Self.legal m h → IsLegalFrom D.told D.failures (begun m) h };
}

impl<D: Disk + Drop> PadCalls<D> for LazyPad<D> {
    ghost use Rattle.std.proofs.Common.{refl};

    ghost may_ask = { λ e may. may };

    ghost begun = { λ m. m };

    ghost same_limits = { λ m. refl };

    ghost is_legal = { λ m h legal. legal };
}

//! What those who call a pad know of it.

use crate::entries::{PadEntry, PadReply};
use crate::pass_bad::PassBad;
use ep_outside::{Disk, Limits};
use ep_units::PadId;
use std::alloc::Global;
use std::sync::Wait;

/// The pads of a server for many callers. A hall asks for pads; a pass makes the calls of one pad, each of which waits
/// for its turn there and is the next of its pass in the pad's one history. `ep_pad_calls` has each call with an answer
/// of its own type.
pub trait PadPort {
    ghost use Rattle.std.specs.Prelude.{◌≡◌, ℕ, List, Some, IfOk};
    ghost use Rattle.atomic_table.specs.Seated.{TableId};
    ghost use Rattle.ep_outside.specs.declared.limits.Limits.{Limits as AnyLimits};
    ghost use Rattle.ep_cell.specs.History.{pairs};
    ghost use Rattle.ep_cell.specs.Passes.{IsFresh, Known, Meets};
    ghost use Rattle.ep_pad.specs.declared.entries.PadEntry.{PadEntry};
    ghost use Rattle.ep_pad.specs.declared.entries.PadReply.{PadReply};
    ghost use Rattle.ep_pad.specs.Lazy.{IsLegalFrom, Lazy};
    ghost use Rattle.ep_pad.specs.Halls.{Answer, IsUnmade, NotesOrNone, cell_in, told_of, want};
    ghost use Rattle.ep_pad.specs.declared.wanted.Wanted.{Wanted};
    ghost use Rattle.ep_pad.specs.Asking.{Asks};
    ghost use Rattle.ep_pad.specs.Entries.{MayAsk, Suits, entry_of};

    /// The disks that the pads stand on.
    type Store: Disk;

    /// Somebody who may ask for passes.
    type Hall: Drop;

    /// Somebody who may call one pad.
    type Pass: Drop;

    ghost limits_of: { Self → AnyLimits };

    /// The hall is of this port.
    ghost is_hall: { Self → Self.Hall → Type 0 };

    /// The number of a hall, the names that it has seen asked for with their answers, and how many they are at least.
    ghost hall_known: { Self.Hall → Known Wanted Answer };

    /// The names that were asked for, with their answers, may be these, in this order, under such limits.
    ghost is_register: { AnyLimits → List (Wanted × Answer) → Type 0 };

    /// The pass is of this port.
    ghost is_of: { Self → Self.Pass → Type 0 };

    /// The name of a pass's pad.
    ghost name_of: { Self.Pass → List ℕ };

    /// The cell of a pass's pad.
    ghost cell_of: { Self.Pass → TableId };

    /// A pass's pad as it began, before any call.
    ghost begun: { Self.Pass → Lazy Self.Store };

    /// The number of a pass, the history of its pad that it has seen, and how long that is at least.
    ghost known: { Self.Pass → Known PadEntry PadReply };

    /// Where copies of what a call is given are made.
    fn alloc(&self) -> Global;

    /// What the pads are held to.
    fn limits(&self) -> Limits
        ensures { result ≡ limits_of self.now };

    /// A hall that has seen the names so far.
    fn hall<R: Wait>(&self, rt: &R) -> Self::Hall
        ensures of { is_hall self.now result }
        ensures fresh { IsFresh (hall_known result) }
        ensures legal { is_register (limits_of self.now) (pairs (hall_known result).seen) };

    /// A pass of a pad, which its first call opens. One that nobody has made gets a place only for a caller who makes it; for
    /// the others nothing is made.
    fn pass<R: Wait>(
        &self,
        rt: &R,
        hall: &mut Self::Hall,
        pad: &PadId,
        makes: bool,
    ) -> Result<Self::Pass, PassBad>
        requires of { is_hall self.now hall.old }
        ensures hall { is_hall self.now hall.new }
        ensures noted { NotesOrNone (is_register (limits_of self.now)) (hall_known hall.old) (want pad.now makes) (told_of cell_of result) (hall_known hall.new) }
        ensures unmade { IsUnmade result (pairs (hall_known hall.new).seen) pad.now }
        ensures of { IfOk result (λ pass. is_of self.now pass) }
        ensures name { IfOk result (λ pass. name_of pass ≡ pad.now) }
        ensures fresh { IfOk result (λ pass. IsFresh (known pass)) }
        ensures limits { IfOk result (λ pass. (begun pass).limits ≡ limits_of self.now) }
        ensures legal { IfOk result (λ pass. IsLegalFrom Self.Store.told Self.Store.failures (begun pass) (pairs (known pass).seen)) }
        // The name's first cell is its one cell.
        ensures one { IfOk result (λ pass. cell_in (pairs (hall_known hall.new).seen) pad.now ≡ Some (cell_of pass)) };

    /// Both passes of one pad have seen the longer of their two histories, which the shorter begins.
    fn meet(&self, one: &mut Self::Pass, other: &mut Self::Pass)
        requires one { is_of self.now one.old }
        requires other { is_of self.now other.old }
        requires pad { name_of one.old ≡ name_of other.old }
        ensures of { is_of self.now one.new × is_of self.now other.new }
        ensures one { (name_of one.new ≡ name_of one.old) × (cell_of one.new ≡ cell_of one.old) × (begun one.new ≡ begun one.old) }
        ensures other { (name_of other.new ≡ name_of other.old) × (cell_of other.new ≡ cell_of other.old) × (begun other.new ≡ begun other.old) }
        ensures cell { (cell_of one.new ≡ cell_of other.new) × (begun one.new ≡ begun other.new) }
        ensures meets { Meets (known one.old) (known other.old) (known one.new) (known other.new) };

    /// One call of the pad, and its reply, which is of the call's kind.
    fn ask<R: Wait>(&self, rt: &R, pass: &mut Self::Pass, entry: PadEntry) -> PadReply
        requires of { is_of self.now pass.old }
        requires may { MayAsk (entry_of entry) }
        ensures of { is_of self.now pass.new }
        ensures pad { (name_of pass.new ≡ name_of pass.old) × (cell_of pass.new ≡ cell_of pass.old) × (begun pass.new ≡ begun pass.old) }
        ensures asks { Asks (IsLegalFrom Self.Store.told Self.Store.failures (begun pass.old)) (known pass.old) entry result (known pass.new) }
        ensures suits { Suits entry result };
}

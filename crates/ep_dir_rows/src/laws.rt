//! What histories over the keeper in memory tell.

ghost use Rattle.std.specs.Prelude.{◌≡◌, ◌∷◌, List, [], Some, Ok};
ghost use Rattle.ep_units.specs.declared.grant.Grant.{Grant};
ghost use Rattle.ep_outside.specs.declared.keeper.Pair.{Pair};
ghost use Rattle.ep_outside.specs.declared.keeper.Put.{Put};
ghost use Rattle.ep_dir_records.specs.Answers.{Seen};
ghost use Rattle.ep_groups.specs.History.{Follows};
ghost use Rattle.ep_groups.specs.Policy.{grant};
ghost use Rattle.ep_groups.specs.declared.entries.DirEntry.{DirEntry};
ghost use Rattle.ep_groups.specs.declared.entries.DirEntry.TheVariants as entry;
ghost use Rattle.ep_groups.specs.declared.entries.DirReply.{DirReply};
ghost use Rattle.ep_groups.specs.declared.entries.DirReply.TheVariants as reply;
ghost use Rattle.ep_groups.specs.declared.entries.GrantAsked.{GrantAsked};

use ep_groups::{DirMachine, legal_follows};
use ep_keep::MapKeeper;
use ep_outside::Machine;

/// A legal history over a map in memory is what the definitions answer, one call behind the other, on the map
/// with which the directory began; so no grant is legal that the definition doesn't give on that one.
pub fn legal_in_memory()
    ensures follows { (first : Seen) (h : List (DirEntry × DirReply)) → ⟦<DirMachine<MapKeeper> as Machine>⟧.legal first h → (m : List Pair) × (first.told ≡ Some m) × Follows m h }
    ensures wrong_grant { (first : Seen) (a : GrantAsked) (g : Grant)
        → ((m : List Pair) (puts : List Put) → first.told ≡ Some m → grant a.asked a.sessions a.token a.at a.drawn.digits m ≡ Ok (g, puts) → ⊥)
        → ⟦<DirMachine<MapKeeper> as Machine>⟧.legal first ((entry.Grant a, reply.Grant (Ok g)) ∷ []) → ⊥ }
{
    legal_follows::<MapKeeper>();
}

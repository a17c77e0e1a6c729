//! Why a call of the directory was refused.

ghost use Rattle.std.specs.Prelude.{◌≡◌};

use ep_units::{NoMemory, Units};

/// Why a call of the directory was refused.
#[derive(Drop)]
pub enum DirBad {
    NoGroup,
    NoAuthor,
    NoSession,
    /// The session would end at or before this moment, which is now.
    Past(u64),
    /// The pad of the group would have no own id.
    BadName,
    /// The keeper failed; so often has it failed.
    Keeper(u64),
    /// All ids are given.
    IdsSpent,
    /// The number of the rule that denies: 1 for an id that is not valid, 2 for an unknown read-only id.
    Denied(u64),
    /// What stands under this key is no record of its kind: another program wrote it.
    Kept(Units),
    NoMemory,
}

impl From<NoMemory> for DirBad {
    ghost use Rattle.std.specs.Prelude.{◌≡◌};
    ghost use Rattle.ep_dir_records.specs.declared.dir_bad.DirBad.TheVariants as bad;

    ghost from_gives = { λ _ e. e ≡ bad.NoMemory };

    fn from(_error: NoMemory) -> DirBad {
        DirBad::NoMemory
    }
}

//! A map of texts that outlives the program.

ghost use Rattle.std.specs.Prelude.{◌≡◌, List};

use crate::device::Device;
use crate::text::Text;
use ep_units::NoMemory;
use std::marker::Model;
use thiserror::Error;

/// Why a keeper did not do what it was asked.
#[derive(Clone, Copy, Debug, Error, PartialEq, Eq)]
pub enum KeepBad {
    #[error("the keeper failed")]
    Failed,
    #[error("out of memory")]
    NoMemory,
}

impl From<NoMemory> for KeepBad {
    ghost use Rattle.ep_outside.specs.declared.keeper.KeepBad.TheVariants as bad;

    ghost from_gives = { λ _ e. e ≡ bad.NoMemory };

    fn from(_error: NoMemory) -> KeepBad {
        KeepBad::NoMemory
    }
}

/// A key and what stands under it.
#[derive(Drop)]
pub struct Pair {
    pub key: Text,
    pub value: Text,
}

/// What a key is to get, `None` to remove it.
#[derive(Drop)]
pub struct Put {
    pub key: Text,
    pub value: Option<Text>,
}

/// Pairs, which contracts see as their list.
#[derive(Drop)]
pub struct Pairs {
    pub items: Vec<Pair>,
}

impl Model for Pairs {
    ghost use Rattle.std.specs.Prelude.{List};
    ghost use Rattle.ep_outside.specs.declared.keeper.Pair.{Pair};

    ghost Value = { List Pair };

    ghost view = { λ p. p.items.items };
}

impl Pairs {
    pub fn as_slice(&self) -> &[Pair]
        ensures { result.now ≡ self.now }
    {
        self.items.as_slice()
    }
}

/// A map of texts. It may tell the map, and unless it always tells it may do so after one call and not
/// after the next: what a call says is read back from the map that stands behind it.
pub trait Keeper: Device {
    ghost use Rattle.std.specs.Prelude.{◌≡◌, ◌≤◌, ℕ, List, Bool, true, Option, IfOk, OnOk, OnErr, IsErrOf};
    ghost use Rattle.ep_outside.specs.Planned.{Follows};
    ghost use Rattle.ep_outside.specs.Outside.{HasCause};
    ghost use Rattle.ep_outside.specs.Kept.{Gets, Puts, Lists, Stays, Rises, IsTold};
    ghost use Rattle.ep_outside.specs.declared.keeper.Pair.{Pair};

    /// What it holds, by key in the order of the keys' UTF-8 bytes, where it tells.
    ghost told: { Self → Option (List Pair) };

    /// It tells its map in each state, also where a call was refused.
    ghost always_tells: { Self → Bool };

    /// What stands under a key.
    fn get(&mut self, key: &str) -> Result<Option<Text>, KeepBad>
        ensures value { IfOk result (λ value. Gets (told self.old) (told self.new) key.now value) }
        ensures err { OnErr result (Stays (told self.old) (told self.new)) }
        ensures telling { always_tells self.new ≡ always_tells self.old }
        ensures cause { HasCause (Self.failures self.old) (Self.failures self.new) (Self.is_steady self.old) (Self.is_steady self.new) (IsErrOf result KeepBad.Failed) }
        ensures plan { Follows (Self.plan self.old) (Self.plan self.new) (IsErrOf result KeepBad.Failed) };

    /// Puts all of them in their order, or none.
    fn put_all(&mut self, puts: &[Put]) -> Result<(), KeepBad>
        ensures ok { OnOk result (Puts (told self.old) (told self.new) puts.now) }
        ensures err { OnErr result (Stays (told self.old) (told self.new)) }
        ensures telling { always_tells self.new ≡ always_tells self.old }
        ensures cause { HasCause (Self.failures self.old) (Self.failures self.new) (Self.is_steady self.old) (Self.is_steady self.new) (IsErrOf result KeepBad.Failed) }
        ensures plan { Follows (Self.plan self.old) (Self.plan self.new) (IsErrOf result KeepBad.Failed) };

    /// The pairs whose keys begin so, in their order.
    fn list_prefix(&mut self, prefix: &str) -> Result<Pairs, KeepBad>
        ensures value { IfOk result (λ pairs. Lists (told self.old) (told self.new) prefix.now pairs) }
        ensures err { OnErr result (Stays (told self.old) (told self.new)) }
        ensures telling { always_tells self.new ≡ always_tells self.old }
        ensures cause { HasCause (Self.failures self.old) (Self.failures self.new) (Self.is_steady self.old) (Self.is_steady self.new) (IsErrOf result KeepBad.Failed) }
        ensures plan { Follows (Self.plan self.old) (Self.plan self.new) (IsErrOf result KeepBad.Failed) };

    ghost tells: { (k : Self) → always_tells k ≡ true → IsTold (told k) };

    ghost in_order: { (k : Self) → Rises (told k) };
}

//! The edits of a birth that became nothing.

ghost use Rattle.std.specs.Prelude.{◌≡◌, ◌++◌, ◌∷◌, [], IfOk, OnOk, drop, nat_le};
ghost use Rattle.std.specs.List.{take_while};
ghost use Rattle.ep_units.specs.declared.session.Session.{Session};
ghost use Rattle.ep_pad_state.specs.Nops.{key_of, heads_of, heads_in, HasRoom, SameHeads, StandFor};

use ep_history::Nop;
use ep_units::Session;
use std::alloc::{AllocError, Global};
use std::collections::BTreeMap;
use std::marker::Model;

/// Under each session's epoch and count, the head at which each of its edits became nothing, in order. Their times aren't
/// kept.
///
/// A session without such an edit takes no memory, and another about 60 bytes beside its heads.
#[derive(Drop)]
pub struct Nops {
    heads: BTreeMap<(u64, u64), Vec<u64>>,
}

impl Model for Nops {
    ghost use Rattle.std.specs.Prelude.{map};
    ghost use Rattle.ep_pad_state.specs.Nops.{KeptNops, seen};

    ghost Value = { KeptNops };

    ghost view = { λ a. map (λ e. (e.0, seen e.1)) a.heads.entries };
}

/// The heads at the front that are at most a revision.
fn up_to(alloc: Global, heads: &[u64], to: u64) -> Result<Vec<u64>, AllocError>
    ensures { IfOk result (λ v. v.items ≡ take_while (λ h. nat_le h to) heads.now) }
{
    heads
        .iter()
        .copied()
        .take_while(|head| *head <= to)
        .collect(alloc)
}

impl Nops {
    /// None.
    pub fn new(alloc: Global) -> Nops
        ensures { StandFor result [] }
    {
        Nops {
            heads: BTreeMap::new(alloc),
        }
    }

    /// Makes room for one edit more of a session.
    pub fn reserve(&mut self, alloc: Global, session: Session) -> Result<(), AllocError>
        ensures heads { SameHeads self.old self.new }
        ensures room { OnOk result (HasRoom session self.new) }
    {
        let key = key(session);
        match self.heads.get_mut(&key) {
            Some(heads) => heads.reserve(1),
            None => {
                let heads = Vec::with_capacity(alloc, 1)?;
                self.heads.insert(key, heads)?;
                Ok(())
            }
        }
    }

    /// One edit more. It takes no memory.
    pub fn push_reserved(&mut self, nop: Nop)
        requires { HasRoom nop.session self.old }
        ensures { (s : Session) → heads_of s self.new ≡ heads_of s self.old ++ heads_in s (nop ∷ []) }
    {
        match self.heads.get_mut(&key(nop.session)) {
            Some(heads) => heads.push_reserved(nop.rev),
            None => unreachable!(),
        }
    }

    /// The heads of a session's edits without the first ones, up to a revision. It looks at no others.
    pub fn heads_to(
        &self,
        alloc: Global,
        session: Session,
        told: usize,
        to: u64,
    ) -> Result<Vec<u64>, AllocError>
        ensures { IfOk result (λ v. v.items ≡ take_while (λ h. nat_le h to) (drop told (heads_of session self.now))) }
    {
        match self.heads.get(&key(session)) {
            Some(heads) => up_to(alloc, &heads[told.min(heads.len())..], to),
            None => Ok(Vec::new(alloc)),
        }
    }
}

/// A session as a key: by epoch, and then by count.
fn key(session: Session) -> (u64, u64)
    ensures { result ≡ key_of session }
{
    (session.epoch, session.count)
}

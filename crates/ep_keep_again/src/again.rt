//! A keeper that is given up where it failed, and opened again by the next call.

ghost use Rattle.std.specs.Prelude.{◌≡◌, ◌⊎◌, ◌≤◌, None, IfOk, OnErr, OnOk, IsErrOf};
ghost use Rattle.ep_outside.specs.Outside.{HasRisen};
ghost use Rattle.ep_outside.specs.Kept.{Gets, Lists, Puts, Stays};
ghost use Rattle.ep_keep_again.specs.Again.{told_while};

use ep_outside::{Device, KeepBad, Keeper, Pairs, Put, Text};

/// Who opens a keeper.
pub trait Opener {
    type Kept: Keeper + Drop;

    /// None where it can't be opened now.
    fn open(&mut self) -> Option<Self::Kept>;
}

/// A keeper that is opened anew by the call after one that failed. It counts its own failures: a call fails where the
/// keeper's does, or where none can be opened. It tells what the keeper tells that it began with, and nothing from the
/// first opening on, since what that found is not told.
pub struct AgainKeeper<O: Opener> {
    opener: O,
    kept: Option<O::Kept>,
    is_first: bool,
    faults: u64,
}

impl<O: Opener + Drop> Drop for AgainKeeper<O> {
    fn drop(self) {
        let AgainKeeper {
            opener: _,
            kept: _,
            is_first: _,
            faults: _,
        } = self;
    }
}

impl<O: Opener> AgainKeeper<O> {
    /// It begins with this keeper.
    pub fn new(opener: O, kept: O::Kept) -> AgainKeeper<O>
        ensures told { ⟦<AgainKeeper<O> as Keeper>⟧.told result ≡ O.Kept.told kept }
        ensures failures { ⟦<AgainKeeper<O> as Device>⟧.failures result ≡ 0 }
    {
        AgainKeeper {
            opener,
            kept: Some(kept),
            is_first: true,
            faults: 0,
        }
    }

    // Opens one where none is open.
    fn reopen(&mut self)
        ensures told { told_while O.Kept.told self.new.kept self.new.is_first ≡ told_while O.Kept.told self.old.kept self.old.is_first }
        ensures faults { self.new.faults ≡ self.old.faults }
    {
        if self.kept.is_none() {
            self.is_first = false;
            self.kept = self.opener.open();
        }
    }

    // Hands on what came. What failed is counted, and the keeper that failed is given up.
    fn came<T: Drop>(&mut self, came: Result<T, KeepBad>) -> Result<T, KeepBad>
        ensures later { self.old.faults ≤ self.new.faults }
        ensures cause { IsErrOf result KeepBad.Failed → HasRisen self.old.faults self.new.faults }
        ensures same { result ≡ came }
        ensures kept { OnOk result ((self.new.kept ≡ self.old.kept) × (self.new.is_first ≡ self.old.is_first)) }
        ensures gone { OnErr result (((self.new.kept ≡ self.old.kept) × (self.new.is_first ≡ self.old.is_first)) ⊎ (self.new.kept ≡ None)) }
    {
        match came {
            Ok(value) => Ok(value),
            Err(KeepBad::NoMemory) => Err(KeepBad::NoMemory),
            Err(KeepBad::Failed) => {
                self.kept = None;
                self.faults = self.faults.saturating_add(1);
                Err(KeepBad::Failed)
            }
        }
    }

    fn value(&mut self, key: &str) -> Result<Option<Text>, KeepBad>
        ensures faults { self.new.faults ≡ self.old.faults }
        ensures value { IfOk result (λ v. Gets (told_while O.Kept.told self.old.kept self.old.is_first) (told_while O.Kept.told self.new.kept self.new.is_first) key.now v) }
        ensures err { OnErr result (Stays (told_while O.Kept.told self.old.kept self.old.is_first) (told_while O.Kept.told self.new.kept self.new.is_first)) }
    {
        self.reopen();
        match &mut self.kept {
            Some(kept) => kept.get(key),
            None => Err(KeepBad::Failed),
        }
    }

    fn put(&mut self, puts: &[Put]) -> Result<(), KeepBad>
        ensures faults { self.new.faults ≡ self.old.faults }
        ensures ok { OnOk result (Puts (told_while O.Kept.told self.old.kept self.old.is_first) (told_while O.Kept.told self.new.kept self.new.is_first) puts.now) }
        ensures err { OnErr result (Stays (told_while O.Kept.told self.old.kept self.old.is_first) (told_while O.Kept.told self.new.kept self.new.is_first)) }
    {
        self.reopen();
        match &mut self.kept {
            Some(kept) => kept.put_all(puts),
            None => Err(KeepBad::Failed),
        }
    }

    fn pairs(&mut self, prefix: &str) -> Result<Pairs, KeepBad>
        ensures faults { self.new.faults ≡ self.old.faults }
        ensures value { IfOk result (λ pairs. Lists (told_while O.Kept.told self.old.kept self.old.is_first) (told_while O.Kept.told self.new.kept self.new.is_first) prefix.now pairs) }
        ensures err { OnErr result (Stays (told_while O.Kept.told self.old.kept self.old.is_first) (told_while O.Kept.told self.new.kept self.new.is_first)) }
    {
        self.reopen();
        match &mut self.kept {
            Some(kept) => kept.list_prefix(prefix),
            None => Err(KeepBad::Failed),
        }
    }
}

impl<O: Opener> Device for AgainKeeper<O> {
    ghost use Rattle.std.specs.Prelude.{false};
    ghost use Rattle.std.proofs.Common.{true≢false, sym};

    ghost failures = { λ k. k.faults };

    ghost is_steady = { λ k. false };

    ghost never_fails = { λ k steady. absurd (true≢false (sym steady)) };

    fn faults(&self) -> u64 {
        self.faults
    }
}

impl<O: Opener> Keeper for AgainKeeper<O> {
    ghost use Rattle.std.specs.Prelude.{false};
    ghost use Rattle.std.proofs.Common.{true≢false, sym};
    ghost use Rattle.ep_keep_again.specs.Again.{told_while, while_rises};

    ghost told = { λ k. told_while O.Kept.told k.kept k.is_first };

    ghost always_tells = { λ k. false };

    ghost tells = { λ k always. absurd (true≢false (sym always)) };

    ghost in_order = { λ k. while_rises O.Kept.told O.Kept.in_order k.kept k.is_first };

    fn get(&mut self, key: &str) -> Result<Option<Text>, KeepBad> {
        let came = self.value(key);
        self.came(came)
    }

    fn put_all(&mut self, puts: &[Put]) -> Result<(), KeepBad> {
        let came = self.put(puts);
        self.came(came)
    }

    fn list_prefix(&mut self, prefix: &str) -> Result<Pairs, KeepBad> {
        let came = self.pairs(prefix);
        self.came(came)
    }
}

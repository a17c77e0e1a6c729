//! What is asked of the keeper.

ghost use Rattle.std.specs.Prelude.{◌≡◌, ◌∷◌, [], Ok, codes};
ghost use Rattle.ep_outside.specs.Kept.{listed, value_at};
ghost use Rattle.ep_dir_records.specs.Keys.{key, prefix};
ghost use Rattle.ep_dir_records.specs.Answers.{Answers, Reads, Tells};
ghost use Rattle.ep_dir_records.specs.Faults.{IsKept, fault_of};

use crate::dir_bad::DirBad;
use crate::keys::{Kind, count_key, key_text};
use crate::puts::Puts;
use ep_outside::{KeepBad, Keeper, Pairs, Put, Text};
use ep_units::Units;
use std::alloc::Global;
use std::marker::Model;

/// The records of a directory in a keeper.
pub struct Records<K: Keeper> {
    keeper: K,
    pub(crate) alloc: Global,
}

impl<K: Keeper + Drop> Drop for Records<K> {
    fn drop(self) {
        let Records {
            keeper: _,
            alloc: _,
        } = self;
    }
}

impl<K: Keeper> Model for Records<K> {
    ghost use Rattle.ep_dir_records.specs.Answers.{Seen};

    ghost Value = { Seen };

    ghost view = { λ d. record { told = K.told d.keeper; always_tells = K.always_tells d.keeper; failures = K.failures d.keeper; is_steady = K.is_steady d.keeper } };
}

impl<K: Keeper> Records<K> {
    /// The records that stand in this keeper.
    pub fn new(alloc: Global, keeper: K) -> Records<K>
        ensures { result ≡ record { told = K.told keeper; always_tells = K.always_tells keeper; failures = K.failures keeper; is_steady = K.is_steady keeper } }
    {
        Records { keeper, alloc }
    }

    /// The map is told, where the keeper always tells it.
    pub fn tells(&self)
        ensures { Tells self.now }
    {
        let _keeper = &self.keeper;
    }

    // What a refusal of the keeper is here.
    fn fault(&self, bad: KeepBad) -> DirBad
        ensures { result ≡ fault_of self.now.failures bad }
    {
        match bad {
            KeepBad::Failed => DirBad::Keeper(self.keeper.faults()),
            KeepBad::NoMemory => DirBad::NoMemory,
        }
    }

    fn get(&mut self, key: &str) -> Result<Option<Text>, DirBad>
        ensures { Reads self.old self.new (λ m. Ok (value_at m key.now)) result }
    {
        match self.keeper.get(key) {
            Ok(value) => Ok(value),
            Err(bad) => Err(self.fault(bad)),
        }
    }

    pub fn pairs(&mut self, prefix: &str) -> Result<Pairs, DirBad>
        ensures { Reads self.old self.new (λ m. Ok (listed m prefix.now)) result }
    {
        match self.keeper.list_prefix(prefix) {
            Ok(pairs) => Ok(pairs),
            Err(bad) => Err(self.fault(bad)),
        }
    }

    pub fn pairs_of(&mut self, kind: Kind) -> Result<Pairs, DirBad>
        ensures { Reads self.old self.new (λ m. Ok (listed m (prefix kind))) result }
    {
        self.pairs(kind.prefix())
    }

    fn put_all(&mut self, puts: &[Put]) -> Result<(), DirBad>
        ensures { Answers self.old self.new (λ m. Ok (tt, puts.now)) result }
    {
        match self.keeper.put_all(puts) {
            Ok(()) => Ok(()),
            Err(bad) => Err(self.fault(bad)),
        }
    }

    /// Makes the puts of a planned answer; where there are none, the keeper is not asked.
    pub fn commit<T: Drop>(&mut self, answer: T, puts: Puts) -> Result<T, DirBad>
        ensures { Answers self.old self.new (λ m. Ok (answer, puts)) result }
    {
        if puts.is_empty() {
            return Ok(answer);
        }
        self.put_all(puts.as_slice())?;
        Ok(answer)
    }

    // What stands under the key of a record, with the key.
    pub fn found(&mut self, kind: Kind, name: &Units) -> Result<(Text, Option<Text>), DirBad>
        ensures { Reads self.old self.new (λ m. Ok (key kind name.now, value_at m (key kind name.now))) result }
    {
        let key = key_text(self.alloc, kind, name)?;
        let value = self.get(key.as_str())?;
        Ok((key, value))
    }

    // What stands under the key of the count, with the key.
    pub fn found_count(&mut self) -> Result<(Text, Option<Text>), DirBad>
        ensures { Reads self.old self.new (λ m. Ok (codes "n", value_at m (codes "n"))) result }
    {
        let key = count_key(self.alloc)?;
        let value = self.get(key.as_str())?;
        Ok((key, value))
    }

    // The refusal of a value that has not its key's form.
    pub fn kept(&self, key: &Text) -> DirBad
        ensures { IsKept key.now result }
    {
        match Units::from_str(self.alloc, key.as_str()) {
            Ok(text) => DirBad::Kept(text),
            Err(_) => DirBad::NoMemory,
        }
    }
}

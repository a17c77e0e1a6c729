//! Values under their numbers, of which those go that were not asked for longest.

ghost use Rattle.std.specs.Prelude.{◌≡◌, ◌↔◌, ◌⊎◌, ◌≤◌, ℕ, [], IfSome, IfNone, IfOk, IsTrue, length};
ghost use Rattle.std.specs.Bool.{OnTrue, OnFalse};
ghost use Rattle.std.specs.NonZero.{non_zero_usize_get};
ghost use Rattle.ep_recall.specs.Recall.{Has};

use ep_units::NoMemory;
use lru::LruCache;
use std::alloc::Global;
use std::marker::Model;
use std::num::NonZeroUsize;

/// Values under their numbers.
#[derive(Drop)]
pub struct Recall<T: Drop> {
    cache: LruCache<u64, T>,
}

impl<T: Drop> Model for Recall<T> {
    ghost use Rattle.ep_recall.specs.Recall.{Kept};

    ghost Value = { Kept T };

    ghost view = { λ r. record { entries = r.cache.entries; most = r.cache.cap } };
}

impl<T: Drop> Recall<T> {
    /// Nothing, and never more than so many.
    pub fn new(alloc: Global, most: NonZeroUsize) -> Result<Recall<T>, NoMemory>
        ensures empty { IfOk result (λ r. r.entries ≡ []) }
        ensures most { IfOk result (λ r. r.most ≡ non_zero_usize_get most) }
    {
        match LruCache::sparse(alloc, most) {
            Ok(cache) => Ok(Recall { cache }),
            Err(_) => Err(NoMemory),
        }
    }

    /// Puts a value under a number, in the place of the one there. Says whether there was memory for it.
    pub fn put(&mut self, number: u64, value: T) -> bool
        ensures there { OnTrue result (Has self.new number value) }
        ensures only { (n : ℕ) (v : T) → Has self.new n v → ((n ≡ number) × (v ≡ value)) ⊎ Has self.old n v }
        ensures none { OnFalse result (self.new ≡ self.old) }
        ensures most { self.new.most ≡ self.old.most }
    {
        self.cache.put(number, value).is_ok()
    }

    /// Whether there is a value under this number, which then goes last.
    pub fn ask(&mut self, number: u64) -> bool
        ensures there { IsTrue result ↔ ((v : T) × Has self.old number v) }
        ensures same { (n : ℕ) (v : T) → Has self.new n v ↔ Has self.old n v }
        ensures most { self.new.most ≡ self.old.most }
    {
        self.cache.promote(&number)
    }

    /// The value under a number.
    pub fn get(&self, number: u64) -> Option<&T>
        ensures there { IfSome result (λ v. Has self.now number v.now) }
        ensures none { IfNone result ((v : T) → Has self.now number v → ⊥) }
    {
        self.cache.peek(&number)
    }

    /// How many values there are.
    pub fn len(&self) -> usize
        ensures len { result ≡ length self.now.entries }
        ensures most { length self.now.entries ≤ self.now.most }
    {
        self.cache.len()
    }
}

//! A keeper by its desk.

ghost use Rattle.std.specs.Prelude.{◌≡◌, ◌≤◌, ◌⊎◌, ◌||◌, true, false, [], Some, Err, Ok, IsTrue, IfOk, OnOk, OnErr, IsErr, IsErrOf, is_some};
ghost use Rattle.rtrb.specs.Ring.{IsPair, known_free, received, sent};
ghost use Rattle.ep_outside.specs.Outside.{HasCause, HasRisen};
ghost use Rattle.ep_outside.specs.Kept.{Gets, Lists, Puts, Stays};
ghost use Rattle.ep_keep_far.specs.Told.{HasPut, Hears, IsOf, IsSaid, last_left, told_from};

use crate::asked::{Answer, Asked, Chain, Said};
use crate::desk::Desk;
use crate::puts::copy_of;
use crossbeam_channel::{Receiver, Sender, bounded};
use ep_outside::{Device, KeepBad, Keeper, Pairs, Put, Text};
use ep_units::NoMemory;
use rtrb::{Consumer, Producer, RingBuffer};
use std::alloc::Global;
use std::snapshot::Snapshot;
use std::sync::Wait;

/// A keeper whose calls are made by whoever has its desk. It waits for each answer, and tells what the keeper there
/// told with it. What the keeper there fails at is a fault here; so is a desk that is gone, or an answer to another
/// call. Of an answer that is lost nothing is known, and from then on it tells nothing.
pub struct FarKeeper<R, K: Keeper> {
    rt: R,
    alloc: Global,
    asked: Sender<Asked>,
    bell: Receiver<()>,
    answers: Consumer<Answer<K>, Global, Chain>,
    is_lost: bool,
    faults: u64,
    ghost met: { (is_lost || is_some (last_left (received answers))) ≡ true },
}

// SAFETY: of the keeper it has no more than its answers have.
unsafe impl<R: Send, K: Keeper> Send for FarKeeper<R, K> {}

impl<R: Drop, K: Keeper> Drop for FarKeeper<R, K> {
    fn drop(self) {
        let FarKeeper {
            rt: _,
            alloc: _,
            asked: _,
            bell: _,
            answers: _,
            is_lost: _,
            faults: _,
        } = self;
    }
}

/// The two ends of the way back.
struct Back<K: Keeper> {
    tell: Producer<Answer<K>, Global, Chain>,
    answers: Consumer<Answer<K>, Global, Chain>,
}

impl<K: Keeper> Back<K> {
    fn new(alloc: Global) -> Result<Back<K>, NoMemory>
        ensures pair { IfOk result (λ back. IsPair back.tell back.answers) }
        ensures empty { IfOk result (λ back. (sent back.tell ≡ []) × (received back.answers ≡ [])) }
        ensures free { IfOk result (λ back. known_free back.tell ≡ 1) }
    {
        let (tell, answers) = RingBuffer::<Answer<K>>::with_protocol::<Global, Chain>(alloc, 1)?;
        Ok(Back { tell, answers })
    }

    // Both ends know the keeper as the desk has it.
    fn begin(&mut self, keeper: &K)
        requires pair { IsPair self.old.tell self.old.answers }
        requires empty { (sent self.old.tell ≡ []) × (received self.old.answers ≡ []) }
        requires free { known_free self.old.tell ≡ 1 }
        ensures sent { last_left (sent self.new.tell) ≡ Some keeper.now }
        ensures received { last_left (received self.new.answers) ≡ Some keeper.now }
    {
        self.tell.push_reserved(Answer {
            said: Said::Begun,
            before: Snapshot::of(keeper),
            after: Snapshot::of(keeper),
        });
        self.answers.slots_beside(&mut self.tell);
        let _begun = self.answers.pop_known();
    }
}

impl<R: Wait + Drop, K: Keeper + Drop> FarKeeper<R, K> {
    /// A far keeper and its desk, which has the keeper.
    pub fn new(rt: R, alloc: Global, keeper: K) -> Result<(FarKeeper<R, K>, Desk<K>), NoMemory>
        ensures told { IfOk result (λ it. ⟦<FarKeeper<R, K> as Keeper>⟧.told it.0 ≡ K.told keeper) }
        ensures failures { IfOk result (λ it. ⟦<FarKeeper<R, K> as Device>⟧.failures it.0 ≡ 0) }
        ensures desk { IfOk result (λ it. it.1.keeper ≡ keeper) }
    {
        let (to, asked) = bounded(alloc, 1)?;
        let (ring, bell) = bounded(alloc, 1)?;
        let mut back = Back::new(alloc)?;
        back.begin(&keeper);
        let Back { tell, answers } = back;
        let far = FarKeeper {
            rt,
            alloc,
            asked: to,
            bell,
            answers,
            is_lost: false,
            faults: 0,
        };
        let desk = Desk {
            keeper,
            asked,
            answers: tell,
            bell: ring,
        };
        Ok((far, desk))
    }

    /// A far keeper without a desk: each call of it fails.
    pub fn alone(rt: R, alloc: Global) -> Result<FarKeeper<R, K>, NoMemory>
        ensures { IfOk result (λ far. ⟦<FarKeeper<R, K> as Device>⟧.failures far ≡ 0) }
    {
        let (asked, _nobody) = bounded(alloc, 1)?;
        let (_never, bell) = bounded(alloc, 1)?;
        let back = Back::new(alloc)?;
        let Back { tell: _, answers } = back;
        Ok(FarKeeper {
            rt,
            alloc,
            asked,
            bell,
            answers,
            is_lost: true,
            faults: 0,
        })
    }
}

impl<R, K: Keeper> FarKeeper<R, K> {
    // Counts a fault.
    fn fail(&mut self) -> KeepBad
        ensures risen { HasRisen self.old.faults self.new.faults }
        ensures later { self.old.faults ≤ self.new.faults }
        ensures failed { result ≡ KeepBad.Failed }
        ensures same { (self.new.is_lost ≡ self.old.is_lost) × (received self.new.answers ≡ received self.old.answers) }
    {
        self.faults = self.faults.saturating_add(1);
        KeepBad::Failed
    }

    // Counts a fault, behind which nothing is known of the map.
    fn lose(&mut self) -> KeepBad
        ensures risen { HasRisen self.old.faults self.new.faults }
        ensures later { self.old.faults ≤ self.new.faults }
        ensures failed { result ≡ KeepBad.Failed }
        ensures lost { IsTrue self.new.is_lost }
    {
        self.is_lost = true;
        self.fail()
    }

    // Hands on what came, and counts the failure of a call.
    fn came<T: Drop>(&mut self, came: Result<T, KeepBad>) -> Result<T, KeepBad>
        ensures later { self.old.faults ≤ self.new.faults }
        ensures cause { IsErrOf result KeepBad.Failed → HasRisen self.old.faults self.new.faults }
        ensures same { result ≡ came }
        ensures kept { (self.new.is_lost ≡ self.old.is_lost) × (received self.new.answers ≡ received self.old.answers) }
    {
        match came {
            Ok(value) => Ok(value),
            Err(KeepBad::NoMemory) => Err(KeepBad::NoMemory),
            Err(KeepBad::Failed) => Err(self.fail()),
        }
    }
}

impl<R: Wait, K: Keeper> FarKeeper<R, K> {
    // Asks at the desk, and waits for the answer.
    fn ask(&mut self, asked: Asked) -> Result<Said, KeepBad>
        ensures later { self.old.faults ≤ self.new.faults }
        ensures cause { IsErrOf result KeepBad.Failed → HasRisen self.old.faults self.new.faults }
        ensures asked { IfOk result (λ said. IsOf asked said) }
        ensures said { IfOk result (λ said. IsSaid (told_from K.told self.old.is_lost (received self.old.answers)) (told_from K.told self.new.is_lost (received self.new.answers)) said) }
        ensures heard { IfOk result (λ said. Hears (received self.old.answers) (received self.new.answers) said) }
        ensures err { OnErr result (Stays (told_from K.told self.old.is_lost (received self.old.answers)) (told_from K.told self.new.is_lost (received self.new.answers))) }
        ensures silent { IsTrue self.new.is_lost → IsTrue self.old.is_lost ⊎ IsErrOf result KeepBad.Failed }
    {
        let copy = asked.copy(self.alloc)?;
        if self.asked.send(&self.rt, copy).is_err() {
            return Err(self.fail());
        }
        if self.bell.recv(&self.rt).is_err() {
            return Err(self.lose());
        }
        let said = self.take()?;
        if said.is_of(&asked) {
            Ok(said)
        } else {
            Err(self.lose())
        }
    }

    // The answer that the bell was rung for.
    fn take(&mut self) -> Result<Said, KeepBad>
        ensures later { self.old.faults ≤ self.new.faults }
        ensures cause { OnErr result (HasRisen self.old.faults self.new.faults × IsErrOf result KeepBad.Failed) }
        ensures said { IfOk result (λ said. IsSaid (told_from K.told self.old.is_lost (received self.old.answers)) (told_from K.told self.new.is_lost (received self.new.answers)) said) }
        ensures heard { IfOk result (λ said. (self.new.is_lost ≡ self.old.is_lost) × Hears (received self.old.answers) (received self.new.answers) said) }
        ensures err { OnErr result (IsTrue self.new.is_lost) }
    {
        if self.answers.slots() == 0 {
            return Err(self.lose());
        }
        let answer = self.answers.pop_known();
        Ok(answer.into_said())
    }
}

impl<R, K: Keeper> Device for FarKeeper<R, K> {
    ghost use Rattle.std.specs.Prelude.{false};
    ghost use Rattle.std.proofs.Common.{true≢false, sym};

    ghost failures = { λ k. k.faults };

    ghost is_steady = { λ _. false };

    ghost never_fails = { λ _ steady. absurd (true≢false (sym steady)) };

    fn faults(&self) -> u64 {
        self.faults
    }
}

impl<R: Wait, K: Keeper> Keeper for FarKeeper<R, K> {
    ghost use Rattle.std.specs.Prelude.{false};
    ghost use Rattle.std.proofs.Common.{true≢false, sym};
    ghost use Rattle.rtrb.specs.Ring.{received};
    ghost use Rattle.ep_keep_far.specs.Told.{told_from, told_rises};

    ghost told = { λ k. told_from K.told k.is_lost (received k.answers) };

    ghost always_tells = { λ _. false };

    ghost tells = { λ _ always. absurd (true≢false (sym always)) };

    ghost in_order = { λ k. told_rises K.told K.in_order k.is_lost (received k.answers) };

    fn get(&mut self, key: &str) -> Result<Option<Text>, KeepBad>
        ensures value { IfOk result (λ value. Gets (told_from K.told self.old.is_lost (received self.old.answers)) (told_from K.told self.new.is_lost (received self.new.answers)) key.now value) }
        ensures err { OnErr result (Stays (told_from K.told self.old.is_lost (received self.old.answers)) (told_from K.told self.new.is_lost (received self.new.answers))) }
        ensures cause { HasCause self.old.faults self.new.faults false false (IsErrOf result KeepBad.Failed) }
        ensures silent { IsTrue self.new.is_lost → IsTrue self.old.is_lost ⊎ IsErrOf result KeepBad.Failed }
    {
        let asked = Text::from_str(self.alloc, key)?;
        match self.ask(Asked::Value(asked))? {
            Said::Value(_, came) => self.came(came),
            _ => Err(self.lose()),
        }
    }

    fn put_all(&mut self, puts: &[Put]) -> Result<(), KeepBad>
        ensures ok { OnOk result (Puts (told_from K.told self.old.is_lost (received self.old.answers)) (told_from K.told self.new.is_lost (received self.new.answers)) puts.now) }
        ensures err { OnErr result (Stays (told_from K.told self.old.is_lost (received self.old.answers)) (told_from K.told self.new.is_lost (received self.new.answers))) }
        ensures cause { HasCause self.old.faults self.new.faults false false (IsErrOf result KeepBad.Failed) }
        ensures silent { IsTrue self.new.is_lost → IsTrue self.old.is_lost ⊎ IsErrOf result KeepBad.Failed }
    {
        let asked = copy_of(self.alloc, puts)?;
        match self.ask(Asked::Puts(asked))? {
            Said::Puts(_, came) => self.came(came),
            _ => Err(self.lose()),
        }
    }

    fn list_prefix(&mut self, prefix: &str) -> Result<Pairs, KeepBad>
        ensures value { IfOk result (λ pairs. Lists (told_from K.told self.old.is_lost (received self.old.answers)) (told_from K.told self.new.is_lost (received self.new.answers)) prefix.now pairs) }
        ensures err { OnErr result (Stays (told_from K.told self.old.is_lost (received self.old.answers)) (told_from K.told self.new.is_lost (received self.new.answers))) }
        ensures cause { HasCause self.old.faults self.new.faults false false (IsErrOf result KeepBad.Failed) }
        ensures silent { IsTrue self.new.is_lost → IsTrue self.old.is_lost ⊎ IsErrOf result KeepBad.Failed }
    {
        let asked = Text::from_str(self.alloc, prefix)?;
        match self.ask(Asked::Pairs(asked))? {
            Said::Pairs(_, came) => self.came(came),
            _ => Err(self.lose()),
        }
    }
}

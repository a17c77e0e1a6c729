//! How a record is kept.

ghost use Rattle.std.specs.Prelude.{◌≡◌, ◌≤◌, ℕ, true, Some, None, IfErr, MatchResult};
ghost use Rattle.ep_history.specs.Machine.{MachineState, journal_fault};
ghost use Rattle.ep_pad_file.specs.Standing.{size};
ghost use Rattle.ep_pad_file.specs.Stopping.{IsStopped};
ghost use Rattle.ep_pad_state.specs.Making.{after, change_of, IsReady};
ghost use Rattle.ep_pad.specs.Standing.{Stands};
ghost use Rattle.ep_history.specs.declared.pad_bad.PadBad.TheVariants as lacks;
ghost use Rattle.ep_pad.specs.Crashes.{Comes, IsUncalled};
ghost use Rattle.ep_pad.specs.Keeping.{IsKept, IsNotKept, IsStoppedAt};

use crate::lengths::longest_file_with;
use crate::machine::PadMachine;
use ep_history::PadBad;
use ep_outside::Disk;
use ep_pad_state::Ready;

impl<D: Disk> PadMachine<D> {
    /// Appends the record of a call that isn't refused, and then makes its change. Where memory
    /// is wanting no device call was made.
    pub(crate) fn keep<A: Drop>(&mut self, ready: Ready<A>) -> Result<A, PadBad>
        requires open { self.old.is_open ≡ true }
        requires ready { IsReady self.old.pad (change_of ready) }
        ensures keeps { (st : MachineState) → Stands D.told D.failures self.old st → MatchResult result
            (λ answer. (answer ≡ ready.answer) × ((new : MachineState) × IsKept st ready.record (after (change_of ready) st.pad) new
            × Comes D.told D.failures D.moment D.since D.is_steady D.stops_alone D.left self.old st self.new new))
            (λ bad. (new : MachineState) × IsNotKept st ready.record bad new
            × Comes D.told D.failures D.moment D.since D.is_steady D.stops_alone D.left self.old st self.new new) }
        ensures stopped { (st : MachineState) (calls : ℕ) → Stands D.told D.failures self.old st → D.stops_alone self.old.disk ≡ true → D.left self.old.disk ≡ Some calls
            → MatchResult result
            (λ _. (journal_fault size st ready.record ≡ None) × IsStopped (D.told self.new.disk) st.records ready.record calls)
            (IsStoppedAt (D.told self.new.disk) st ready.record calls) }
        ensures unmade { IfErr result (λ bad. bad ≡ lacks.NoMemory → IsUncalled D.told D.failures D.left self.old.disk self.new.disk) }
        ensures later { D.failures self.old.disk ≤ D.failures self.new.disk }
        ensures limits { self.new.limits ≡ self.old.limits }
    {
        let longest = longest_file_with(self.limits, &ready.record);
        let prepared = self.file.prepare(self.alloc, &ready.record, longest)?;
        if let Err(bad) = self.file.append(prepared) {
            self.is_open = false;
            return Err(bad);
        }
        let mut change = ready.change;
        change.fill(ready.record);
        self.pad.commit(change);
        Ok(ready.answer)
    }
}

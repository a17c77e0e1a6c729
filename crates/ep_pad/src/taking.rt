//! A take that is stopped on the way.

ghost use Rattle.std.specs.Prelude.{◌≡◌, ℕ, List, true, Some, None, IfErr, IfOk, OnOk, MatchResult};
ghost use Rattle.ep_outside.specs.Crash.{IsAsked};
ghost use Rattle.ep_outside.specs.Disk.{Contents};
ghost use Rattle.ep_history.specs.Entries.Entry.{Accept};
ghost use Rattle.ep_history.specs.Entries.Answer.{CommitAnswer};
ghost use Rattle.ep_history.specs.Machine.{MachineState, IsKeptState, IsStep};
ghost use Rattle.ep_pad_file.specs.Standing.{size, StandsFor};
ghost use Rattle.ep_pad_file.specs.Stopping.{gate_behind, is_kept};
ghost use Rattle.ep_step.specs.Telling.{told_by};
ghost use Rattle.ep_history.specs.declared.pad_bad.PadBad.TheVariants as lacks;
ghost use Rattle.ep_pad.specs.Crashes.{Comes, IsUncalled};
ghost use Rattle.ep_pad.specs.Held.{Held};
ghost use Rattle.ep_pad.specs.Opening.{stopped, IsWoken, MayFind};
ghost use Rattle.ep_pad.specs.Standing.{replied, Stands};
ghost use Rattle.ep_pad.specs.Stopping.{HasNoRoom, IsToldBehind, StaysStopped, StopsIn};

use crate::machine::PadMachine;
use ep_cs::Change;
use ep_history::PadBad;
use ep_outside::{Crash, Disk, Image};
use ep_pad_state::Committed;
use ep_units::Session;

impl<D: Disk> PadMachine<D> {
    ghost use Rattle.ep_outside.specs.declared.image.Image.{Image as AnyImage};

    /// An open machine's accept.
    pub(crate) fn take(
        &mut self,
        session: Session,
        base: u64,
        change: Change,
        now: u64,
    ) -> Result<Committed, PadBad>
        requires { self.old.is_open ≡ true }
        ensures steps { (before : Held D) (st mid : MachineState) → IsWoken st mid
            → Comes D.told D.failures D.moment D.since D.is_steady D.stops_alone D.left before st self.old mid
            → (next : MachineState) × IsStep size st (Accept session base change now) (replied (λ x. CommitAnswer (told_by x)) result) next
            × Comes D.told D.failures D.moment D.since D.is_steady D.stops_alone D.left before st self.new next }
        ensures stopped { (st : MachineState) (calls : ℕ) → IsKeptState st → Stands D.told D.failures self.old st → D.stops_alone self.old.disk ≡ true
            → D.left self.old.disk ≡ Some calls → (asked : AnyImage) (c : Contents) (image : List ℕ) → D.told self.new.disk ≡ Some c → IsAsked c asked image
            → (at : MachineState) × StopsIn st (Accept session base change now) (replied (λ x. CommitAnswer (told_by x)) result) (is_kept (gate_behind st.records) calls asked) at
            × MayFind self.old.limits (D.failures self.new.disk) image at }
        ensures unmade { IfErr result (λ bad. bad ≡ lacks.NoMemory → IsUncalled D.told D.failures D.left self.old.disk self.new.disk) }
        ensures limits { self.new.limits ≡ self.old.limits }
    {
        let _normal = change.ops();
        let ready = self.pad.accept(self.alloc, session, base, change, now)?;
        self.keep(ready)
    }
}

impl<D: Crash> PadMachine<D> {
    /// A session's change is accepted on a disk that stops after so many device calls of it, and then the disk is restarted
    /// with the image that is asked for. A machine that is closed first opens. `Ok` has what the change was answered, which
    /// nobody hears.
    pub fn accept_stopped(
        &mut self,
        calls: u64,
        asked: Image,
        session: Session,
        base: u64,
        change: Change,
        now: u64,
    ) -> Result<Result<Committed, PadBad>, PadBad>
        // The accept is done exactly where it made four device calls, or where it made three and the image has the byte 01 at the gate.
        ensures stops { (st : MachineState) → IsKeptState st → Stands D.told D.failures self.old st → D.stops_alone self.old.disk ≡ true → MatchResult result
            (λ taken. (mid at last : MachineState) × IsWoken st mid
            × StopsIn mid (Accept session base change now) (replied (λ x. CommitAnswer (told_by x)) taken) (is_kept (gate_behind mid.records) calls asked) at
            × IsWoken at last × Stands D.told D.failures self.new last)
            (λ bad. (next : MachineState) × StaysStopped st (Accept session base change now) bad next × Stands D.told D.failures self.new next) }
        // So it is where the journal has no room for an opening.
        ensures full { (st : MachineState) (n : ℕ) → IsKeptState st → Stands D.told D.failures self.old st → D.stops_alone self.old.disk ≡ true
            → IfErr result (λ bad. bad ≡ PadBad.JournalFull n → (next : MachineState)
            × HasNoRoom st (Accept session base change now) (λ mid. is_kept (gate_behind mid.records) calls asked) bad next
            × Stands D.told D.failures self.new next) }
        // Over any disk the machine then stays closed.
        ensures shut { (st : MachineState) (n : ℕ) → IsKeptState st → Stands D.told D.failures self.old st → IfErr result (λ bad. bad ≡ PadBad.JournalFull n
            → (next : MachineState) × StaysStopped st (Accept session base change now) bad next × Stands D.told D.failures self.new next) }
        ensures works { OnOk result (D.left self.new.disk ≡ None) }
        // Over any disk it is one step of the machine, and then a crash.
        ensures steps { (st : MachineState) → IsKeptState st → Stands D.told D.failures self.old st → IfOk result
            (λ taken. (mid next last : MachineState) × IsWoken st mid
            × IsStep size mid (Accept session base change now) (replied (λ x. CommitAnswer (told_by x)) taken) next
            × IsWoken (stopped next) last × Stands D.told D.failures self.new last) }
        ensures alone { (st : MachineState) → IsKeptState st → Stands D.told D.failures self.old st → D.stops_alone self.new.disk ≡ D.stops_alone self.old.disk }
    {
        self.wake()?;
        self.stop_after(calls, Image::Old);
        let taken = self.take(session, base, change, now);
        self.stop_after(0, asked);
        match self.restart() {
            Ok(()) => Ok(taken),
            Err(bad) => Err(told_behind(&taken, bad)),
        }
    }
}

/// What is told of an opening that was refused behind a take.
fn told_behind(taken: &Result<Committed, PadBad>, bad: PadBad) -> PadBad
    ensures { IsToldBehind taken.now bad result }
{
    match (taken, bad) {
        (Err(PadBad::NoMemory), PadBad::JournalFull(_)) => PadBad::NoMemory,
        _ => bad,
    }
}

//! The laws of a pad machine's legal histories.

ghost use Rattle.std.specs.Prelude.{◌≡◌, Bool, List, ℕ, Err, true};
ghost use Rattle.ep_units.specs.declared.session.Session.{Session};
ghost use Rattle.ep_cs.specs.Change.{Change};
ghost use Rattle.ep_cs.specs.EditFits.{is_edit};
ghost use Rattle.ep_cs.specs.Fits.{is_identity};
ghost use Rattle.ep_cs.specs.Edit.{Edit};
ghost use Rattle.ep_cs.specs.NormalRuns.{IsNormal};
ghost use Rattle.ep_history.specs.History.{head, rebase};
ghost use Rattle.ep_history.specs.Pad.{PadState, newest};
ghost use Rattle.ep_history.specs.Accept.{at_head, committed};
ghost use Rattle.ep_history.specs.Admissible.{IsAdmissible};
ghost use Rattle.ep_history.specs.Readings.{commit};
ghost use Rattle.ep_history.specs.Records.{accept_record};
ghost use Rattle.ep_history.specs.Entries.{Entry, Reply};
ghost use Rattle.ep_history.specs.Entries.Entry.{Accept};
ghost use Rattle.ep_history.specs.Machine.{Call, CommitsUnless, IsFirst, IsKeptState, IsOpenStep, IsStep, MachineState, Runs, Size, StaysAs, settled};
ghost use Rattle.ep_history.specs.declared.pad_bad.PadBad.{PadBad};
ghost use Rattle.ep_history.specs.declared.pad_bad.PadBad.TheVariants.{Store};

/// In each state of a legal history the records are a legal list that tells the pad apart from its sessions; and so they
/// are with the record at which the store failed, where it turns out to be kept.
pub fn records_tell_each_state()
    ensures first { (st : MachineState) → IsFirst st → IsKeptState st }
    ensures step { (size : Size) (st : MachineState) (e : Entry) (reply : Reply) (new : MachineState)
        → IsKeptState st → IsStep size st e reply new → IsKeptState new }
    ensures run { (size : Size) (st : MachineState) (calls : List Call) (last : MachineState)
        → IsKeptState st → Runs size st calls last → IsKeptState last }
    ensures settled { (st : MachineState) (kept : Bool) → IsKeptState st → IsKeptState (settled kept st) }
{}

/// A refusal changes nothing, but that a closed machine may have found its records, or have opened itself; and but for
/// the store's.
pub fn refusals_change_nothing()
    ensures { (size : Size) (st : MachineState) (e : Entry) (bad : PadBad) (new : MachineState)
        → IsStep size st e (Err bad) new → ((count : ℕ) → bad ≡ Store count → ⊥) → StaysAs st.is_open st new }
{}

/// An open machine commits each admissible edit, rebased, unless the journal's limit, the store or memory hinders it.
/// What is told says where the change had become nothing. The change of a program is an edit.
pub fn admissible_edits_are_committed()
    ensures commits { (size : Size) (st : MachineState) (s : Session) (now base : ℕ) (c : Change) (reply : Reply) (new : MachineState)
        → IsNormal c → IsAdmissible st.pad s base c → IsOpenStep size st (Accept s base c now) reply new
        → CommitsUnless st (commit st.pad (at_head st.pad base c.edit)) (accept_record st.pad s now base c) (committed st.pad s now base c) reply new }
    ensures rebased { (pad : PadState) (base : ℕ) (e : Edit)
        → (commit pad (at_head pad base e)).change.edit ≡ rebase (newest pad) e base (head (newest pad)) }
    ensures nop { (pad : PadState) (e : Edit) → (commit pad e).nop ≡ is_identity e }
    ensures edit { (c : Change) → IsNormal c → is_edit c.edit ≡ true }
{}

//! The law that joins a session and its pad's history.

ghost use Rattle.std.specs.Prelude.{◌≡◌, [], ◌∷◌, List, true};
ghost use Rattle.ep_cell.specs.History.{pairs};
ghost use Rattle.ep_cell.specs.Passes.{Known};
ghost use Rattle.ep_dir_records.specs.declared.ids.Drawn.{Drawn};
ghost use Rattle.ep_history.specs.Machine.{MachineState, Runs as Leads};
ghost use Rattle.ep_pad.specs.Held.{Held};
ghost use Rattle.ep_pad.specs.Histories.{HasTold, IsFirstOf, calls_of as all_calls};
ghost use Rattle.ep_pad.specs.Lazy.{IsLegalFrom, IsOpenedBehind, IsShut, Lazy};
ghost use Rattle.ep_pad.specs.declared.entries.PadEntry.{PadEntry};
ghost use Rattle.ep_pad.specs.declared.entries.PadReply.{PadReply};
ghost use Rattle.ep_pad_file.specs.Standing.{size};
ghost use Rattle.ep_session.specs.Output.{place_at, said_of};
ghost use Rattle.ep_session.specs.Passing.{own};
ghost use Rattle.ep_session.specs.Session.{Did, Greet, Outcome, Runs, calls_of, nowhere};
ghost use Rattle.ep_told.specs.Telling.{TellsHistory};

use ep_outside::Disk;

/// Whatever others did to the pad meanwhile, a session that was answered sends its pad's history: of one birth the
/// document that it entered, and then each revision behind its start, one after the other, up to its cursor. None is left
/// out, none comes twice, none is of another birth. The pad is open then: some first calls may have been refused as its disk
/// was, and the others are those of the machine that was opened.
pub fn sends_its_pads_history<D: Disk>()
    ensures { (begun : Lazy D) (pass : Known PadEntry PadReply) (drawn : Drawn) (log : List Did) (out : Outcome)
        → IsLegalFrom D.told D.failures begun (pairs pass.seen)
        → Runs nowhere (Greet drawn ∷ []) log out → own pass ≡ calls_of log → (place_at out).inside ≡ true
        → (disk : D) × IsShut begun disk × (opened : Held D) × (others : List (PadEntry × PadReply))
        × IsOpenedBehind D.told D.failures begun.limits disk (pairs pass.seen) opened others
        × (HasTold D.told opened → (first : MachineState) × (last : MachineState) × IsFirstOf D.told D.failures opened first × Leads size first (all_calls others) last
        × TellsHistory last.pad (place_at out) (said_of log)) }
{}

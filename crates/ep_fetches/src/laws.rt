//! The laws of what one session is told.

ghost use Rattle.std.specs.Prelude.{◌≡◌, ◌+◌, ◌≤◌, ◌∷◌, List, ℕ, Ok, drop, length, take};
ghost use Rattle.ep_units.specs.declared.session.Session.{Session};
ghost use Rattle.ep_units.specs.declared.grant.Grant.{Grant};
ghost use Rattle.ep_history.specs.History.{Birth, doc_at, made};
ghost use Rattle.ep_history.specs.Pad.{birth_at};
ghost use Rattle.ep_history.specs.Readings.{Welcome, nop_heads};
ghost use Rattle.ep_history.specs.Entries.Answer.{LoginAnswer};
ghost use Rattle.ep_history.specs.Entries.Entry.{Login};
ghost use Rattle.ep_history.specs.Machine.{Call, IsKeptState, IsLegal, MachineState, Runs, Size};
ghost use Rattle.ep_history.specs.Fetches.{GoOn, TellOn, all_given, all_told};
ghost use Rattle.ep_fetches.specs.Told.{AreTold};

/// All that one session is told in a legal history is of one birth: the document at its login, the head at its
/// resumption, each commit of its own, what each of its fetches gives, and each piece of the history that it reads.
/// It is the birth whose number the login or the resumption told. No other birth mixes in, whatever failed between.
pub fn one_birth_a_session()
    ensures legal { (size : Size) (calls : List Call) (me : Session)
        → IsLegal size calls → (k : ℕ) × (b : Birth) × AreTold k b me calls }
    ensures run { (size : Size) (first last : MachineState) (calls : List Call) (me : Session)
        → IsKeptState first → Runs size first calls last
        → (k : ℕ) × (k ≤ length last.pad.births) × AreTold k (birth_at last.pad k) me calls }
{}

/// Where each fetch of a session goes on where the last one ended, all the revisions that they gave, one behind the
/// other, are the first ones of the birth behind the start: none is left out and none comes twice. So it is of its edits
/// that became nothing.
pub fn none_left_out()
    ensures revs { (k : ℕ) (b : Birth) (me : Session) (calls : List Call) (start : ℕ)
        → AreTold k b me calls → GoOn me start calls
        → all_given me calls ≡ take (length (all_given me calls)) (drop start b.later) }
    ensures nops { (k : ℕ) (b : Birth) (me : Session) (calls : List Call) (start : ℕ)
        → AreTold k b me calls → TellOn me start calls
        → all_told me calls ≡ take (length (all_told me calls)) (drop start (nop_heads me b)) }
{}

/// The document of a revision, changed by all that a session's fetches gave behind it, is the document of the revision
/// that they reach; so is the one that was told at the login.
pub fn documents_follow()
    ensures start { (k : ℕ) (b : Birth) (me : Session) (calls : List Call) (start : ℕ)
        → AreTold k b me calls → GoOn me start calls
        → made (doc_at b start) (all_given me calls) ≡ doc_at b (start + length (all_given me calls)) }
    ensures login { (k : ℕ) (b : Birth) (g : Grant) (now : ℕ) (w : Welcome) (after : List Call)
        → AreTold k b w.session (record { entry = Login g now; reply = Ok (LoginAnswer w) } ∷ after) → GoOn w.session w.rev after
        → made w.doc (all_given w.session after) ≡ doc_at b (w.rev + length (all_given w.session after)) }
{}

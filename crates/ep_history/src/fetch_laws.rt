//! The laws of what one session is told in a legal history.

ghost use Rattle.std.specs.Prelude.{◌≡◌, ◌≤◌, ◌+◌, ◌++◌, ◌∷◌, List, ℕ, Ok, Option, length};
ghost use Rattle.ep_units.specs.Text.{Text};
ghost use Rattle.ep_units.specs.declared.session.Session.{Session};
ghost use Rattle.ep_units.specs.declared.grant.Grant.{Grant};
ghost use Rattle.ep_history.specs.History.{doc_at};
ghost use Rattle.ep_history.specs.Pad.{birth_at};
ghost use Rattle.ep_history.specs.Readings.{CatchUp, Fetched, Piece, Welcome};
ghost use Rattle.ep_history.specs.Entries.Answer.{FetchAnswer, HistoryAnswer, LoginAnswer, ResumeAnswer};
ghost use Rattle.ep_history.specs.Entries.Entry.{Fetch, Login, ReadHistory, Resume};
ghost use Rattle.ep_history.specs.Machine.{Call, IsKeptState, IsStep, MachineState, Runs, Size};
ghost use Rattle.ep_history.specs.Fetches.{AreBehind, AreNops, GoOn, TellOn, all_given, all_told};

/// What a session was told is of its birth: the document at its login, and the revisions that its fetches were answered
/// behind its login's or its resumption's, each fetch going on where the last one ended. Whatever else was asked between.
pub fn fetches_follow_the_birth()
    ensures login { (size : Size) (first last : MachineState) (before after : List Call) (g : Grant) (now : ℕ) (w : Welcome)
        → IsKeptState first
        → Runs size first (before ++ record { entry = Login g now; reply = Ok (LoginAnswer w) } ∷ after) last
        → GoOn w.session w.rev after
        → AreBehind (birth_at last.pad w.birth) w.rev (all_given w.session after)
        × (w.doc ≡ doc_at (birth_at last.pad w.birth) w.rev) }
    ensures resume { (size : Size) (first last : MachineState) (before after : List Call)
        (g : Grant) (rev : ℕ) (birth : Option ℕ) (author : Option Text) (now : ℕ) (w : CatchUp)
        → IsKeptState first
        → Runs size first (before ++ record { entry = Resume g rev birth author now; reply = Ok (ResumeAnswer w) } ∷ after) last
        → GoOn w.session rev after
        → AreBehind (birth_at last.pad w.birth) rev (all_given w.session after) }
{}

/// What a session's fetches told it of its edits that became nothing are those of its birth, in order from the first on,
/// each fetch knowing of those that were told before.
pub fn fetches_tell_what_became_nothing()
    ensures login { (size : Size) (first last : MachineState) (before after : List Call) (g : Grant) (now : ℕ) (w : Welcome)
        → IsKeptState first
        → Runs size first (before ++ record { entry = Login g now; reply = Ok (LoginAnswer w) } ∷ after) last
        → TellOn w.session 0 after
        → AreNops w.session (birth_at last.pad w.birth) (all_told w.session after) }
    ensures resume { (size : Size) (first last : MachineState) (before after : List Call)
        (g : Grant) (rev : ℕ) (birth : Option ℕ) (author : Option Text) (now : ℕ) (w : CatchUp)
        → IsKeptState first
        → Runs size first (before ++ record { entry = Resume g rev birth author now; reply = Ok (ResumeAnswer w) } ∷ after) last
        → TellOn w.session 0 after
        → AreNops w.session (birth_at last.pad w.birth) (all_told w.session after) }
{}

/// No reading goes past the head that it tells.
pub fn readings_stay_within()
    ensures fetch { (size : Size) (st : MachineState) (s : Session) (from told : ℕ) (x : Fetched) (new : MachineState)
        → IsStep size st (Fetch s from told) (Ok (FetchAnswer x)) new → from + length x.revs ≤ x.head }
    ensures history { (size : Size) (st : MachineState) (s : Session) (start count : ℕ) (x : Piece) (new : MachineState)
        → IsStep size st (ReadHistory s start count) (Ok (HistoryAnswer x)) new → start + length x.revs ≤ x.head }
    ensures steps { (size : Size) (first last : MachineState) (before after : List Call) (c : Call)
        → Runs size first (before ++ c ∷ after) last
        → (st : MachineState) × (new : MachineState) × IsStep size st c.entry c.reply new }
{}

//! What the walk of a session implies.

ghost use Rattle.std.specs.Prelude.{◌≡◌, ℕ, false, List, [], ◌∷◌, ◌++◌, Some, None};
ghost use Rattle.ep_dir_records.specs.declared.ids.Drawn.{Drawn};
ghost use Rattle.ep_history.specs.Pad.{PadState};
ghost use Rattle.ep_history.specs.Refusals.{first_fault, full_faults, login_fault, resume_fault};
ghost use Rattle.ep_link.specs.declared.passed.LinkGot.{LinkGot};
ghost use Rattle.ep_units.specs.declared.grant.Grant.{Grant};
ghost use Rattle.ep_wire_words.specs.declared.client.Resume.{Resume};
ghost use Rattle.ep_session.specs.Ends.{absent_fault, may_make};
ghost use Rattle.ep_session.specs.Acts.{AreCalled, IsReady};
ghost use Rattle.ep_session.specs.Beginning.{IsBegun};
ghost use Rattle.ep_session.specs.Output.{IsCursor, IsOutput, place_at};
ghost use Rattle.ep_session.specs.Session.{Did, Greet, Heard, Outcome, Runs, calls_of, nowhere};

/// The directory is asked once at most, by the first message; the registry once at most, for the granted pad; the
/// first call of the pad logs in or resumes by that grant. A session that was refused there ended so.
pub fn begins_in_order()
    ensures { (drawn : Drawn) (log : List Did) (out : Outcome) → Runs nowhere (Greet drawn ∷ []) log out → IsBegun drawn log out }
{}

/// Who is told that nobody has made the pad is refused as by the rules where no pad is: a login that makes none, and a
/// resumption, unless the pad is full.
pub fn refuses_where_none_is()
    ensures login { (pad : PadState) (grant : Grant) → pad.present ≡ false → may_make grant None ≡ false → login_fault pad grant ≡ Some (absent_fault grant None) }
    ensures resume { (pad : PadState) (grant : Grant) (again : Resume) → pad.present ≡ false → first_fault (full_faults pad grant.author) ≡ None
        → resume_fault pad grant again.rev again.birth again.author ≡ Some (absent_fault grant (Some again)) }
{}

/// Each edit that was read is brought to the pad, and each request for steps is asked of it, in order; the last may be
/// missing.
pub fn asks_as_told()
    ensures { (drawn : Drawn) (log : List Did) (out : Outcome) → Runs nowhere (Greet drawn ∷ []) log out → AreCalled log }
{}

/// Before each receive behind the login all that was new is told: the last call is a fetch that reached the head, and
/// the cursor is that head.
pub fn tells_before_hearing()
    ensures { (drawn : Drawn) (log more : List Did) (g : LinkGot) (n : ℕ) (out : Outcome) → Runs nowhere (Greet drawn ∷ []) (log ++ Heard g n ∷ more) out → IsReady nowhere (Greet drawn ∷ []) log }
{}

/// What a session sends, beside the steps of timesliders, is a beginning of what its calls of the pad say: the document,
/// or that nothing was missed; and then each revision and each edit that has become nothing that its fetches brought.
pub fn sends_its_output()
    ensures { (drawn : Drawn) (log : List Did) (out : Outcome) → Runs nowhere (Greet drawn ∷ []) log out → IsOutput log (calls_of log) }
{}

/// The revisions that were told are those behind the start, in order, up to the cursor; that an edit has become nothing is
/// told with the number of the revision that was told last.
pub fn cursor_counts()
    ensures { (drawn : Drawn) (log : List Did) (out : Outcome) → Runs nowhere (Greet drawn ∷ []) log out → IsCursor log (place_at out) }
{}

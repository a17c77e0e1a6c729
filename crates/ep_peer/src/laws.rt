//! What the walk of a writer implies.

ghost use Rattle.std.specs.Prelude.{◌≡◌, ℕ, None, Ok, List, ◌++◌, ◌∷◌};
ghost use Rattle.ep_units.specs.Text.{Text};
ghost use Rattle.ep_cs.specs.Change.{Change};
ghost use Rattle.ep_cs.specs.Doc.{Doc};
ghost use Rattle.ep_cs.specs.Fits.{is_identity};
ghost use Rattle.ep_event.specs.declared.event.Local.{Local};
ghost use Rattle.ep_local.specs.Local.{local_edit};
ghost use Rattle.ep_wire_words.specs.declared.client.ClientMsg.TheVariants as msgs;
ghost use Rattle.ep_peer.specs.Altered.{IsAsked, IsIdleAfter, IsNextOf, alterations, altered_by, says_nothing};
ghost use Rattle.ep_peer.specs.Output.{AreCommitted, IsDone, IsSentOf, client_after, output, said_of};
ghost use Rattle.ep_peer.specs.Writer.{Did, Ends, Goes, Lined, Opening, Outcome, Runs, Said, ready};
ghost use Rattle.ep_peer.specs.Cuts.{Cut};
ghost use Rattle.ep_peer.specs.declared.writer.Written.{Written};

/// What is sent is the first message, and then in order behind each line what the client submits, where its local change
/// alters something. The last may be missing. The client is the one that started with the document received, heard what
/// was received, and was edited by the splices and paintings of the lines.
pub fn sends_its_lines()
    ensures { (pad token : Text) (log : List Did) (out : Outcome) → Runs (Goes (Opening pad token)) log out → IsSentOf (said_of log) (ready pad token ∷ output None log) }
{}

/// Before a line is read all that was sent is committed: as many commits were heard as edits were sent.
pub fn reads_when_committed()
    ensures { (pad token : Text) (log more : List Did) (c : Cut) (out : Outcome) → Runs (Goes (Opening pad token)) (log ++ Lined c ∷ more) out → AreCommitted log }
{}

/// Before an edit is sent each one before it is committed.
pub fn sends_when_committed()
    ensures { (pad token : Text) (log more : List Did) (base : ℕ) (change : Change) (out : Outcome) → Runs (Goes (Opening pad token)) (log ++ Said (msgs.Edit base change) ∷ more) out → AreCommitted log }
{}

/// A writer ends well only where the source told its end and all that was sent is committed; what it answers is the
/// client's revision, and the text that the client shows.
pub fn ends_when_committed()
    ensures { (pad token : Text) (log : List Did) (w : Written) → Runs (Goes (Opening pad token)) log (Ends (Ok w)) → IsDone log w }
{}

/// Whenever the source is asked for a line, or tells its end, the client has nothing of its own: it sees the document of
/// its revision as that is.
pub fn asks_with_nothing_of_its_own()
    ensures { (pad token : Text) (log more : List Did) (did : Did) (out : Outcome) → IsAsked did → Runs (Goes (Opening pad token)) (log ++ did ∷ more) out → IsIdleAfter log }
{}

/// What is sent is the first message, and then in order behind each line whose own edit alters something of what the
/// client sees just that edit, as a change of the client's revision. The last may be missing.
pub fn sends_what_its_lines_alter()
    ensures { (pad token : Text) (log : List Did) (out : Outcome) → Runs (Goes (Opening pad token)) log out → IsSentOf (said_of log) (ready pad token ∷ alterations None log) }
{}

/// The next thing that is done behind a line is the send of its edit, where that alters something of what the client
/// sees; and else the source is asked for the next line.
pub fn answers_each_line()
    ensures { (pad token : Text) (log more : List Did) (c : Cut) (did : Did) (out : Outcome) → Runs (Goes (Opening pad token)) (log ++ Lined c ∷ did ∷ more) out → IsNextOf (altered_by (client_after None log) (Lined c)) did }
{}

/// The edit of a line alters nothing just where it inserts no unit, or deletes or formats none.
pub fn alters_where_it_says_something()
    ensures { (e : Local) (doc : Doc) → is_identity (local_edit e doc) ≡ says_nothing e }
{}

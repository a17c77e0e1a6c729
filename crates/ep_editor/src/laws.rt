//! What the table of requests implies.

ghost use Rattle.std.specs.Prelude.{◌≡◌, ℕ, false, None, Some};
ghost use Rattle.ep_cs.specs.Doc.{Doc};
ghost use Rattle.ep_history.specs.Kept.{IsKeptSound};
ghost use Rattle.ep_editor.specs.Inside.{kept_of};
ghost use Rattle.ep_editor.specs.Kept.{kept_fault, work, work_in};
ghost use Rattle.ep_editor.specs.Past.{hears_slid, slides};
ghost use Rattle.ep_editor.specs.Replies.{Past};
ghost use Rattle.ep_editor.specs.Requests.{Request, answer, is_busy};
ghost use Rattle.ep_editor.specs.Requests.Request.{EntersAgain};
ghost use Rattle.ep_editor.specs.Rules.{IfInside, IsFitting, IsOfConnection, IsOfPad, IsRemaking, IsSameWork, KeepsRules, shown_after};
ghost use Rattle.ep_editor.specs.declared.editor.Editor.{Editor as AnyEditor};
ghost use Rattle.ep_editor.specs.declared.editor.Editor.TheVariants.{Inside};
ghost use Rattle.ep_editor.specs.declared.editor.Wanted.{Wanted as AnyWanted};
ghost use Rattle.ep_editor.specs.declared.entered.Entered.{Entered as AnyEntered};
ghost use Rattle.ep_editor.specs.declared.kept.Kept.{Kept as AnyKept};
ghost use Rattle.ep_hearing.specs.declared.meaning.Slid.{Slid as AnySlid};
ghost use Rattle.ep_timeslider.specs.Steps.{AreStepsOf, IsSliderOf, steps_of};
ghost use Rattle.ep_timeslider.specs.declared.slider.Asked.{Asked as AnyAsked};

/// Whatever is asked, the client takes only steps that the client rules allow, and what is sent of edits is what these
/// submit.
pub fn keeps_the_client_rules()
    ensures { (r : Request) (p : AnyEntered) → IsOfPad r → IsFitting r p → KeepsRules r p }
{}

/// What was shown, changed by each edit that was asked for and each change that was answered, is the view.
pub fn answers_each_change_of_the_view()
    ensures { (r : Request) (p : AnyEntered) → IsOfPad r → IsRemaking r p → IfInside (answer r (Inside p)).1 (λ q. (kept_of q).view ≡ shown_after p.author r (answer r (Inside p)).0 (kept_of p).view) }
{}

/// A lost connection, one that is there again, a keep and a look at the past lose nothing of what was typed.
pub fn a_lost_connection_loses_no_work()
    ensures { (r : Request) (p : AnyEntered) → IsOfConnection r → IfInside (answer r (Inside p)).1 (λ q. IsSameWork (kept_of p) (kept_of q)) }
{}

/// Who enters with what was kept of an editor goes on where that was.
pub fn what_is_kept_goes_on()
    ensures { (wanted : AnyWanted) (k : AnyKept) (p : AnyEntered) (s : AnyEditor) → IsKeptSound (kept_of p) → work_in k ≡ work p → kept_fault k ≡ None → is_busy s ≡ false
        → IfInside (answer (EntersAgain wanted k) s).1 (λ q. IsSameWork (kept_of p) (kept_of q)) }
{}

/// As long as the steps that come are those of a history, what is shown of a revision is its document there.
pub fn the_slider_shows_the_history()
    ensures asked { (docs : ℕ → Doc) (to : ℕ) (p : AnyEntered) (doc : Doc) → IsSliderOf docs p.slider → (slides to p).0 ≡ Past doc → doc ≡ docs to }
    ensures stays { (docs : ℕ → Doc) (to : ℕ) (p : AnyEntered) → IsSliderOf docs p.slider → IsSliderOf docs (slides to p).1.slider }
    ensures told { (docs : ℕ → Doc) (s : AnySlid) (q : AnyAsked) (p : AnyEntered) (doc : Doc) → IsSliderOf docs p.slider → AreStepsOf docs (steps_of s) → p.slider.asked ≡ Some q → (hears_slid s p).0 ≡ Past doc → doc ≡ docs q.to }
    ensures hears { (docs : ℕ → Doc) (s : AnySlid) (p : AnyEntered) → IsSliderOf docs p.slider → AreStepsOf docs (steps_of s) → IsSliderOf docs (hears_slid s p).1.slider }
{}

//! What a taken edit is to its pad.

ghost use Rattle.std.specs.Prelude.{◌≡◌, ℕ, [], ◌∷◌, drop};
ghost use Rattle.ep_units.specs.Text.{Text};
ghost use Rattle.ep_cs.specs.Change.{Change};
ghost use Rattle.ep_cs.specs.Edit.{Edit};
ghost use Rattle.ep_history.specs.Accept.{made_at_head};
ghost use Rattle.ep_history.specs.History.{Birth, By, by_nobody, doc_at, first_rev, head, head_doc, made, newline, nop_by, step_revs};
ghost use Rattle.ep_history.specs.Pad.{PadState, newest, with_nops, with_revs};
ghost use Rattle.ep_history.specs.Records.{edit_record, rev_record};
ghost use Rattle.ep_history.specs.declared.record.Record.TheVariants as record_of;
ghost use Rattle.ep_step.specs.Step.{step_of};
ghost use Rattle.ep_step.specs.Taking.{taken_of};
ghost use Rattle.ep_step.specs.Texts.{first_edit};
ghost use Rattle.ep_step.specs.declared.step.Step.{Step};
ghost use Rattle.ep_step.specs.declared.taking.Taken.TheVariants as taken;

/// Of an edit of which nothing is left a pad gets a note, and records it; of any other it gets the revisions of the
/// edit's step, and records the first.
pub fn taken_edits_are_committed()
    ensures nop { (pad : PadState) (by : By) (e : Edit) (c : Change) → taken_of e (head_doc (newest pad)) ≡ taken.Nop c
        → (made_at_head pad by e ≡ with_nops pad (nop_by by (head (newest pad)) ∷ [])) × (edit_record pad by e ≡ record_of.Nop by.session by.time) }
    ensures step { (pad : PadState) (by : By) (e : Edit) (s : Step) → taken_of e (head_doc (newest pad)) ≡ taken.Step s
        → (made_at_head pad by e ≡ with_revs pad (step_revs by e (head_doc (newest pad)))) × (edit_record pad by e ≡ rev_record pad by e) × (s ≡ step_of e (head_doc (newest pad))) }
{}

/// The revisions behind any revision of a birth lead from its document to the head's.
pub fn revisions_lead_to_the_head()
    ensures { (b : Birth) (r : ℕ) → made (doc_at b r) (drop r b.later) ≡ head_doc b }
{}

/// The first step of a birth is revision 0.
pub fn first_steps_are_first_revisions()
    ensures { (now : ℕ) (text : Text) → step_revs (by_nobody now) (first_edit text) newline ≡ first_rev now text ∷ [] }
{}

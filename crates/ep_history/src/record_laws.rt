//! The laws of records: which lists are legal, what they tell, and what each call records.

ghost use Rattle.std.specs.Prelude.{◌≡◌, ◌≤◌, ◌++◌, ◌∷◌, [], ◌↔◌, true, Bool, List, ℕ, None};
ghost use Rattle.ep_units.specs.Text.{Text, is_well_formed};
ghost use Rattle.ep_units.specs.declared.session.Session.{Session};
ghost use Rattle.ep_outside.specs.declared.limits.Limits.{Limits};
ghost use Rattle.ep_cs.specs.Change.{Change};
ghost use Rattle.ep_cs.specs.EditFits.{is_edit};
ghost use Rattle.ep_history.specs.Pad.{PadState, create, delete, set_public};
ghost use Rattle.ep_history.specs.Accept.{refusal, committed};
ghost use Rattle.ep_history.specs.Server.{create_fault, set_fault, set_text, gone_fault};
ghost use Rattle.ep_history.specs.Records.{AreLegal, IsNext, IsSoundPad, accept_record, create_record, next_pad, set_record, told, without_sessions};
ghost use Rattle.ep_history.specs.declared.record.Record.{Record};
ghost use Rattle.ep_history.specs.declared.record.Record.TheVariants.{Open, Delete, Public};

/// The first record of a legal list is the first opening.
pub fn opened_first()
    ensures { (limits : Limits) (r : Record) (rs : List Record) → AreLegal limits (r ∷ rs) → r ≡ Open 1 }
{}

/// A list with one record more is legal exactly where the list is and the record may come next; and what it tells then.
pub fn one_record_more()
    ensures legal { (limits : Limits) (rs : List Record) (r : Record)
        → AreLegal limits (rs ++ r ∷ []) ↔ (AreLegal limits rs × IsNext (told limits rs) r) }
    ensures told { (limits : Limits) (rs : List Record) (r : Record)
        → told limits (rs ++ r ∷ []) ≡ next_pad (told limits rs) r }
{}

/// A legal list tells a sound pad, and a record that may come next leaves a sound pad so. What a record does to the
/// sessions changes nothing else.
pub fn records_keep_pads_sound()
    ensures legal { (limits : Limits) (rs : List Record) → AreLegal limits rs → IsSoundPad (told limits rs) }
    ensures next { (pad : PadState) (r : Record) → IsSoundPad pad → IsNext pad r → IsSoundPad (next_pad pad r) }
    ensures apart { (pad : PadState) (r : Record) → without_sessions (next_pad pad r) ≡ next_pad (without_sessions pad) r }
{}

/// The record of each call that isn't refused may come next, and tells the pad that the call makes.
pub fn calls_are_recorded()
    ensures accept { (pad : PadState) (s : Session) (now base : ℕ) (c : Change)
        → IsSoundPad pad → refusal pad s base c ≡ None → is_edit c.edit ≡ true
        → IsNext pad (accept_record pad s now base c) × (next_pad pad (accept_record pad s now base c) ≡ committed pad s now base c) }
    ensures create { (pad : PadState) (now : ℕ) (text : Text)
        → 1 ≤ pad.epoch → create_fault pad text ≡ None → is_well_formed text ≡ true
        → IsNext pad (create_record pad now text) × (next_pad pad (create_record pad now text) ≡ create pad now text) }
    ensures set_text { (pad : PadState) (now : ℕ) (text : Text)
        → IsSoundPad pad → set_fault pad text ≡ None → is_well_formed text ≡ true
        → IsNext pad (set_record pad now text) × (next_pad pad (set_record pad now text) ≡ set_text pad now text) }
    ensures delete { (pad : PadState) (now : ℕ)
        → gone_fault pad ≡ None → IsNext pad (Delete now) × (next_pad pad (Delete now) ≡ delete pad) }
    ensures set_public { (pad : PadState) (on : Bool)
        → gone_fault pad ≡ None → IsNext pad (Public on) × (next_pad pad (Public on) ≡ set_public pad on) }
{}

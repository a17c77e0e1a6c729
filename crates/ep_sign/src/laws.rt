//! The laws of signing, over the definitions that the call cites.

ghost use Rattle.std.specs.Prelude.{◌≡◌, false, map, length};
ghost use Rattle.ep_units.specs.Text.{Text};
ghost use Rattle.ep_cs.specs.Doc.{Cell, Doc, painted};
ghost use Rattle.ep_cs.specs.Edit.{Edit, apply, over, compose, pieces};
ghost use Rattle.ep_sign.specs.Signing.{names_another, inserts_another, signing, signed};

/// An edit, and then what signs it, make what the edit makes with its new units signed: units that it keeps are as it left them.
pub fn new_units_are_signed()
    ensures { (author : Text) (e : Edit) (doc : Doc) → length doc ≡ length e.places → apply (signing author e) (apply e doc) ≡ over painted (signed author) e.places e.last doc }
{}

/// A unit that was signed names no other author, and has the text that it had.
pub fn signed_units_name_no_other()
    ensures author { (author : Text) (c : Cell) → names_another author (signed author c).attrs ≡ false }
    ensures unit { (author : Text) (c : Cell) → (signed author c).unit ≡ c.unit }
{}

/// As one, an edit and what signs it insert what the edit inserts, signed: nothing that names another.
pub fn together_no_other_is_named()
    ensures pieces { (author : Text) (e : Edit) → pieces (compose e (signing author e)).places (compose e (signing author e)).last ≡ map (signed author) (pieces e.places e.last) }
    ensures other { (author : Text) (e : Edit) → inserts_another author (compose e (signing author e)) ≡ false }
{}

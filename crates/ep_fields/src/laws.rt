//! The law of fields as bytes.

ghost use Rattle.std.specs.Prelude.{◌≡◌, ◌++◌, Bool, List, ℕ, Some};
ghost use Rattle.ep_units.specs.Text.{Text};
ghost use Rattle.ep_units.specs.declared.session.Session.{Session};
ghost use Rattle.ep_cs.specs.Change.{Change};
ghost use Rattle.ep_fields.specs.Bytes.{change, flag, frame, number, session, text, IsChange, IsFrame, IsNumber, IsSession, IsText};
ghost use Rattle.ep_fields.specs.Reading.{change_at, flag_at, frame_at, number_at, session_at, text_at};

/// A field is read again from the front of its bytes, and what stands behind is left.
pub fn fields_are_read_again()
    ensures numbers { (n : ℕ) (rest : List ℕ) → IsNumber n → number_at (number n ++ rest) ≡ Some (n, rest) }
    ensures sessions { (s : Session) (rest : List ℕ) → IsSession s → session_at (session s ++ rest) ≡ Some (s, rest) }
    ensures flags { (b : Bool) (rest : List ℕ) → flag_at (flag b ++ rest) ≡ Some (b, rest) }
    ensures texts { (us : Text) (rest : List ℕ) → IsText us → text_at (text us ++ rest) ≡ Some (us, rest) }
    ensures changes { (c : Change) (rest : List ℕ) → IsChange c → change_at (change c ++ rest) ≡ Some (c, rest) }
    ensures frames { (c : Change) (rest : List ℕ) → IsFrame c → frame_at (frame c ++ rest) ≡ Some (c, rest) }
{}

//! The laws of texts on which the crates above rest.

ghost use Rattle.std.specs.Prelude.{◌≡◌, ◌↔◌, ◌<◌, ◌≤◌, ◌+◌, ◌^◌, ◌++◌, ℕ, List, [], true, Some, None, slice_index, length};
ghost use Rattle.std.specs.Str.{IsUtf8};
ghost use Rattle.ep_units.specs.Text.{Text, is_well_formed};
ghost use Rattle.ep_units.specs.Halves.{first_lone};
ghost use Rattle.ep_units.specs.Base36.{digits_at, most_read, read36, write36};
ghost use Rattle.ep_units.specs.Utf8.{units_of, utf8_of};

/// A text is well-formed exactly where no half stands alone.
pub fn well_formed_has_no_lone_half()
    ensures { (us : Text) → (is_well_formed us ≡ true) ↔ (first_lone us ≡ None) }
{}

/// Neither way between UTF-8 and units loses anything.
pub fn utf8_and_units_are_one()
    ensures units { (us : Text) → ((k : ℕ) → slice_index us k < 2 ^ 16) → is_well_formed us ≡ true
        → units_of (utf8_of us) ≡ us }
    ensures utf8 { (bytes : List ℕ) → IsUtf8 bytes → utf8_of (units_of bytes) ≡ bytes }
{}

/// A number that is written is read back, whatever stands before it, where no digit stands behind it.
pub fn write36_is_read_back()
    ensures { (before behind : Text) (n : ℕ) → n ≤ most_read → digits_at behind 0 ≡ []
        → read36 (before ++ write36 n ++ behind) (length before) ≡ Some (n, length before + length (write36 n)) }
{}

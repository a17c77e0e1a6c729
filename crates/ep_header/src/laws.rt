//! The laws of headers.

ghost use Rattle.std.specs.Prelude.{◌≡◌, ◌↔◌, ◌⊎◌, ◌<◌, List, None, Some, length, true, ℕ};
ghost use Rattle.ep_header.specs.Header.{format_in, is_foreign, IsFormat, IsIn};

/// A file has no format exactly where it is foreign.
pub fn foreign_files_have_none()
    ensures { (file : List ℕ) → (format_in file ≡ None) ↔ (is_foreign file ≡ true) }
{}

/// A file has format 1 or 2 or none, and is in the format that it has.
pub fn a_file_is_in_its_format()
    ensures { (file : List ℕ) (format : ℕ) → format_in file ≡ Some format → IsFormat format × IsIn format file }
{}

/// A file of more than 9 bytes is in no other format than the one that it has.
pub fn a_long_file_is_in_one_format()
    ensures { (file : List ℕ) (format : ℕ) → 9 < length file → IsFormat format → IsIn format file → format_in file ≡ Some format }
{}

//! The laws of records as bytes.

ghost use Rattle.std.specs.Prelude.{◌≡◌, List, ℕ, Some};
ghost use Rattle.ep_formats.specs.declared.record.Record.{Record};
ghost use Rattle.ep_formats.specs.Bytes.{bytes_of, AreEncodings, IsEncoding, IsRecord};
ghost use Rattle.ep_formats.specs.Reading.{record_at};

/// What is written is read as the same record.
pub fn what_is_written_is_read()
    ensures { (format : ℕ) (r : Record) → IsRecord format r → record_at format (bytes_of format r) ≡ Some r }
{}

/// No bytes are two records' of one format, so no list of them is two lists of records' in a file of one format.
pub fn no_bytes_are_two()
    ensures one { (format : ℕ) (bytes : List ℕ) (r s : Record) → IsEncoding format bytes r → IsEncoding format bytes s → r ≡ s }
    ensures lists { (format : ℕ) (all : List (List ℕ)) (rs ss : List Record) → AreEncodings format all rs → AreEncodings format all ss → rs ≡ ss }
{}

//! The laws of records as bytes.

ghost use Rattle.std.specs.Prelude.{◌≡◌, List, ℕ, Some};
ghost use Rattle.ep_history.specs.declared.record.Record.{Record};
ghost use Rattle.ep_record.specs.Bytes.{bytes_of, AreEncodings, IsEncoding, IsRecord};
ghost use Rattle.ep_record.specs.Reading.{record_at};

/// What is written is read as the same record.
pub fn what_is_written_is_read()
    ensures { (r : Record) → IsRecord r → record_at (bytes_of r) ≡ Some r }
{}

/// No bytes are two records', so no list of them is two lists of records'.
pub fn no_bytes_are_two()
    ensures one { (bytes : List ℕ) (r s : Record) → IsEncoding bytes r → IsEncoding bytes s → r ≡ s }
    ensures lists { (all : List (List ℕ)) (rs ss : List Record) → AreEncodings all rs → AreEncodings all ss → rs ≡ ss }
{}

//! The laws of files that stand for records.

ghost use Rattle.std.specs.Prelude.{◌≡◌, List, ℕ};
ghost use Rattle.ep_journal.specs.File.{IsMending};
ghost use Rattle.ep_history.specs.declared.record.Record.{Record};
ghost use Rattle.ep_pad_file.specs.Standing.{IsLeft, IsOldOrMore, StandsFor};

use ep_record::no_bytes_are_two;

/// A file stands for one list of records.
pub fn files_stand_for_one_list()
    ensures { (rs qs : List Record) (file : List ℕ) → StandsFor rs file → StandsFor qs file → rs ≡ qs }
{
    no_bytes_are_two();
}

/// What is left stands for the records, or for these and the pending ones; and what an opening may make of it is left so.
pub fn what_is_left_stands()
    ensures stands { (rs pending : List Record) (file : List ℕ) → IsLeft rs pending file → IsOldOrMore rs pending file }
    ensures mended { (rs pending : List Record) (file image : List ℕ) → IsLeft rs pending file → IsMending file image → IsLeft rs pending image }
{}

//! The laws of a directory: what no single call says.
//!
//! What a directory alone has written it reads back, so that `Kept` tells of another program; and over a keeper
//! that always tells, a legal history's replies are those of the definitions, one behind the other.

ghost use Rattle.std.specs.Prelude.{◌≡◌, true, List, [], Some};
ghost use Rattle.std.specs.List.{All};
ghost use Rattle.ep_outside.specs.declared.keeper.Pair.{Pair};
ghost use Rattle.ep_dir_records.specs.Answers.{Seen};
ghost use Rattle.ep_groups.specs.History.{AllTell, Follows, IsLegal, Runs, Step};
ghost use Rattle.ep_groups.specs.declared.entries.DirEntry.{DirEntry};
ghost use Rattle.ep_groups.specs.declared.entries.DirReply.{DirReply};
ghost use Rattle.ep_groups.specs.Ours.{AreOurs};
ghost use Rattle.ep_groups.specs.Calls.{AreUnits, IsCall, IsDrawn, IsNotKept, StaysOurs};

use crate::entries::DirEntry;
use ep_dir_records::Drawn;
use ep_outside::Keeper;

/// An empty map is the directory's own, and each call keeps it so and names no value of another form.
pub fn ours_stays()
    ensures empty { AreOurs [] }
    ensures call { (old now : Seen) (e : DirEntry) (r : DirReply) → IsCall e → Step old now e r → StaysOurs old now r }
{}

/// Where calls began on a map that the directory alone had written, or on an empty one, and a map is told at
/// their end, none of them was refused for a value of another form.
pub fn kept_never()
    ensures from_ours { (first last : Seen) (h : List (DirEntry × DirReply)) (m n : List Pair)
        → first.told ≡ Some m → AreOurs m → Runs first h last → last.told ≡ Some n
        → All (λ c. IsCall c.0) h → AreOurs n × All (λ c. IsNotKept c.1) h }
    ensures from_empty { (first last : Seen) (h : List (DirEntry × DirReply)) (n : List Pair)
        → first.told ≡ Some [] → Runs first h last → last.told ≡ Some n
        → All (λ c. IsCall c.0) h → AreOurs n × All (λ c. IsNotKept c.1) h }
{}

/// Of a directory whose keeper always tells, each reply of a legal history is what the definitions answer on
/// the map that the calls before it made of the one that the keeper told as the directory began.
pub fn legal_follows<K: Keeper>()
    ensures follows { (first : Seen) (h : List (DirEntry × DirReply)) → first.always_tells ≡ true → IsLegal K.always_tells first h → (m : List Pair) × (first.told ≡ Some m) × Follows m h }
    // So does the keeper of each directory over a type of keepers that always tell.
    ensures telling { (first : Seen) (h : List (DirEntry × DirReply)) → AllTell K.always_tells → IsLegal K.always_tells first h → first.always_tells ≡ true }
{}

fn are_units(units: &[u16])
    ensures { AreUnits units.now }
{
    let _len = units.len();
}

fn is_drawn(drawn: &Drawn)
    ensures { IsDrawn drawn.now.digits }
{
    let _digits = drawn.digits.as_slice();
}

/// Each call that a program can make is one of which the laws speak.
pub fn is_call(entry: &DirEntry)
    ensures { IsCall entry.now }
{
    match entry {
        DirEntry::CreateGroup(drawn)
        | DirEntry::GroupFor(_, drawn)
        | DirEntry::CreateAuthor(_, drawn)
        | DirEntry::AuthorFor(_, _, drawn) => is_drawn(drawn),
        DirEntry::AddGroupPad(group, name) => {
            are_units(group.as_slice());
            are_units(name.as_slice())
        }
        DirEntry::CreateSession(asked) => {
            let _valid_until = asked.valid_until;
            is_drawn(&asked.drawn)
        }
        DirEntry::ReadOnly(pad, drawn) => {
            are_units(pad.as_slice());
            is_drawn(drawn)
        }
        DirEntry::Grant(asked) => is_drawn(&asked.drawn),
        _ => {}
    }
}

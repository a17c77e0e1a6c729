//! The places of a pad's exported history.

ghost use Rattle.std.specs.Prelude.{◌≡◌, ◌++◌, IfOk};
ghost use Rattle.std.specs.String.{string_bytes};
ghost use Rattle.ep_export.specs.Keys.{rev_key};
ghost use Rattle.ep_import.specs.Places.{path, path_from};

use ep_export::{pad_key, rev_key};
use ep_units::{NoMemory, PadId};
use std::alloc::Global;

/// A member of the exported object, in the order in which they are looked at. Revisions are counted from 0.
#[derive(Clone, Copy, Debug, PartialEq, Eq)]
pub enum Place {
    Pad,
    Atext,
    Attribs,
    Text,
    Head,
    Pool,
    PublicStatus,
    Rev(u64),
    Changeset(u64),
    Meta(u64),
    Author(u64),
    Session(u64),
    Timestamp(u64),
}

/// A member's name behind others.
fn under(alloc: Global, key: &str, member: &str) -> Result<String, NoMemory>
    ensures { IfOk result (λ s. string_bytes s ≡ key.now ++ member.now) }
{
    Ok(format!(in alloc; "{key}{member}")?)
}

/// The same behind a revision's name.
fn under_rev(alloc: Global, key: &str, n: u64, member: &str) -> Result<String, NoMemory>
    ensures { IfOk result (λ s. string_bytes s ≡ rev_key key.now n ++ member.now) }
{
    let rev = rev_key(alloc, key, n)?;
    under(alloc, rev.as_str(), member)
}

impl Place {
    /// The names behind the pad's.
    fn path_from(self, alloc: Global, key: &str) -> Result<String, NoMemory>
        ensures { IfOk result (λ s. string_bytes s ≡ path_from key.now self) }
    {
        match self {
            Place::Pad => Ok(String::from_str(alloc, key)?),
            Place::Atext => under(alloc, key, "/atext"),
            Place::Attribs => under(alloc, key, "/atext/attribs"),
            Place::Text => under(alloc, key, "/atext/text"),
            Place::Head => under(alloc, key, "/head"),
            Place::Pool => under(alloc, key, "/pool"),
            Place::PublicStatus => under(alloc, key, "/publicStatus"),
            Place::Rev(n) => rev_key(alloc, key, n),
            Place::Changeset(n) => under_rev(alloc, key, n, "/changeset"),
            Place::Meta(n) => under_rev(alloc, key, n, "/meta"),
            Place::Author(n) => under_rev(alloc, key, n, "/meta/author"),
            Place::Session(n) => under_rev(alloc, key, n, "/meta/session"),
            Place::Timestamp(n) => under_rev(alloc, key, n, "/meta/timestamp"),
        }
    }

    /// The names of the members from the outermost to this one, with `/` between them.
    pub fn path(self, alloc: Global, pad: &PadId) -> Result<String, NoMemory>
        ensures { IfOk result (λ s. string_bytes s ≡ path pad.now self) }
    {
        let key = pad_key(alloc, pad)?;
        self.path_from(alloc, key.as_str())
    }
}

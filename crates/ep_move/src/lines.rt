//! The lines that are written of a pad that is moved.

ghost use Rattle.std.specs.Prelude.{◌≡◌, IfOk};
ghost use Rattle.std.specs.String.{string_bytes};
ghost use Rattle.ep_move.specs.Lines.{imported, reason_text, refusal};

use ep_import::Place;
use ep_units::{NoMemory, PadId};
use std::alloc::Global;

/// Why a pad or a text is refused.
#[derive(Clone, Copy, Debug, PartialEq, Eq)]
pub enum Reason {
    /// The pad isn't there.
    Gone,
    /// The file holds a record.
    Exists,
    /// The first revision whose time is too great.
    Time(u64),
    /// So many bytes were read, more than a text may have.
    TooBig(u64),
    NotJson,
    /// The first member that is missing or wrong.
    Shape(Place),
    /// The first revision that can't stand where it stands.
    Revision(u64),
    /// The attributed text isn't that of the last revision.
    Replay,
    /// The first document past the limit has so many units.
    TooLong(u64),
    /// A record would have so many bytes, or the file.
    Full(u64),
    /// The file is no journal.
    Foreign,
    /// The index of the first record that is none, or can't come there.
    Record(u64),
}

impl Reason {
    /// In words.
    fn text(self, alloc: Global, pad: &PadId) -> Result<String, NoMemory>
        ensures { IfOk result (λ s. string_bytes s ≡ reason_text pad.now self) }
    {
        match self {
            Reason::Gone => Ok(format!(in alloc; "gone")?),
            Reason::Exists => Ok(format!(in alloc; "exists")?),
            Reason::Time(n) => Ok(format!(in alloc; "time {n}")?),
            Reason::TooBig(n) => Ok(format!(in alloc; "toobig {n}")?),
            Reason::NotJson => Ok(format!(in alloc; "notjson")?),
            Reason::Shape(place) => shape(alloc, pad, place),
            Reason::Revision(n) => Ok(format!(in alloc; "revision {n}")?),
            Reason::Replay => Ok(format!(in alloc; "replay")?),
            Reason::TooLong(n) => Ok(format!(in alloc; "toolong {n}")?),
            Reason::Full(n) => Ok(format!(in alloc; "full {n}")?),
            Reason::Foreign => Ok(format!(in alloc; "foreign")?),
            Reason::Record(n) => Ok(format!(in alloc; "record {n}")?),
        }
    }

    /// The line that says so.
    pub fn line(self, alloc: Global, pad: &PadId) -> Result<String, NoMemory>
        ensures { IfOk result (λ s. string_bytes s ≡ refusal pad.now self) }
    {
        let why = self.text(alloc, pad)?;
        let why = why.as_str();
        Ok(format!(in alloc; "refused {why}\n")?)
    }
}

/// A member that is missing or wrong, in words.
fn shape(alloc: Global, pad: &PadId, place: Place) -> Result<String, NoMemory>
    ensures { IfOk result (λ s. string_bytes s ≡ reason_text pad.now (Reason.Shape place)) }
{
    let path = place.path(alloc, pad)?;
    let path = path.as_str();
    Ok(format!(in alloc; "shape {path}")?)
}

/// The line that says that a history was put whose last revision has this number.
pub fn imported_line(alloc: Global, head: u64) -> Result<String, NoMemory>
    ensures { IfOk result (λ s. string_bytes s ≡ imported head) }
{
    Ok(format!(in alloc; "imported head {head}\n")?)
}

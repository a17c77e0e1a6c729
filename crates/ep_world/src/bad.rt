//! Why an event isn't played.

ghost use Rattle.std.specs.Prelude.{◌≡◌};
ghost use Rattle.std.specs.Option.{option_map};
ghost use Rattle.ep_history.specs.declared.pad_bad.PadBad.TheVariants as pad_bad;
ghost use Rattle.ep_world.specs.Failing.{failed, failed_opening, shown_or_failed};
ghost use Rattle.ep_world.specs.Shows.{pad_refuses};

use ep_event::{Reason, Shown, Verb};
use ep_history::PadBad;
use ep_units::{NoMemory, Units};
use thiserror::Error;

/// Why an event isn't played. After `Unknown` and `NoText` the world is as it was; after any other it is not to be used.
#[derive(Clone, Copy, Debug, Error, PartialEq, Eq)]
pub enum WorldBad {
    /// Nobody of the kind that the event needs has this name.
    #[error("nobody has this name")]
    Unknown,
    /// In a text half of a surrogate pair stands alone.
    #[error("half of a surrogate pair stands alone")]
    NoText,
    /// The journal would have so many bytes with the record of an opening: the first one, or that behind a take that a crash
    /// came into.
    #[error("the journal would have {0} bytes")]
    Full(u64),
    /// The store failed: its count of faults is this now.
    #[error("the store failed: {0} faults")]
    Store(u64),
    #[error("out of memory")]
    NoMemory,
}

impl From<NoMemory> for WorldBad {
    ghost use Rattle.std.specs.Prelude.{◌≡◌};
    ghost use Rattle.ep_world.specs.declared.bad.WorldBad.TheVariants as bad;

    ghost from_gives = { λ _ e. e ≡ bad.NoMemory };

    fn from(_error: NoMemory) -> WorldBad {
        WorldBad::NoMemory
    }
}

/// What ends a world: the store failed, or memory is wanting. By the rules no other refusal comes where this is asked; one
/// would be answered as want of memory.
pub(crate) fn failure(bad: PadBad) -> WorldBad
    ensures { result ≡ failed bad }
{
    match bad {
        PadBad::Store(count) => WorldBad::Store(count),
        _ => WorldBad::NoMemory,
    }
}

/// Why nothing is opened: the same, or the journal has no room.
pub(crate) fn opening_failure(bad: PadBad) -> WorldBad
    ensures { result ≡ failed_opening bad }
{
    match bad {
        PadBad::Store(count) => WorldBad::Store(count),
        PadBad::JournalFull(bytes) => WorldBad::Full(bytes),
        _ => WorldBad::NoMemory,
    }
}

/// What is asked is refused, since the journal has no room: it would have so many bytes.
pub(crate) fn full(verb: Verb, name: Option<Units>, bytes: u64) -> Shown
    ensures { result ≡ pad_refuses verb name (pad_bad.JournalFull bytes) }
{
    Shown::Refused {
        verb,
        name,
        why: Reason::Pad(PadBad::JournalFull(bytes)),
    }
}

/// A refusal by the pad is shown, unless it ends the world.
pub(crate) fn refused(verb: Verb, name: Option<Units>, bad: PadBad) -> Result<Shown, WorldBad>
    ensures { result ≡ shown_or_failed verb name bad }
{
    match bad {
        PadBad::Store(count) => Err(WorldBad::Store(count)),
        PadBad::NoMemory => Err(WorldBad::NoMemory),
        why => Ok(Shown::Refused {
            verb,
            name,
            why: Reason::Pad(why),
        }),
    }
}

//! Why a request is refused.

use crate::members::Member;
use crate::words::{client_words, wire_words};
use ep_editor::EditorBad;
use ep_units::NoMemory;
use std::alloc::{AllocError, AllocFailed};
use std::fmt::{self, Display, Formatter, Write};

/// Why a request is refused, as its reply says.
#[derive(Clone, Copy, Debug, PartialEq, Eq)]
pub enum Refusal {
    /// The line isn't JSON.
    Json,
    /// The first member that is missing or wrong.
    Shape(Member),
    /// The editor refuses.
    Editor(EditorBad),
}

impl Display for Refusal {
    fn fmt<W: Write>(&self, f: &mut Formatter<W>) -> fmt::Result {
        match self {
            Refusal::Json => f.write_str("json"),
            Refusal::Shape(member) => write!(f, "shape {}", member.name()),
            Refusal::Editor(bad) => editor_words(*bad, f),
        }
    }
}

fn editor_words<W: Write>(bad: EditorBad, f: &mut Formatter<W>) -> fmt::Result {
    match bad {
        EditorBad::Turn => f.write_str("turn"),
        EditorBad::Wire(bad) => wire_words(bad, f),
        EditorBad::Heard(bad) => client_words(bad, f),
        EditorBad::ReadOnly => f.write_str("readonly"),
        EditorBad::Long => f.write_str("long"),
        EditorBad::Place => f.write_str("place"),
        EditorBad::CutsPair(at) => write!(f, "cutspair {at}"),
        EditorBad::NoMemory => f.write_str("memory"),
    }
}

/// Why a request has no other answer.
#[derive(Clone, Copy, Debug, PartialEq, Eq)]
pub enum Stopped {
    Refused(Refusal),
    NoMemory,
}

impl From<EditorBad> for Stopped {
    fn from(bad: EditorBad) -> Stopped {
        match bad {
            EditorBad::NoMemory => Stopped::NoMemory,
            bad => Stopped::Refused(Refusal::Editor(bad)),
        }
    }
}

impl From<NoMemory> for Stopped {
    fn from(_error: NoMemory) -> Stopped {
        Stopped::NoMemory
    }
}

impl From<AllocError> for Stopped {
    fn from(_error: AllocError) -> Stopped {
        Stopped::NoMemory
    }
}

impl<T: Drop> From<AllocFailed<T>> for Stopped {
    fn from(_error: AllocFailed<T>) -> Stopped {
        Stopped::NoMemory
    }
}

//! What passes on a link.

ghost use Rattle.std.specs.Prelude.{◌≡◌, IfOk};
ghost use Rattle.ep_link.specs.Traffic.{as_got};

use ep_outside::Text;
use ep_units::NoMemory;
use std::alloc::Global;
use thiserror::Error;

/// What comes in.
#[derive(Drop)]
pub enum Coming {
    Message(Text),
    /// A message that is no text.
    Binary,
    /// No whole message is there yet.
    Nothing,
    /// The other side is gone.
    Closed,
}

impl Coming {
    pub fn copy(&self, alloc: Global) -> Result<Coming, NoMemory>
        ensures { IfOk result (λ c. c ≡ self.now) }
    {
        match self {
            Coming::Message(text) => Ok(Coming::Message(text.copy(alloc)?)),
            Coming::Binary => Ok(Coming::Binary),
            Coming::Nothing => Ok(Coming::Nothing),
            Coming::Closed => Ok(Coming::Closed),
        }
    }

    /// As a receive gives it.
    pub fn got(self) -> LinkGot
        ensures { result ≡ as_got self }
    {
        match self {
            Coming::Message(text) => LinkGot::Message(text),
            Coming::Binary => LinkGot::Binary,
            Coming::Nothing => LinkGot::Nothing,
            Coming::Closed => LinkGot::Closed,
        }
    }
}

/// One thing that passed on a link.
#[derive(Drop)]
pub enum Passed {
    Got(Coming),
    Sent(Text),
}

/// What a receive gave.
#[derive(Drop)]
pub enum LinkGot {
    Message(Text),
    Binary,
    Nothing,
    Closed,
    Failed,
    NoMemory,
}

/// Why a message was not sent.
#[derive(Clone, Copy, Debug, Error, PartialEq, Eq)]
pub enum LinkBad {
    #[error("the link failed")]
    Failed,
    #[error("out of memory")]
    NoMemory,
}

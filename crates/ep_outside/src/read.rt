//! Reading a source to its end.

ghost use Rattle.std.specs.Prelude.{◌≡◌, ◌≤◌, ◌<◌, ◌+◌, ◌^◌, length, IfOk, IsErrOf, OnErr};
ghost use Rattle.ep_outside.specs.Outside.{HasCause, IsWhole, IsAbove};

use crate::source::{Got, Source};
use std::alloc::{AllocError, Global};
use thiserror::Error;

/// Why a source was not read to its end.
#[derive(Clone, Copy, Debug, Error, PartialEq, Eq)]
pub enum ReadBad {
    /// It has more bytes than may be read.
    #[error("too long")]
    TooLong,
    #[error("the source failed")]
    Fault,
    #[error("out of memory")]
    NoMemory,
}

impl From<AllocError> for ReadBad {
    ghost use Rattle.std.specs.Prelude.{◌≡◌};
    ghost use Rattle.ep_outside.specs.declared.read.ReadBad.TheVariants.{NoMemory};

    ghost from_gives = { λ _ e. e ≡ NoMemory };

    fn from(_error: AllocError) -> ReadBad {
        ReadBad::NoMemory
    }
}

/// All that the source has left, at most so many bytes. After an `Err` some of it has been read.
pub fn read_all<S: Source>(alloc: Global, source: &mut S, most: usize) -> Result<Vec<u8>, ReadBad>
    requires { most < 2 ^ 63 }
    ensures whole { IfOk result (λ text. IsWhole (S.left source.old) (S.left source.new) text.items) }
    ensures short { IfOk result (λ text. length text.items ≤ most) }
    ensures long { IsErrOf result ReadBad.TooLong → IsAbove most (S.left source.old) }
    ensures cause { HasCause (S.failures source.old) (S.failures source.new) (S.is_steady source.old) (S.is_steady source.new) (IsErrOf result ReadBad.Fault) }
{
    let mut text = Vec::new(alloc);
    let mut room = [0u8; 4096];
    while text.len() <= most {
        match source.read(&mut room) {
            Got::Bytes(n) => text.extend_from_slice(&room[..n])?,
            Got::End => return Ok(text),
            Got::Failed => return Err(ReadBad::Fault),
        }
    }
    Err(ReadBad::TooLong)
}

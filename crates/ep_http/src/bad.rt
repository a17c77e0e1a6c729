//! Why no request was read.

ghost use Rattle.std.specs.Prelude.{◌≡◌, IsTrue, IfSome};
ghost use Rattle.ep_http.specs.Replies.{is_refusal, status_of};

use ep_units::NoMemory;
use std::alloc::AllocError;
use thiserror::Error;

/// Why no request was read: the first of these whose cause is there.
#[derive(Clone, Copy, Debug, Error, PartialEq, Eq)]
pub enum HttpBad {
    #[error("the bytes begin no request")]
    Head,
    #[error("the method is neither GET nor POST")]
    Method,
    #[error("the body has no plain length")]
    Body,
    /// It is to have so many bytes, which is above the limit.
    #[error("a body of {0} bytes is too long")]
    TooBig(u64),
    #[error("the request was cut off")]
    Short,
    /// The source failed, and has that count of faults.
    #[error("the source failed")]
    Read(u64),
    #[error("out of memory")]
    NoMemory,
}

impl HttpBad {
    /// The status of the reply that tells it. Who cut the request off hears nothing.
    pub fn status(self) -> Option<u16>
        ensures exact { result ≡ status_of self }
        ensures refusal { IfSome result (λ status. IsTrue (is_refusal status)) }
    {
        match self {
            HttpBad::Head | HttpBad::Body => Some(400),
            HttpBad::Method => Some(405),
            HttpBad::TooBig(_) => Some(413),
            HttpBad::Short | HttpBad::Read(_) | HttpBad::NoMemory => None,
        }
    }
}

impl From<NoMemory> for HttpBad {
    ghost use Rattle.ep_http.specs.declared.bad.HttpBad.TheVariants as bad;

    ghost from_gives = { λ _ e. e ≡ bad.NoMemory };

    fn from(_error: NoMemory) -> HttpBad {
        HttpBad::NoMemory
    }
}

impl From<AllocError> for HttpBad {
    ghost use Rattle.ep_http.specs.declared.bad.HttpBad.TheVariants as bad;

    ghost from_gives = { λ _ e. e ≡ bad.NoMemory };

    fn from(_error: AllocError) -> HttpBad {
        HttpBad::NoMemory
    }
}

//! Why a call of a client is refused.

use ep_cs::FitBad;
use ep_units::NoMemory;
use thiserror::Error;

/// Why a call of a client is refused. A refusal leaves the client as it was.
#[derive(Clone, Copy, Debug, Error, PartialEq, Eq)]
pub enum ClientBad {
    /// The first revision was due and the second came: of what became nothing the client's own, else the next.
    #[error("revision {1} came where {0} was due")]
    OutOfOrder(u64, u64),
    /// A submission was told as committed, and none is there; or as one that became nothing, and none is there that was
    /// sent in this session and alters nothing.
    #[error("nothing was submitted")]
    NotSubmitted,
    /// The change doesn't fit the view, or another's the document of the revision.
    #[error("{0}")]
    Fit(FitBad),
    #[error("out of memory")]
    NoMemory,
}

impl From<NoMemory> for ClientBad {
    ghost use Rattle.std.specs.Prelude.{◌≡◌};
    ghost use Rattle.ep_client.specs.declared.bad.ClientBad.TheVariants as bad;

    ghost from_gives = { λ _ e. e ≡ bad.NoMemory };

    fn from(_error: NoMemory) -> ClientBad {
        ClientBad::NoMemory
    }
}

impl From<FitBad> for ClientBad {
    ghost use Rattle.std.specs.Prelude.{◌≡◌};
    ghost use Rattle.ep_client.specs.declared.bad.ClientBad.TheVariants as bad;

    ghost from_gives = { λ why e. e ≡ bad.Fit why };

    fn from(why: FitBad) -> ClientBad {
        ClientBad::Fit(why)
    }
}

//! Why a request is refused.

use ep_client::ClientBad;
use ep_invert::SpliceBad;
use ep_units::NoMemory;
use ep_wire_words::WireBad;

/// Why a request is refused. A refusal leaves the editor as it was.
#[derive(Clone, Copy, Debug, PartialEq, Eq)]
pub enum EditorBad {
    /// It can't come now.
    Turn,
    /// What came is no message.
    Wire(WireBad),
    /// The client can't hear what came.
    Heard(ClientBad),
    /// Nobody may write here.
    ReadOnly,
    /// The text would have 2^32 units or more.
    Long,
    /// The stretch goes past the end.
    Place,
    /// The stretch cuts the pair whose second half stands at this place.
    CutsPair(u64),
    NoMemory,
}

impl From<NoMemory> for EditorBad {
    ghost use Rattle.std.specs.Prelude.{◌≡◌};
    ghost use Rattle.ep_editor.specs.declared.bad.EditorBad.TheVariants as bad;

    ghost from_gives = { λ _ e. e ≡ bad.NoMemory };

    fn from(_error: NoMemory) -> EditorBad {
        EditorBad::NoMemory
    }
}

impl From<WireBad> for EditorBad {
    ghost use Rattle.std.specs.Prelude.{◌≡◌};
    ghost use Rattle.ep_editor.specs.Bads.{bad_of_wire};

    ghost from_gives = { λ bad e. e ≡ bad_of_wire bad };

    fn from(bad: WireBad) -> EditorBad {
        match bad {
            WireBad::NoMemory => EditorBad::NoMemory,
            bad => EditorBad::Wire(bad),
        }
    }
}

impl From<ClientBad> for EditorBad {
    ghost use Rattle.std.specs.Prelude.{◌≡◌};
    ghost use Rattle.ep_editor.specs.Bads.{bad_of_client};

    ghost from_gives = { λ bad e. e ≡ bad_of_client bad };

    fn from(bad: ClientBad) -> EditorBad {
        match bad {
            ClientBad::NoMemory => EditorBad::NoMemory,
            bad => EditorBad::Heard(bad),
        }
    }
}

impl From<SpliceBad> for EditorBad {
    ghost use Rattle.std.specs.Prelude.{◌≡◌};
    ghost use Rattle.ep_editor.specs.Bads.{bad_of_splice};

    ghost from_gives = { λ bad e. e ≡ bad_of_splice bad };

    fn from(bad: SpliceBad) -> EditorBad {
        match bad {
            SpliceBad::Place => EditorBad::Place,
            SpliceBad::CutsPair(at) => EditorBad::CutsPair(at),
            SpliceBad::NoMemory => EditorBad::NoMemory,
        }
    }
}

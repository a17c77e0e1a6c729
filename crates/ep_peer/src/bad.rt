//! Why a writer stops.

ghost use Rattle.std.specs.Prelude.{◌≡◌};
ghost use Rattle.ep_peer.specs.Bads.{bad_of_line, bad_of_splice};

use ep_client::ClientBad;
use ep_invert::SpliceBad;
use ep_outside::Text;
use ep_script::LineBad;
use ep_units::NoMemory;
use ep_wire_words::WireBad;

/// Why a line isn't written.
#[derive(Clone, Copy, Debug, PartialEq, Eq)]
pub enum Reason {
    /// It is not UTF-8.
    Utf8,
    /// It is no line of the grammar.
    Syntax,
    /// It is longer than a line may be, or ends behind the last byte of a script.
    Long,
    /// Its stretch goes past the end of the view.
    Place,
    /// It cuts a pair of the view, whose second half stands at this place.
    CutsPair(u64),
}

/// Why a writer stops.
#[derive(Drop)]
pub enum PeerBad {
    /// The first line that is none or doesn't fit the view, counted from 1.
    Script(u64, Reason),
    /// The source failed: its count of faults is this now.
    SourceFault(u64),
    /// The link failed: its count of faults is this now.
    LinkFault(u64),
    /// The other side is gone.
    LinkClosed,
    /// The server closed, with this text.
    Refused(Text),
    /// A message from the server isn't one.
    Wire(WireBad),
    /// The client can't hear what the server told.
    Heard(ClientBad),
    /// A message that is no text, or that doesn't come now.
    Turn,
    NoMemory,
}

impl From<NoMemory> for PeerBad {
    ghost use Rattle.std.specs.Prelude.{◌≡◌};
    ghost use Rattle.ep_peer.specs.declared.bad.PeerBad.TheVariants as bad;

    ghost from_gives = { λ _ e. e ≡ bad.NoMemory };

    fn from(_error: NoMemory) -> PeerBad {
        PeerBad::NoMemory
    }
}

impl From<WireBad> for PeerBad {
    ghost use Rattle.std.specs.Prelude.{◌≡◌};
    ghost use Rattle.ep_peer.specs.Bads.{bad_of_wire};

    ghost from_gives = { λ bad e. e ≡ bad_of_wire bad };

    fn from(bad: WireBad) -> PeerBad {
        match bad {
            WireBad::NoMemory => PeerBad::NoMemory,
            bad => PeerBad::Wire(bad),
        }
    }
}

impl From<ClientBad> for PeerBad {
    ghost use Rattle.std.specs.Prelude.{◌≡◌};
    ghost use Rattle.ep_peer.specs.Bads.{bad_of_client};

    ghost from_gives = { λ bad e. e ≡ bad_of_client bad };

    fn from(bad: ClientBad) -> PeerBad {
        match bad {
            ClientBad::NoMemory => PeerBad::NoMemory,
            bad => PeerBad::Heard(bad),
        }
    }
}

/// What comes of a line that is none.
pub fn bad_of_line(line: u64, bad: LineBad) -> PeerBad
    ensures { result ≡ bad_of_line line bad }
{
    match bad {
        LineBad::Utf8 => PeerBad::Script(line, Reason::Utf8),
        LineBad::Syntax => PeerBad::Script(line, Reason::Syntax),
        LineBad::NoMemory => PeerBad::NoMemory,
    }
}

/// What comes of a line that doesn't fit the view.
pub fn bad_of_splice(line: u64, bad: SpliceBad) -> PeerBad
    ensures { result ≡ bad_of_splice line bad }
{
    match bad {
        SpliceBad::Place => PeerBad::Script(line, Reason::Place),
        SpliceBad::CutsPair(at) => PeerBad::Script(line, Reason::CutsPair(at)),
        SpliceBad::NoMemory => PeerBad::NoMemory,
    }
}

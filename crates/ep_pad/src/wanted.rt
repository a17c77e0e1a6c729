//! What is asked of the pads of a server.

use ep_units::PadId;

/// A pad's name, and whether who asks for a pass makes the pad where nobody has.
#[derive(Drop)]
pub struct Wanted {
    pub name: PadId,
    pub makes: bool,
}

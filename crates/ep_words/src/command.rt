//! What the words ask for.

use ep_units::PadId;

/// What the words ask for, with their texts as they stand there.
#[derive(Drop)]
pub enum Command<'a> {
    /// A script played on a pad of this id, which has no group.
    Play {
        pad: PadId,
    },
    /// The server: two addresses to listen at, a folder, and the key of the API.
    Serve {
        pads: &'a str,
        api: &'a str,
        dir: &'a str,
        key: &'a str,
    },
    /// A client of the server at an address.
    Write {
        addr: &'a str,
        pad: &'a str,
        token: &'a str,
    },
    /// The pads of a folder judged, by so many threads at a time.
    Verify {
        dir: &'a str,
        workers: u64,
    },
    /// A schedule made from a number.
    Make {
        number: u64,
        clients: u64,
        edits: u64,
    },
}

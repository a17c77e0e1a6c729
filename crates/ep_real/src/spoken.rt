//! What of the outside the words speak of.

ghost use Rattle.std.specs.Prelude.{map, IfOk};
ghost use Rattle.std.specs.String.{string_bytes};
ghost use Rattle.ep_words.specs.Lines.{line_in};
ghost use Rattle.ep_real.specs.Spoken.{SpeaksBy};

use ep_units::NoMemory;
use ep_words::{Command, WordsBad, read_words};
use std::alloc::Global;

/// What of the outside the words speak of. What they don't is empty.
#[derive(Clone, Copy)]
pub struct Spoken<'a> {
    /// Callers are served.
    pub serves: bool,
    /// The two addresses to listen at.
    pub pads: &'a str,
    pub api: &'a str,
    /// The folder that is served, and the key of its API.
    pub folder: &'a str,
    pub key: &'a str,
    /// The address of a server.
    pub server: &'a str,
    /// The folder that is judged.
    pub judged: &'a str,
}

/// A script or a schedule speaks of nothing outside; nor do words that ask for nothing.
const NOTHING: Spoken<'static> = Spoken {
    serves: false,
    pads: "",
    api: "",
    folder: "",
    key: "",
    server: "",
    judged: "",
};

/// What the words speak of.
pub fn spoken_by(alloc: Global, words: &[String]) -> Result<Spoken<'_>, NoMemory>
    ensures { IfOk result (λ spoken. SpeaksBy (line_in (map string_bytes words.entry.now)) spoken) }
{
    match read_words(alloc, words) {
        Ok(
            Command::Serve {
                pads,
                api,
                dir,
                key,
            },
        ) => Ok(Spoken {
            serves: true,
            pads,
            api,
            folder: dir,
            key,
            ..NOTHING
        }),
        Ok(Command::Write { addr, .. }) => Ok(Spoken {
            server: addr,
            ..NOTHING
        }),
        Ok(Command::Verify { dir, .. }) => Ok(Spoken {
            judged: dir,
            ..NOTHING
        }),
        Ok(Command::Play { .. } | Command::Make { .. }) | Err(WordsBad::Usage) => Ok(NOTHING),
        Err(WordsBad::NoMemory) => Err(NoMemory),
    }
}

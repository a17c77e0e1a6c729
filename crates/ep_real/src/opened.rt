//! What a server has before callers may come, and the folder that is judged.

use crate::missing::Missing;
use crate::shelf::RealShelf;
use crate::spoken::Spoken;
use ep_edge::{FileShelf, Lacking};
use std::fs;
use std::fs::{File, Files};
use std::thread::sleep;
use std::time::Duration;

/// How often the lock of a folder is asked for, and how long each time is waited for it: ten seconds in all.
const LOCK_TRIES: u32 = 100;

const LOCK_WAIT_MS: u64 = 100;

/// The pads of a server, and the key of its API. Other commands have neither.
#[derive(Drop)]
pub struct Opened {
    pub pads: RealShelf,
    pub key: String,
}

impl Opened {
    /// What the words speak of, opened.
    pub fn by(rt: &HostRuntime, spoken: &Spoken<'_>) -> Result<Opened, Missing> {
        if !spoken.serves {
            return Ok(Opened {
                pads: RealShelf::open_at(rt, "")?,
                key: String::new(rt.alloc()),
            });
        }
        let key = key_of(rt, spoken.key)?;
        Ok(Opened {
            pads: shelf_at(rt, spoken.folder)?,
            key,
        })
    }
}

/// The key of the API: the word, or the first line of the file that it names behind an `@`.
fn key_of(rt: &HostRuntime, word: &str) -> Result<String, Missing> {
    let alloc = rt.alloc();
    let Some(path) = word.strip_prefix("@") else {
        return Ok(String::from_str(alloc, word)?);
    };
    let Ok(text) = fs::read_to_string(rt, path) else {
        return Err(Missing::Key);
    };
    match text.as_str().lines().next() {
        Some(line) if !line.is_empty() => Ok(String::from_str(alloc, line)?),
        _ => Err(Missing::Key),
    }
}

/// The shelf over the folder that is served. Where another server has the folder, its end is waited for.
fn shelf_at(rt: &HostRuntime, path: &str) -> Result<RealShelf, Missing> {
    for _ in 0..LOCK_TRIES {
        let shelf = RealShelf::open_at(rt, path)?;
        match shelf.lacking() {
            None => return Ok(shelf),
            Some(Lacking::Folder) => return Err(Missing::Folder),
            Some(Lacking::Lock) => sleep(rt, Duration::from_millis(LOCK_WAIT_MS)),
        }
    }
    Err(Missing::Lock)
}

/// The shelf over the folder that is judged. Nobody's end is waited for. Where no folder is judged each call of it fails.
pub fn judged_at<R: Files<File = File> + AllocGlobal + Clone + Drop>(
    rt: &R,
    path: &str,
) -> Result<FileShelf<R>, Missing> {
    let shelf = FileShelf::open_at(rt, path)?;
    match shelf.lacking() {
        Some(lacking) if !path.is_empty() => Err(Missing::from(lacking)),
        _ => Ok(shelf),
    }
}

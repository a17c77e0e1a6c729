//! Words that no line of `ep_words` is: a pad that is moved, or how the program is used.

use crate::lacking;
use ep_edge::{FileShelf, StdSink, StdSource};
use ep_move::{move_pad, say_usage};
use ep_move_words::{Move, read_move};
use ep_real::Missing;
use ep_words::{WordsBad, read_words};
use std::io;
use std::process::ExitCode;

/// The shelf over a folder. Where a server has it, its end isn't waited for.
fn shelf_at(rt: &HostRuntime, path: &str) -> Result<FileShelf<HostRuntime>, Missing> {
    let shelf = FileShelf::open_at(rt, path)?;
    match shelf.lacking() {
        None => Ok(shelf),
        Some(lacking) => Err(Missing::from(lacking)),
    }
}

/// Moves a pad of a folder, between its file and the standard devices.
fn moved(rt: HostRuntime, asked: &Move<'_>) -> ExitCode {
    let mut shelf = match shelf_at(&rt, asked.dir) {
        Ok(shelf) => shelf,
        Err(missing) => return lacking(&rt, missing),
    };
    let mut source = StdSource::new(rt.reader());
    let mut sink = StdSink::new(io::writer(&rt));
    let moved = move_pad(rt.alloc(), asked, &mut source, &mut sink, &mut shelf);
    ExitCode::from(moved.code())
}

/// Says how the program is used, where the words ask for nothing.
fn used(rt: HostRuntime, words: &[String]) -> Option<ExitCode> {
    if !matches!(read_words(rt.alloc(), words), Err(WordsBad::Usage)) {
        return None;
    }
    let mut sink = StdSink::new(io::writer(&rt));
    match say_usage(&mut sink) {
        Ok(()) => Some(ExitCode::from(2)),
        Err(_) => Some(ExitCode::from(5)),
    }
}

/// How the program ends where the words ask for a pad to be moved, or for nothing.
pub(crate) fn answered(rt: HostRuntime, words: &[String]) -> Option<ExitCode> {
    match read_move(rt.alloc(), words) {
        Ok(Some(asked)) => Some(moved(rt, &asked)),
        Ok(None) => used(rt, words),
        Err(_) => Some(ExitCode::from(7)),
    }
}

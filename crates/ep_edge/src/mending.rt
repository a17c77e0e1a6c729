//! A file that is written anew.

use crate::body::Body;
use crate::place::Place;
use std::fs::{File, Files};
use std::io;
use std::os::unix::fs::FileExt;

// How many bytes are copied at once; they stand on the stack.
const PIECE: usize = 16_384;

// Copies so many bytes as there is room for, from a place on.
fn copy_piece(from: &File, to: &File, at: u64, room: &mut [u8]) -> io::Result<()> {
    from.read_exact_at(room, at)?;
    to.write_all_at(room, at)
}

/// Copies so many bytes of a file into an empty one.
pub(crate) fn copy(from: &File, to: &File, length: u64) -> io::Result<()> {
    let mut room = [0; PIECE];
    let rest = length % PIECE as u64;
    for piece in 0..length / PIECE as u64 {
        copy_piece(from, to, piece * PIECE as u64, &mut room)?;
    }
    copy_piece(from, to, length - rest, &mut room[..rest as usize])
}

/// Writes a file anew under another name, and puts the new one in its place. All that the new one holds is on the disk.
/// Where that fails, the file itself is as it was.
pub(crate) fn mended<R: Files<File = File>>(
    files: &R,
    place: &Place,
    body: &Body,
) -> io::Result<Body> {
    let Body::File(file) = body else {
        return Ok(Body::Other);
    };
    let fresh = place.fresh(files)?;
    copy(file, &fresh, body.length()?)?;
    fresh.sync_all()?;
    place.replace(files)?;
    Ok(Body::File(fresh))
}

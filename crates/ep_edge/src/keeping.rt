//! What is kept of a file before it is cut.

use crate::mending::copy;
use crate::place::Place;
use std::fs::{File, Files};
use std::os::unix::fs::FileExt;
use std::{fs, io};

// The length before a record, and the gate behind it.
const FRAME: u64 = 5;

// An append writes no longer record.
const LONGEST_RECORD: u32 = 67_108_864;

// A part of a record that is no longer than this is taken for an append that broke off.
const SHORT_PART: u64 = 4_096;

// Whether an append that broke off may have left so many bytes, which begin with this length of a record.
//
// It leaves its whole frame, or a part of it. Of a long part it can't be told whether a bit of the length was turned.
fn is_one_append(size: u32, left: u64) -> bool {
    let whole = FRAME + u64::from(size);
    left == whole || (left < whole && left <= SHORT_PART && size <= LONGEST_RECORD)
}

// Whether a cut would take away no more than an append that broke off.
fn is_small_cut(file: &File, to: u64, length: u64) -> io::Result<bool> {
    let left = length.saturating_sub(to);
    if left <= FRAME {
        return Ok(true);
    }
    let mut size = [0; 4];
    file.read_exact_at(&mut size, to)?;
    Ok(is_one_append(u32::from_be_bytes(size), left))
}

// Copies so many bytes of a file into an empty one. They are on the disk, and its name is there for good.
fn keep_in<R: Files<File = File>>(
    files: &R,
    place: &Place,
    from: &File,
    to: &File,
    length: u64,
) -> io::Result<()> {
    copy(from, to, length)?;
    to.sync_all()?;
    place.sync_folder(files)
}

// Copies a file beside itself. Where that fails, no part of it stays there.
fn keep<R: Files<File = File>>(
    files: &R,
    place: &Place,
    file: &File,
    length: u64,
) -> io::Result<()> {
    let (copied, path) = place.beside(files)?;
    let kept = keep_in(files, place, file, &copied, length);
    if kept.is_err() {
        let _removed = fs::remove_file(files, path.as_str());
    }
    kept
}

/// Keeps a file beside itself as it is, where a cut would take more away than one append.
pub(crate) fn keep_cut_off<R: Files<File = File>>(
    files: &R,
    place: &Place,
    file: &File,
    to: u64,
    length: u64,
) -> io::Result<()> {
    if is_small_cut(file, to, length)? {
        Ok(())
    } else {
        keep(files, place, file, length)
    }
}

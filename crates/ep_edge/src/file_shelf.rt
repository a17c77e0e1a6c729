//! A folder as a shelf.

ghost use Rattle.std.specs.Prelude.{◌≡◌, ◌≤◌, IfOk, IsTrue};
ghost use Rattle.ep_outside.specs.Outside.{HasRisen};
ghost use Rattle.ep_outside.specs.Shelf.{rises};

use crate::body::Body;
use crate::file_disk::FileDisk;
use crate::naming::{file_name, id_of};
use crate::ordered::in_order;
use crate::place::{OWNER_ALONE, Place, path_in};
use ep_outside::{Device, Shelf, ShelfBad};
use ep_units::{NoMemory, PadId};
use std::alloc::Global;
use std::fs::{DirEntry, File, Files, OpenOptions};
use std::io::ErrorKind;
use std::os::unix::fs::OpenOptionsExt;
use std::{fs, io};

// The file whose lock keeps a second server out of the folder.
const LOCK: &str = "padd.lock";

/// What of a folder was not to be had.
#[derive(Clone, Copy, Debug, PartialEq, Eq)]
pub enum Lacking {
    /// It isn't there, or can't be opened.
    Folder,
    /// Another server has it.
    Lock,
}

/// A folder whose files named as pads' are the disks.
///
/// It holds a lock on the folder for as long as it stands, so that no two servers write one journal.
pub struct FileShelf<R: Files<File = File>> {
    files: R,
    alloc: Global,
    folder: Result<Folder, Lacking>,
    faults: u64,
}

impl<R: Files<File = File> + Drop> Drop for FileShelf<R> {
    fn drop(self) {
        let FileShelf {
            files: _,
            alloc: _,
            folder: _,
            faults: _,
        } = self;
    }
}

#[derive(Drop)]
struct Folder {
    path: String,
    entries: File,
    // open as long as the lock is held
    lock: File,
    // a crash might take the name of a file that is there
    is_unsure: bool,
}

impl<R: Files<File = File> + AllocGlobal + Clone + Drop> FileShelf<R> {
    /// The shelf over a folder, which has to be there. Where it cannot be opened, or another server has it, each call
    /// fails.
    pub fn open_at(rt: &R, path: &str) -> Result<FileShelf<R>, NoMemory>
        ensures { IfOk result (λ s. ⟦<FileShelf<R> as Device>⟧.failures s ≡ 0) }
    {
        Ok(FileShelf {
            files: rt.clone()?,
            alloc: rt.alloc(),
            folder: Folder::open(rt, path)?,
            faults: 0,
        })
    }
}

impl<R: Files<File = File>> FileShelf<R> {
    /// What was not to be had, where each call fails for it.
    pub fn lacking(&self) -> Option<Lacking> {
        match &self.folder {
            Ok(_) => None,
            Err(lacking) => Some(*lacking),
        }
    }

    // Counts a fault, where it is one.
    fn counted(&mut self, why: ShelfBad) -> ShelfBad
        ensures same { result ≡ why }
        ensures later { self.old.faults ≤ self.new.faults }
        ensures cause { result ≡ ShelfBad.Failed → HasRisen self.old.faults self.new.faults }
    {
        if why == ShelfBad::Failed {
            self.faults = self.faults.saturating_add(1);
        }
        why
    }
}

// What an error of the system means for the shelf.
fn bad(error: io::Error) -> ShelfBad {
    match error.kind() {
        ErrorKind::OutOfMemory => ShelfBad::NoMemory,
        _ => ShelfBad::Failed,
    }
}

fn copied(alloc: Global, path: &str) -> Result<String, NoMemory> {
    Ok(String::from_str(alloc, path)?)
}

// The file of a folder's lock, which is made where it isn't there.
fn lock_file<R: Files<File = File>>(rt: &R, path: &str) -> io::Result<File> {
    OpenOptions::new()
        .write(true)
        .create(true)
        .mode(OWNER_ALONE)
        .open(rt, path)
}

// Whether what stands at a path is no file, but a folder or a link that leads nowhere.
fn is_no_file<R: Files<File = File>>(rt: &R, path: &str) -> bool {
    match fs::metadata(rt, path) {
        Ok(found) => !found.is_file(),
        Err(_) => fs::symlink_metadata(rt, path).is_ok(),
    }
}

impl Folder {
    // Opens the folder, and takes its lock.
    fn open<R: Files<File = File> + AllocGlobal>(
        rt: &R,
        path: &str,
    ) -> Result<Result<Folder, Lacking>, NoMemory> {
        let alloc = rt.alloc();
        let lock_path = path_in(alloc, path, LOCK)?;
        let path = copied(alloc, path)?;
        let (Ok(entries), Ok(lock)) = (
            File::open(rt, path.as_str()),
            lock_file(rt, lock_path.as_str()),
        ) else {
            return Ok(Err(Lacking::Folder));
        };
        if lock.try_lock().is_err() {
            return Ok(Err(Lacking::Lock));
        }
        Ok(Ok(Folder {
            path,
            entries,
            lock,
            is_unsure: true,
        }))
    }

    // The disk of a pad, whose file is made where it is not there.
    fn disk<R: Files<File = File> + AllocGlobal + Clone>(
        &mut self,
        rt: &R,
        id: &PadId,
    ) -> Result<FileDisk<R>, ShelfBad>
        ensures { IfOk result (λ disk. ⟦<FileDisk<R> as Device>⟧.failures disk ≡ 0) }
    {
        let alloc = rt.alloc();
        let place = Place::new(alloc, self.path.as_str(), file_name(alloc, id)?.as_str())?;
        let body = self.body(rt, place.path()).map_err(bad)?;
        match rt.clone() {
            Ok(files) => Ok(FileDisk::of(files, place, body)),
            Err(_) => Err(ShelfBad::NoMemory),
        }
    }

    // Whether something stands under a pad's name, be it no file. None is made.
    fn has<R: Files<File = File> + AllocGlobal>(
        &self,
        rt: &R,
        id: &PadId,
    ) -> Result<bool, ShelfBad> {
        let alloc = rt.alloc();
        let path = path_in(alloc, self.path.as_str(), file_name(alloc, id)?.as_str())?;
        match fs::symlink_metadata(rt, path.as_str()) {
            Ok(_) => Ok(true),
            Err(error) if error.kind() == ErrorKind::NotFound => Ok(false),
            Err(error) => Err(bad(error)),
        }
    }

    // What stands at a path, where a file is made if nothing does.
    fn body<R: Files<File = File>>(&mut self, rt: &R, path: &str) -> io::Result<Body> {
        match self.file(rt, path) {
            Ok(file) => Ok(Body::File(file)),
            Err(_) if is_no_file(rt, path) => Ok(Body::Other),
            Err(error) => Err(error),
        }
    }

    // The file at a path, which is made where it is not there. Its name is then there for good.
    fn file<R: Files<File = File>>(&mut self, rt: &R, path: &str) -> io::Result<File> {
        let mut how = OpenOptions::new();
        how.read(true).write(true).mode(OWNER_ALONE);
        let file = match how.open(rt, path) {
            Err(error) if error.kind() == ErrorKind::NotFound => {
                self.is_unsure = true;
                how.create_new(true).open(rt, path)?
            }
            opened => opened?,
        };
        if self.is_unsure {
            self.entries.sync_all()?;
            self.is_unsure = false;
        }
        Ok(file)
    }

    fn names<R: Files + AllocGlobal + Clone + Drop>(&self, rt: &R) -> Result<Vec<PadId>, ShelfBad>
        ensures { IfOk result (λ found. IsTrue (rises found.items)) }
    {
        let alloc = rt.alloc();
        let mut found = Vec::new(alloc);
        for entry in fs::read_dir(rt, self.path.as_str()).map_err(bad)? {
            match entry {
                Ok(entry) => keep_pad(alloc, &mut found, entry.file_name())?,
                // A name that is not UTF-8 is of another form.
                Err(error) if error.kind() == ErrorKind::InvalidFilename => {}
                Err(error) => return Err(bad(error)),
            }
        }
        in_order(found).ok_or(ShelfBad::Failed)
    }
}

// Adds the pad whose file has this name, where it is a pad's.
fn keep_pad(alloc: Global, found: &mut Vec<PadId>, name: &str) -> Result<(), NoMemory> {
    if let Some(id) = id_of(alloc, name)? {
        found.push(id)?;
    }
    Ok(())
}

impl<R: Files<File = File>> Device for FileShelf<R> {
    ghost use Rattle.std.specs.Prelude.{false};
    ghost use Rattle.std.proofs.Common.{sym, true≢false};

    ghost failures = { λ s. s.faults };

    ghost is_steady = { λ _. false };

    ghost never_fails = { λ _ h. absurd (true≢false (sym h)) };

    fn faults(&self) -> u64 {
        self.faults
    }
}

impl<R: Files<File = File> + AllocGlobal + Clone + Drop> Shelf for FileShelf<R> {
    ghost use Rattle.std.specs.Prelude.{None};

    type D = FileDisk<R>;

    ghost names = { λ _. None };

    ghost told = { λ _ _. None };

    fn names(&mut self) -> Result<Vec<PadId>, ShelfBad> {
        let found = match &self.folder {
            Ok(folder) => folder.names(&self.files),
            Err(_) => Err(ShelfBad::Failed),
        };
        match found {
            Ok(names) => Ok(names),
            Err(why) => Err(self.counted(why)),
        }
    }

    fn has(&mut self, name: &PadId) -> Result<bool, ShelfBad> {
        let there = match &self.folder {
            Ok(folder) => folder.has(&self.files, name),
            Err(_) => Err(ShelfBad::Failed),
        };
        match there {
            Ok(there) => Ok(there),
            Err(why) => Err(self.counted(why)),
        }
    }

    fn open(&mut self, name: &PadId) -> Result<FileDisk<R>, ShelfBad> {
        let opened = match &mut self.folder {
            Ok(folder) => folder.disk(&self.files, name),
            Err(_) => Err(ShelfBad::Failed),
        };
        match opened {
            Ok(disk) => Ok(disk),
            Err(why) => Err(self.counted(why)),
        }
    }
}

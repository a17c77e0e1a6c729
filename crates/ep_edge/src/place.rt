//! Where the file of a pad stands.

use ep_units::NoMemory;
use std::alloc::Global;
use std::fs::{File, Files, OpenOptions};
use std::io::{Error, ErrorKind};
use std::os::unix::fs::OpenOptionsExt;
use std::{fs, io};

// Read and written by the owner alone.
pub(crate) const OWNER_ALONE: u32 = 0o600;

// So many files are kept beside one at most.
const MOST_KEPT: u32 = 1_000_000;

/// The path of an entry of a folder.
pub(crate) fn path_in(alloc: Global, folder: &str, name: &str) -> Result<String, NoMemory> {
    Ok(format!(in alloc; "{folder}/{name}")?)
}

// A file that wasn't there, open for reading and writing.
fn new_file<R: Files<File = File>>(files: &R, path: &str) -> io::Result<File> {
    OpenOptions::new()
        .read(true)
        .write(true)
        .create_new(true)
        .mode(OWNER_ALONE)
        .open(files, path)
}

/// The paths of a file, of its folder, and of the file that is to take its place.
pub struct Place {
    alloc: Global,
    folder: String,
    path: String,
    mending: String,
}

impl Drop for Place {
    fn drop(self) {
        let Place {
            alloc: _,
            folder: _,
            path: _,
            mending: _,
        } = self;
    }
}

impl Place {
    /// The place of this name in a folder.
    pub fn new(alloc: Global, folder: &str, name: &str) -> Result<Place, NoMemory> {
        Ok(Place {
            alloc,
            folder: String::from_str(alloc, folder)?,
            path: path_in(alloc, folder, name)?,
            mending: format!(in alloc; "{folder}/{name}.mending")?,
        })
    }

    /// The path of the file.
    pub(crate) fn path(&self) -> &str {
        self.path.as_str()
    }

    /// Whether a file stands there that is to take the place of this one. Where it can't be seen it may.
    pub(crate) fn is_marked<R: Files<File = File>>(&self, files: &R) -> bool {
        fs::exists(files, self.mending.as_str()).unwrap_or(true)
    }

    /// Puts an empty file there, where there is none, so that a later server sees that this one is in doubt.
    pub(crate) fn mark<R: Files<File = File>>(&self, files: &R) {
        let _made = OpenOptions::new()
            .write(true)
            .create(true)
            .mode(OWNER_ALONE)
            .open(files, self.mending.as_str());
    }

    /// A new file that is to take the place of this one, open for reading and writing.
    pub(crate) fn fresh<R: Files<File = File>>(&self, files: &R) -> io::Result<File> {
        match fs::remove_file(files, self.mending.as_str()) {
            Err(error) if error.kind() != ErrorKind::NotFound => return Err(error),
            _ => {}
        }
        new_file(files, self.mending.as_str())
    }

    /// The new file takes the place of this one, for good.
    pub(crate) fn replace<R: Files<File = File>>(&self, files: &R) -> io::Result<()> {
        fs::rename(files, self.mending.as_str(), self.path.as_str())?;
        self.sync_folder(files)
    }

    /// The names in the folder are there for good.
    pub(crate) fn sync_folder<R: Files<File = File>>(&self, files: &R) -> io::Result<()> {
        File::open(files, self.folder.as_str())?.sync_all()
    }

    // The path of the file of this number that is kept beside this one.
    fn numbered(&self, number: u32) -> Result<String, NoMemory> {
        let path = self.path.as_str();
        Ok(format!(in self.alloc; "{path}.cut-{number}")?)
    }

    /// A new file beside this one, open for reading and writing, with its path. That is this one's with `.cut-N` behind it,
    /// of the first free N.
    pub(crate) fn beside<R: Files<File = File>>(&self, files: &R) -> io::Result<(File, String)> {
        for number in 1..MOST_KEPT {
            let Ok(path) = self.numbered(number) else {
                return Err(Error::from(ErrorKind::OutOfMemory));
            };
            match new_file(files, path.as_str()) {
                Err(error) if error.kind() == ErrorKind::AlreadyExists => {}
                Err(error) => return Err(error),
                Ok(file) => return Ok((file, path)),
            }
        }
        Err(Error::from(ErrorKind::AlreadyExists))
    }
}

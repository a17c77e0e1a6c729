//! The database of a server's directory, in a thread of its own.

use crate::missing::Missing;
use crossbeam_channel::{Sender, bounded};
use ep_keep_again::{AgainKeeper, Opener};
use ep_keep_far::{Desk, FarKeeper};
use ep_keep_file::TableInFile;
use ep_outside::Keeper;
use std::fs::OpenOptions;
use std::os::unix::fs::OpenOptionsExt;
use std::sync::Wait;
use std::thread;
use std::thread::{JoinHandle, Threads};

// Read and written by the owner alone.
const OWNER_ALONE: u32 = 0o600;

/// A database that another thread has, and that is opened anew after a call of it failed.
pub type RealKeeper<R> = FarKeeper<R, AgainKeeper<Database>>;

/// The database in a server's folder.
#[derive(Drop)]
pub struct Database {
    files: HostRuntime,
    folder: String,
}

impl Opener for Database {
    type Kept = TableInFile;

    fn open(&mut self) -> Option<TableInFile> {
        keeper_in(&self.files, self.folder.as_str())
    }
}

/// Where who asks the database is handed out.
struct Teller<R: Wait + Drop> {
    tell: Sender<RealKeeper<R>>,
}

impl<R: Wait + Drop> Drop for Teller<R> {
    fn drop(self) {
        let Teller { tell: _ } = self;
    }
}

/// The database in a server's folder, which its owner alone reads. Where it can't be opened, each call of it fails; none
/// is there without a folder, or without memory for it.
fn keeper_in(files: &HostRuntime, folder: &str) -> Option<TableInFile> {
    if folder.is_empty() {
        return None;
    }
    let path = format!(in files.alloc(); "{folder}/directory.db").ok()?;
    // Where it can't be made, it can't be opened either.
    let _made = OpenOptions::new()
        .write(true)
        .create(true)
        .mode(OWNER_ALONE)
        .open(files, path.as_str());
    TableInFile::open(files, path.as_str()).ok()
}

/// A keeper that asks the database in a server's folder, and the desk where it is asked; none where it can't be read.
fn desk_in<R: Wait + Drop>(
    rt: R,
    mut database: Database,
) -> Option<(RealKeeper<R>, Desk<AgainKeeper<Database>>)> {
    let alloc = database.files.alloc();
    let mut kept = database.open()?;
    if kept.get("").is_err() {
        return None;
    }
    FarKeeper::new(rt, alloc, AgainKeeper::new(database, kept)).ok()
}

/// Opens the database of a folder, hands out who asks there, and makes the calls that come to the desk.
fn keep<R: Wait + Copy + Drop>(rt: R, database: Database, teller: Teller<R>) {
    if let Some((keeper, mut desk)) = desk_in(rt, database) {
        let _heard = teller.tell.send(&rt, keeper);
        desk.answer_all(&rt);
    }
}

/// The keeper of a server's directory, or one whose calls fail where nobody is served. The database stays in the thread
/// that opens it, which ends once the keeper is gone.
pub fn kept_afar<R: Threads + Wait + Copy + Send + Drop + 'static>(
    rt: R,
    files: HostRuntime,
    folder: &str,
    serves: bool,
) -> Result<(RealKeeper<R>, JoinHandle<()>), Missing> {
    let alloc = files.alloc();
    let folder = String::from_str(alloc, folder)?;
    let database = Database { files, folder };
    let (tell, told) = bounded(alloc, 1)?;
    let teller = Teller { tell };
    let Ok(thread) = thread::spawn(&rt, move || keep(rt, database, teller)) else {
        return Err(Missing::Thread);
    };
    match told.recv(&rt) {
        Ok(keeper) => Ok((keeper, thread)),
        Err(_) if serves => Err(Missing::Database),
        Err(_) => Ok((FarKeeper::alone(rt, alloc)?, thread)),
    }
}

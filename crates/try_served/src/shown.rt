//! What is shown of a shelf in memory.

use ep_disk_mem::{MemFile, MemShelf};
use ep_outside::{Failed, Shelf};
use ep_shown::ShownShelf;
use ep_units::{PadId, Units};
use std::alloc::Global;
use std::cell::{Cell, RefCell};
use std::fmt::Display;
use std::io;
use std::io::{Eprint, ErrorKind};
use std::test::Fail;
use std::time::{Clock, Duration};

/// A terminal that keeps what is written to it, and a clock that goes on by 40 ms with each look at it.
struct Screen {
    text: RefCell<String>,
    time: Cell<u64>,
}

impl Drop for Screen {
    fn drop(self) {
        let Screen { text: _, time: _ } = self;
    }
}

impl Screen {
    fn new(alloc: Global) -> Screen {
        Screen {
            text: RefCell::new(String::new(alloc)),
            time: Cell::new(0),
        }
    }

    /// Whether this and no more is written to it.
    fn has(&self, wanted: &str) -> bool {
        match self.text.try_borrow() {
            Ok(text) => text.as_str() == wanted,
            Err(_) => false,
        }
    }
}

impl Eprint for &Screen {
    fn eprint<D: Display + Drop>(&self, value: D) -> io::Result<()> {
        let Ok(mut text) = self.text.try_borrow_mut() else {
            return Err(io::Error::from(ErrorKind::Other));
        };
        match write!(text, "{value}") {
            Ok(()) => Ok(()),
            Err(_) => Err(io::Error::from(ErrorKind::OutOfMemory)),
        }
    }

    fn eprintln<D: Display + Drop>(&self, value: D) -> io::Result<()> {
        self.eprint(value)
    }
}

impl Clock for Screen {
    fn monotonic(&self) -> io::Result<Duration> {
        let time = self.time.get();
        self.time.set(time.saturating_add(40));
        Ok(Duration::from_millis(time))
    }

    fn since_1970(&self) -> io::Result<Duration> {
        self.monotonic()
    }
}

const NAMES: [&str; 6] = ["a", "b", "c", "d", "e", "f"];

fn id(alloc: Global, name: &str) -> Result<PadId, Fail> {
    let text = Units::from_str(alloc, name)?;
    Ok(PadId::read(alloc, &text)?.ok_or(Failed)?)
}

/// A shelf of empty files. Its call of this number fails.
fn shelf(alloc: Global, fails: u64) -> Result<MemShelf, Fail> {
    let mut files = Vec::new(alloc);
    for name in NAMES {
        files.push(MemFile {
            name: id(alloc, name)?,
            bytes: Vec::new(alloc),
            fails: Vec::new(alloc),
        })?;
    }
    Ok(MemShelf::new(alloc, files, Vec::from_slice(alloc, &[fails])?)?)
}

fn open(alloc: Global, shelf: &mut ShownShelf<MemShelf, &Screen>, name: &str) -> Result<(), Fail> {
    let _failed = shelf.open(&id(alloc, name)?).is_err();
    Ok(())
}

/// Opens so many of the shelf's disks, and lets it go.
fn open_first(
    alloc: Global,
    shelf: ShownShelf<MemShelf, &Screen>,
    count: usize,
) -> Result<(), Fail> {
    let mut shelf = shelf;
    shelf.names()?;
    for name in NAMES.iter().take(count) {
        open(alloc, &mut shelf, name)?;
    }
    Ok(())
}

/// Whether this is shown when so many of the shelf's disks are opened, where its call of this number fails.
fn shows(
    alloc: Global,
    opened: usize,
    fails: u64,
    is_watched: bool,
    text: &str,
) -> Result<bool, Fail> {
    let screen = Screen::new(alloc);
    let shelf = ShownShelf::new(shelf(alloc, fails)?, &screen, is_watched);
    open_first(alloc, shelf, opened)?;
    Ok(screen.has(text))
}

#[test]
fn lines_in_their_place(rt: HostRuntime) -> Result<(), Fail> {
    for (opened, fails, is_watched, text) in [
        (6, 0, false, ""),
        (0, 0, true, ""),
        (1, 0, true, "\rfile 1 of 6\x1b[K\r\x1b[K"),
        (3, 0, true, "\rfile 1 of 6\x1b[K\r\x1b[K"),
        (4, 0, true, "\rfile 1 of 6\x1b[K\rfile 4 of 6\x1b[K\r\x1b[K"),
        (6, 0, true, "\rfile 1 of 6\x1b[K\rfile 4 of 6\x1b[K\r\x1b[K"),
        (2, 3, true, "\rfile 1 of 6\x1b[K\r\x1b[K"),
    ] {
        assert!(rt;
            shows(rt.alloc(), opened, fails, is_watched, text)?,
            "{opened} opened"
        );
    }
    Ok(())
}

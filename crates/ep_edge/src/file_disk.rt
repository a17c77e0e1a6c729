//! A file as a disk.

ghost use Rattle.std.specs.Prelude.{◌≡◌};

use crate::body::Body;
use crate::keeping::keep_cut_off;
use crate::mending::mended;
use crate::place::Place;
use ep_outside::{Device, Disk, Failed};
use ep_units::NoMemory;
use std::fs::{File, Files};
use std::io;

/// An open file as a disk.
///
/// A call that failed may have done a part of its work. After a sync that failed the file is in doubt: the system may
/// have dropped what it could not write, and would say of the next sync that all is well. So that one writes the file
/// anew, as it reads, in its own place. Where it can't, it fails, and the file stays in doubt.
///
/// A cut that would take more away than an append that broke off keeps the file as it is beside itself first.
pub struct FileDisk<R: Files<File = File>> {
    files: R,
    place: Place,
    body: Body,
    // the calls and the bytes for which there is room
    calls: u64,
    bytes: u64,
    // what reads from it may not be on the disk, however it is synced
    is_doubtful: bool,
    faults: u64,
}

impl<R: Files<File = File> + Drop> Drop for FileDisk<R> {
    fn drop(self) {
        let FileDisk {
            files: _,
            place: _,
            body: _,
            calls: _,
            bytes: _,
            is_doubtful: _,
            faults: _,
        } = self;
    }
}

impl<R: Files<File = File>> FileDisk<R> {
    /// The file has to be open for reading and writing. It is in doubt where an earlier server left it so.
    pub fn new(files: R, place: Place, file: File) -> FileDisk<R>
        ensures { ⟦<FileDisk<R> as Device>⟧.failures result ≡ 0 }
    {
        FileDisk::of(files, place, Body::File(file))
    }

    /// The disk of what stands in this place.
    pub(crate) fn of(files: R, place: Place, body: Body) -> FileDisk<R>
        ensures { ⟦<FileDisk<R> as Device>⟧.failures result ≡ 0 }
    {
        let is_doubtful = place.is_marked(&files);
        FileDisk {
            files,
            place,
            body,
            calls: 0,
            bytes: 0,
            is_doubtful,
            faults: 0,
        }
    }
}

impl<R: Files<File = File>> Device for FileDisk<R> {
    ghost use Rattle.std.specs.Prelude.{false};
    ghost use Rattle.std.proofs.Common.{sym, true≢false};

    ghost failures = { λ d. d.faults };

    ghost is_steady = { λ _. false };

    ghost never_fails = { λ _ h. absurd (true≢false (sym h)) };

    fn faults(&self) -> u64 {
        self.faults
    }
}

impl<R: Files<File = File>> Disk for FileDisk<R> {
    ghost use Rattle.std.specs.Prelude.{None};

    ghost told = { λ _. None };

    ghost moment = { λ _. 0 };

    ghost since = { λ _ _ _. Unit {0} };

    ghost room = { λ d. record { calls = d.calls; bytes = d.bytes } };

    ghost counts_now = { λ _ _ _ _ _. tt };

    ghost only_now = { λ _ _ _. tt };

    ghost reads_as_left = { λ _. tt };

    fn length(&mut self) -> Result<u64, Failed> {
        match self.body.length() {
            Ok(length) => Ok(length),
            Err(_) => Err(self.fault()),
        }
    }

    fn read(&mut self, at: u64, into: &mut [u8]) -> Result<(), Failed> {
        match self.body.read(at, into) {
            Ok(()) => Ok(()),
            Err(_) => Err(self.fault()),
        }
    }

    fn write_at(&mut self, at: u64, bytes: &[u8]) -> Result<(), Failed> {
        self.calls -= 1;
        self.bytes -= bytes.len() as u64;
        match self.body.write(at, bytes) {
            Ok(()) => Ok(()),
            Err(_) => Err(self.fault()),
        }
    }

    fn cut(&mut self, to: u64) -> Result<(), Failed> {
        self.calls -= 1;
        match self.cut_body(to) {
            Ok(()) => Ok(()),
            Err(_) => Err(self.fault()),
        }
    }

    fn sync(&mut self) -> Result<(), Failed> {
        self.calls -= 1;
        match self.settle() {
            Ok(()) => Ok(()),
            Err(_) => Err(self.fault()),
        }
    }

    fn reserve(&mut self, bytes: u64) -> Result<(), NoMemory> {
        self.calls = 4;
        self.bytes = bytes;
        Ok(())
    }
}

impl<R: Files<File = File>> FileDisk<R> {
    ghost use Rattle.std.specs.Prelude.{false, true, OnErr, OnOk};
    ghost use Rattle.ep_outside.specs.Outside.{risen};

    // All that reads from the file is on the disk. Of one in doubt a sync would say nothing.
    fn settle(&mut self) -> io::Result<()>
        ensures ok { OnOk result (self.new ≡ record self.old { body = self.new.body; is_doubtful = false }) }
        ensures err { OnErr result (self.new ≡ record self.old { is_doubtful = true }) }
        ensures same { self.old.is_doubtful ≡ false → self.new.body ≡ self.old.body }
    {
        if self.is_doubtful {
            self.body = mended(&self.files, &self.place, &self.body)?;
            self.is_doubtful = false;
            return Ok(());
        }
        let synced = self.body.sync();
        if synced.is_err() {
            self.is_doubtful = true;
            self.place.mark(&self.files);
        }
        synced
    }

    // Where more would go than an append that broke off, the file is kept beside itself first.
    fn cut_body(&self, to: u64) -> io::Result<()> {
        if let Body::File(file) = &self.body {
            keep_cut_off(&self.files, &self.place, file, to, self.body.length()?)?;
        }
        self.body.cut(to)
    }

    // Counts a fault.
    fn fault(&mut self) -> Failed
        ensures { self.new ≡ record self.old { faults = risen self.old.faults } }
    {
        self.faults = self.faults.saturating_add(1);
        Failed
    }
}

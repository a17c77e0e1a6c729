//! What stands under the name of a pad's file.

ghost use Rattle.std.specs.Prelude.{◌<◌, ◌^◌, IfOk};

use std::fs::File;
use std::io;
use std::io::{Error, ErrorKind};
use std::os::unix::fs::FileExt;

// As many bytes as no journal can lack, all of them zero.
const NO_JOURNAL: u64 = 16;

/// What stands under the name of a pad's file.
#[derive(Drop)]
pub(crate) enum Body {
    /// A file that is open for reading and writing.
    File(File),
    /// No file, but a folder or a link that leads nowhere. It reads as bytes that are no journal, and takes none.
    Other,
}

impl Body {
    pub(crate) fn length(&self) -> io::Result<u64>
        ensures { IfOk result (λ length. length < 2 ^ 63) }
    {
        match self {
            Body::File(file) => length_of(file),
            Body::Other => Ok(NO_JOURNAL),
        }
    }

    pub(crate) fn read(&self, at: u64, into: &mut [u8]) -> io::Result<()> {
        match self {
            Body::File(file) => file.read_exact_at(into, at),
            Body::Other if into.len() as u64 <= NO_JOURNAL.saturating_sub(at) => {
                into.fill(0);
                Ok(())
            }
            Body::Other => Err(Error::from(ErrorKind::UnexpectedEof)),
        }
    }

    pub(crate) fn write(&self, at: u64, bytes: &[u8]) -> io::Result<()> {
        match self {
            Body::File(file) => file.write_all_at(bytes, at),
            Body::Other => Err(Error::from(ErrorKind::ReadOnlyFilesystem)),
        }
    }

    pub(crate) fn cut(&self, to: u64) -> io::Result<()> {
        match self {
            Body::File(file) => file.set_len(to),
            Body::Other => Err(Error::from(ErrorKind::ReadOnlyFilesystem)),
        }
    }

    pub(crate) fn sync(&self) -> io::Result<()> {
        match self {
            Body::File(file) => file.sync_data(),
            Body::Other => Ok(()),
        }
    }
}

// The bytes of a file, fewer than 2^63.
fn length_of(file: &File) -> io::Result<u64>
    ensures { IfOk result (λ length. length < 2 ^ 63) }
{
    let length = file.metadata()?.len();
    if length < 1 << 63 {
        Ok(length)
    } else {
        Err(Error::from(ErrorKind::FileTooLarge))
    }
}

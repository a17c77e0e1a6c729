//! A stream that is read no further than the head of a handshake.

use mio::net::TcpStream;
use std::io;
use std::io::{Read, Write};

/// A stream in its handshake. What comes behind the head stays in the socket.
#[derive(Drop)]
pub struct Head {
    stream: TcpStream,
    // a line has begun, and is empty so far
    is_line_empty: bool,
}

impl Head {
    pub fn of(stream: TcpStream) -> Head {
        Head {
            stream,
            is_line_empty: false,
        }
    }

    pub fn into_inner(self) -> TcpStream {
        let Head {
            stream,
            is_line_empty: _,
        } = self;
        stream
    }

    // How many of these bytes belong to the head: all up to the first empty line.
    fn count_of(&mut self, bytes: &[u8]) -> usize {
        for (at, byte) in bytes.iter().enumerate() {
            match byte {
                b'\n' if self.is_line_empty => return at.saturating_add(1),
                b'\n' => self.is_line_empty = true,
                b'\r' => {}
                _ => self.is_line_empty = false,
            }
        }
        bytes.len()
    }
}

impl Read for Head {
    fn read(&mut self, room: &mut [u8]) -> io::Result<usize> {
        let there = self.stream.peek(room)?;
        let count = self.count_of(&room[..there]).min(there);
        self.stream.read(&mut room[..count])
    }
}

impl Write for Head {
    fn write(&mut self, bytes: &[u8]) -> io::Result<usize> {
        self.stream.write(bytes)
    }

    fn flush(&mut self) -> io::Result<()> {
        self.stream.flush()
    }
}

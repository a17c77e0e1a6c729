//! A WebSocket behind its handshake.

use crate::patience::MOST_TURNS;
use crate::places::Share;
use crate::stop::Stop;
use crate::waiting::is_interrupted;
use ep_outside::Text;
use mio::net::TcpStream;
use std::alloc::Global;
use std::io::{Error, ErrorKind, Read, Write};
use std::random::RandomSource;
use std::str;
use tungstenite::RandomKeys;
use websocket::protocol::{
    CloseCode, CloseFrame, FrameStatus, MaskKeys, Message, Payload, Received, Role, Step,
    WebSocketConfig, WebSocketContext,
};

/// Bytes of one read.
const READ_BYTES: usize = 4_096;

/// A buffer with more room is given back once it is empty.
const KEPT_BYTES: usize = 65_536;

/// What masks the frames of a client. A server's frames are bare.
#[derive(Clone, Copy)]
pub enum Keys<R> {
    Bare,
    Drawn(RandomKeys<R>),
}

impl<R: RandomSource> MaskKeys for Keys<R> {
    fn next_key(&mut self) -> [u8; 4] {
        match self {
            Keys::Bare => [0; 4],
            Keys::Drawn(keys) => keys.next_key(),
        }
    }

    fn has_failed(&self) -> bool {
        match self {
            Keys::Bare => false,
            Keys::Drawn(keys) => keys.has_failed(),
        }
    }
}

impl<R> Keys<R> {
    // The side whose keys these are.
    fn role(&self) -> Role {
        match self {
            Keys::Bare => Role::Server,
            Keys::Drawn(_) => Role::Client,
        }
    }
}

/// What a frame was.
#[derive(Drop)]
pub enum Heard {
    Text(Text),
    Binary,
    Close,
    /// A ping, which is answered, or a pong.
    Sign,
    /// A part of a message, or of a frame.
    Part,
}

/// A WebSocket of either side, over a stream that does not block.
pub struct Socket<R> {
    alloc: Global,
    stream: TcpStream,
    keys: Keys<R>,
    context: WebSocketContext,
    // what came, and how much of it was read as frames
    input: Vec<u8>,
    read: usize,
    // what is to be sent, and how much of it is gone
    output: Vec<u8>,
    sent: usize,
    // bytes of the fragments of a message that is not whole
    fragments: Option<usize>,
    // none where it may hold what it likes
    share: Option<Share>,
}

impl<R: Drop> Drop for Socket<R> {
    fn drop(self) {
        let Socket {
            alloc: _,
            stream: _,
            keys: _,
            context: _,
            input: _,
            read: _,
            output: _,
            sent: _,
            fragments: _,
            share: _,
        } = self;
    }
}

impl<R: Drop> Socket<R> {
    /// A WebSocket that takes messages of so many bytes at most.
    pub fn new(
        alloc: Global,
        stream: TcpStream,
        keys: Keys<R>,
        most: usize,
        share: Option<Share>,
    ) -> Socket<R> {
        let config = WebSocketConfig::default()
            .max_message_size(Some(most))
            .max_frame_size(Some(most));
        Socket {
            alloc,
            stream,
            context: WebSocketContext::new(alloc, keys.role(), config),
            keys,
            input: Vec::new(alloc),
            read: 0,
            output: Vec::new(alloc),
            sent: 0,
            fragments: None,
            share,
        }
    }

    pub fn stream(&mut self) -> &mut TcpStream {
        &mut self.stream
    }

    /// A message, or a frame, has begun to come, and is not whole.
    pub fn is_amid(&self) -> bool {
        self.fragments.is_some() || self.read < self.input.len()
    }

    // Reads what is there.
    fn fill(&mut self) -> Result<Heard, Stop> {
        let held = self.input.len();
        self.input.resize(held + READ_BYTES, 0)?;
        match self.stream.read(&mut self.input[held..]) {
            Ok(0) => {
                self.input.truncate(held);
                Err(Stop::from(self.context.end_of_input()))
            }
            Ok(count) => {
                self.input.truncate(held + count);
                if self.holds() {
                    Ok(Heard::Part)
                } else {
                    Err(Stop::Crowded)
                }
            }
            Err(error) => {
                self.input.truncate(held);
                Err(Stop::from(error))
            }
        }
    }

    // Tells what it holds now. False where all connections together hold too much.
    fn holds(&mut self) -> bool {
        let held = self.input.len().saturating_sub(self.read);
        let held = held.saturating_add(self.fragments.unwrap_or(0));
        match &mut self.share {
            Some(share) => share.holds(held as u64),
            None => true,
        }
    }

    // What a frame says.
    fn heard(&self, received: &Received) -> Result<Heard, Stop> {
        let payload = match received {
            Received::Text(payload) => payload,
            Received::Binary(_) => return Ok(Heard::Binary),
            Received::Ping(_) | Received::Pong(_) => return Ok(Heard::Sign),
            Received::Close(_) => return Ok(Heard::Close),
        };
        let bytes = match payload {
            Payload::Input(span) => {
                let frame = self.input.get(self.read..).unwrap_or(&[]);
                frame.get(span.start..span.end).unwrap_or(&[])
            }
            Payload::Assembled(bytes) => bytes.as_slice(),
        };
        match str::from_utf8(bytes) {
            Ok(text) => Ok(Heard::Text(Text::from_str(self.alloc, text)?)),
            Err(_) => Err(Stop::Failed(CloseCode::Invalid)),
        }
    }

    // Takes a frame off the input.
    fn take(&mut self, step: Step) -> Result<Heard, Stop> {
        let heard = match &step.message {
            Some(received) => self.heard(received)?,
            None => Heard::Part,
        };
        match &heard {
            Heard::Text(_) | Heard::Binary => self.fragments = None,
            Heard::Part => {
                let before = self.fragments.unwrap_or(0);
                self.fragments = Some(before.saturating_add(step.consumed));
            }
            Heard::Sign | Heard::Close => {}
        }
        self.read = self.read.saturating_add(step.consumed);
        self.holds();
        Ok(heard)
    }

    // Gives up what was read as frames.
    fn settle(&mut self) -> Result<(), Stop> {
        if self.read > KEPT_BYTES {
            let rest = self.input.get(self.read..).unwrap_or(&[]);
            self.input = Vec::from_slice(self.alloc, rest)?;
        } else {
            let count = self.read.min(self.input.len());
            self.input.drain(..count);
        }
        self.read = 0;
        Ok(())
    }
}

impl<R: RandomSource + Drop> Socket<R> {
    /// Reads a frame, or more of one.
    pub fn next(&mut self) -> Result<Heard, Stop> {
        let read = self.read.min(self.input.len());
        let frame = &mut self.input[read..];
        let status = self.context.read(frame, &mut self.output, &mut self.keys)?;
        match status {
            FrameStatus::Partial(_) => {
                self.settle()?;
                self.fill()
            }
            FrameStatus::Complete(step) => self.take(step),
        }
    }

    /// Puts a text behind what is to be sent.
    pub fn write(&mut self, text: &str) -> Result<(), Stop> {
        self.put(Message::Text(text))
    }

    /// Puts a ping behind what is to be sent.
    pub fn ping(&mut self) -> Result<(), Stop> {
        self.put(Message::Ping(&[]))
    }

    /// Puts a close behind what is to be sent, unless there was one.
    pub fn close(&mut self, code: CloseCode) -> Result<(), Stop> {
        let frame = CloseFrame { code, reason: "" };
        self.context
            .close(Some(frame), &mut self.output, &mut self.keys)?;
        Ok(())
    }

    fn put(&mut self, message: Message<'_>) -> Result<(), Stop> {
        self.context
            .write(message, &mut self.output, &mut self.keys)?;
        Ok(())
    }

    /// Sends what is to be sent.
    pub fn flush(&mut self) -> Result<(), Stop> {
        if self.keys.has_failed() {
            return Err(Stop::from(Error::from(ErrorKind::Other)));
        }
        for _ in 0..MOST_TURNS {
            let rest = self.output.get(self.sent..).unwrap_or(&[]);
            if rest.is_empty() {
                self.forget();
                return Ok(());
            }
            match self.stream.write(rest) {
                Ok(0) => return Err(Stop::from(Error::from(ErrorKind::WriteZero))),
                Ok(count) => self.sent = self.sent.saturating_add(count),
                Err(error) if is_interrupted(&error) => {}
                Err(error) => return Err(Stop::from(error)),
            }
        }
        Err(Stop::from(Error::from(ErrorKind::TimedOut)))
    }

    // All is sent.
    fn forget(&mut self) {
        if self.output.len() > KEPT_BYTES {
            self.output = Vec::new(self.alloc);
        } else {
            self.output.clear();
        }
        self.sent = 0;
    }
}

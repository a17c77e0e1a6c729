//! Standard input and output as a source and a sink. They count their faults, and as source and sink they
//! tell nothing of content; what they take and give is said where the reader and the writer tell it.

ghost use Rattle.std.specs.Prelude.{◌≡◌, ◌≤◌, ◌<◌, None, length, OnOk, OnErr};
ghost use Rattle.std.specs.Io.KnownBytes.{Appends};
ghost use Rattle.ep_outside.specs.Outside.{HasRisen, Reads, TakesPart};
ghost use Rattle.ep_edge.specs.Standard.{ReadsOn};

use ep_outside::{Device, Failed, Got, Sink, Source};
use std::io::{Read, Write};

/// A reader as a source.
#[derive(Drop)]
pub struct StdSource<R> {
    pub reader: R,
    faults: u64,
}

impl<R: Read> StdSource<R> {
    pub fn new(reader: R) -> StdSource<R>
        ensures reader { result.reader ≡ reader }
        ensures faultless { ⟦<StdSource<R> as Device>⟧.failures result ≡ 0 }
    {
        StdSource { reader, faults: 0 }
    }
}

impl<R: Read> Device for StdSource<R> {
    ghost use Rattle.std.specs.Prelude.{false};
    ghost use Rattle.std.proofs.Common.{sym, true≢false};

    ghost failures = { λ s. s.faults };

    ghost is_steady = { λ _. false };

    ghost never_fails = { λ _ h. absurd (true≢false (sym h)) };

    fn faults(&self) -> u64 {
        self.faults
    }
}

impl<R: Read> Source for StdSource<R> {
    ghost use Rattle.std.specs.Prelude.{None};

    ghost left = { λ _. None };

    fn read(&mut self, room: &mut [u8]) -> Got
        requires { 0 < length room.old }
        ensures bytes { Reads None None result room.new }
        ensures reader { ReadsOn (R.remaining self.old.reader) (R.remaining self.new.reader) result room.new }
        ensures later { self.old.faults ≤ self.new.faults }
        ensures cause { result ≡ Got.Failed → HasRisen self.old.faults self.new.faults }
    {
        match self.reader.read(room) {
            Ok(0) => Got::End,
            Ok(n) => Got::Bytes(n),
            Err(_) => {
                self.faults = self.faults.saturating_add(1);
                Got::Failed
            }
        }
    }
}

/// A writer as a sink.
#[derive(Drop)]
pub struct StdSink<W> {
    pub writer: W,
    faults: u64,
}

impl<W: Write> StdSink<W> {
    pub fn new(writer: W) -> StdSink<W>
        ensures writer { result.writer ≡ writer }
        ensures faultless { ⟦<StdSink<W> as Device>⟧.failures result ≡ 0 }
    {
        StdSink { writer, faults: 0 }
    }
}

impl<W: Write> Device for StdSink<W> {
    ghost use Rattle.std.specs.Prelude.{false};
    ghost use Rattle.std.proofs.Common.{sym, true≢false};

    ghost failures = { λ s. s.faults };

    ghost is_steady = { λ _. false };

    ghost never_fails = { λ _ h. absurd (true≢false (sym h)) };

    fn faults(&self) -> u64 {
        self.faults
    }
}

impl<W: Write> Sink for StdSink<W> {
    ghost use Rattle.std.specs.Prelude.{None};

    ghost held = { λ _. None };

    fn write(&mut self, bytes: &[u8]) -> Result<(), Failed>
        ensures writer { OnOk result (Appends (W.contents self.old.writer) (W.contents self.new.writer) bytes.now) }
        ensures err { OnErr result (TakesPart None None bytes.now) }
        ensures later { self.old.faults ≤ self.new.faults }
        ensures cause { OnErr result (HasRisen self.old.faults self.new.faults) }
    {
        match self.writer.write_all(bytes) {
            Ok(()) => Ok(()),
            Err(_) => {
                self.faults = self.faults.saturating_add(1);
                Err(Failed)
            }
        }
    }
}

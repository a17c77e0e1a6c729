//! Lines written to a server's pad.

ghost use Rattle.std.specs.Prelude.{◌≡◌, ◌≤◌, Result, true};
ghost use Rattle.ep_outside.specs.Outside.{HasRisen, IsAtEnd};
ghost use Rattle.ep_peer.specs.Writer.{Goes, Opening};
ghost use Rattle.ep_peer.specs.Writes.{Writes};
ghost use Rattle.ep_peer.specs.declared.bad.PeerBad.{PeerBad};
ghost use Rattle.ep_peer.specs.declared.writer.Written.{Written};
ghost use Rattle.ep_written.specs.Written.{Tells};

use crate::line::{line, wrote};
use crate::wrote::Wrote;
use ep_link::Link;
use ep_outside::{Sink, Source};
use ep_peer::{PeerBad, Written, write_session};
use ep_units::Units;
use std::alloc::Global;
use std::sync::Wait;

// Writes the line of an end.
fn tell<K: Sink>(alloc: Global, sink: &mut K, ended: &Result<Written, PeerBad>) -> Wrote
    ensures told { Tells (K.held sink.old) (K.held sink.new) ended.now result }
    ensures cause { result ≡ Wrote.SinkFault → HasRisen (K.failures sink.old) (K.failures sink.new) }
    ensures later { K.failures sink.old ≤ K.failures sink.new }
    ensures steady { K.is_steady sink.new ≡ K.is_steady sink.old }
    ensures sure { K.is_steady sink.old ≡ true → result ≡ Wrote.SinkFault → ⊥ }
{
    let Ok(line) = line(alloc, ended) else {
        return Wrote::NoMemory;
    };
    match sink.write(line.as_bytes()) {
        Ok(()) => wrote(ended),
        Err(_) => Wrote::SinkFault,
    }
}

/// Enters a pad by a token over a link, writes all lines that the source has left, each once the one before is committed,
/// and then writes to the sink what came of it.
pub fn write_to<R: Wait, L: Link, S: Source, K: Sink>(
    rt: &R,
    alloc: Global,
    link: &mut L,
    source: &mut S,
    sink: &mut K,
    pad: &Units,
    token: &Units,
) -> Wrote
    // What passed on the link and what was read of the source are of one writer, and the sink has the line of its end.
    ensures writes { (ended : Result Written PeerBad) × Writes (L.traffic link.old) (L.traffic link.new) (S.left source.old) (Goes (Opening pad.now token.now)) ended (λ w. w) × Tells (K.held sink.old) (K.held sink.new) ended result }
    ensures read { result ≡ Wrote.All → IsAtEnd (S.left source.new) }
    // Each fault has its cause.
    ensures source_fault { result ≡ Wrote.SourceFault → HasRisen (S.failures source.old) (S.failures source.new) }
    ensures link_fault { result ≡ Wrote.LinkFault → HasRisen (L.failures link.old) (L.failures link.new) }
    ensures sink_fault { result ≡ Wrote.SinkFault → HasRisen (K.failures sink.old) (K.failures sink.new) }
    ensures source_later { S.failures source.old ≤ S.failures source.new }
    ensures link_later { L.failures link.old ≤ L.failures link.new }
    ensures sink_later { K.failures sink.old ≤ K.failures sink.new }
    ensures sink_sure { K.is_steady sink.old ≡ true → result ≡ Wrote.SinkFault → ⊥ }
{
    let ended = write_session(rt, alloc, link, source, pad, token);
    tell(alloc, sink, &ended)
}

//! All lines of a source, one behind the other.

ghost use Rattle.std.specs.Prelude.{◌≡◌, ◌≤◌, ℕ, true, None, IfOk, OnOk};
ghost use Rattle.ep_outside.specs.Outside.{IsAtEnd};
ghost use Rattle.ep_peer.specs.Cuts.{Nexts};
ghost use Rattle.ep_peer.specs.Parts.{IsCaused, IsSourceCaused};
ghost use Rattle.ep_peer.specs.Writer.{Goes, Reading, written};
ghost use Rattle.ep_peer.specs.Writes.{Writes};

use crate::bad::PeerBad;
use crate::submit::write_line;
use ep_client::Client;
use ep_link::Link;
use ep_outside::Source;
use ep_script::{Script, ScriptBad, ScriptLine};
use std::alloc::Global;
use std::sync::Wait;

// The next line of a script, if there is one.
fn next_line<S: Source>(script: &mut Script, source: &mut S) -> Result<Option<ScriptLine>, PeerBad>
    ensures next { Nexts script.old script.new (S.left source.old) (S.left source.new) result }
    ensures over { (script.old.is_over ≡ true → IsAtEnd (S.left source.old)) → script.new.is_over ≡ true → IsAtEnd (S.left source.new) }
    ensures cause { IsSourceCaused result (S.failures source.old) (S.failures source.new) }
    ensures later { S.failures source.old ≤ S.failures source.new }
{
    match script.next_line(source) {
        Ok(line) => Ok(line),
        Err(ScriptBad::Fault) => Err(PeerBad::SourceFault(source.faults())),
        Err(ScriptBad::NoMemory) => Err(PeerBad::NoMemory),
    }
}

/// Writes all lines that the source has left. After an `Err` the client may have submitted what it wasn't told of.
pub fn write_lines<R: Wait, L: Link, S: Source>(
    rt: &R,
    alloc: Global,
    link: &mut L,
    source: &mut S,
    client: &mut Client,
) -> Result<(), PeerBad>
    ensures writes { Writes (L.traffic link.old) (L.traffic link.new) (S.left source.old) (Goes (Reading 0 client.old)) result (λ _. written client.new) }
    ensures read { OnOk result (IsAtEnd (S.left source.new)) }
    ensures cause { IsCaused result (L.failures link.old) (L.failures link.new) (S.failures source.old) (S.failures source.new) }
    ensures link_later { L.failures link.old ≤ L.failures link.new }
    ensures source_later { S.failures source.old ≤ S.failures source.new }
{
    let mut script = Script::new(alloc);
    'lines: for line in 1..u64::MAX {
        let Some(text) = next_line(&mut script, source)? else {
            return Ok(());
        };
        write_line(rt, alloc, link, client, line, text)?;
    }
    // No script has so many lines.
    Err(PeerBad::NoMemory)
}

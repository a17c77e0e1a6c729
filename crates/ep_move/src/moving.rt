//! A pad that is moved as the words ask for it.

ghost use Rattle.std.specs.Prelude.{◌≡◌, ◌≢◌, ◌⊎◌, true};
ghost use Rattle.ep_outside.specs.Outside.{HasCause, HasRisen, IsAtEnd};
ghost use Rattle.ep_verify.specs.Files.{MayPut};
ghost use Rattle.ep_move.specs.Moving.{ComesIn, FailsBy, GoesOut};

use crate::exporting::export_to;
use crate::importing::import_to;
use crate::moved::Moved;
use ep_move_words::{Move, Way};
use ep_outside::{Shelf, Sink, Source};
use std::alloc::Global;

/// Moves the pad of a shelf that the words ask for: its history out to the sink, or the source's into its file. Want of
/// memory may come at any time.
pub fn move_pad<S: Source, K: Sink, H: Shelf>(
    alloc: Global,
    asked: &Move<'_>,
    source: &mut S,
    sink: &mut K,
    shelf: &mut H,
) -> Moved
    // Of `export` the history is written, and of `import` the source's is put into the pad's file, or it is said why not.
    ensures exports { asked.now.way ≡ Way.Out → GoesOut (H.names shelf.old) (H.told shelf.old asked.now.pad) asked.now.pad (K.held sink.old) (K.held sink.new) result }
    ensures unread { asked.now.way ≡ Way.Out → source.new ≡ source.old }
    ensures imports { asked.now.way ≡ Way.In → ComesIn asked.now.pad (S.left source.old) (S.left source.new) (H.told shelf.old asked.now.pad) (K.held sink.old) (K.held sink.new) result }
    ensures read { asked.now.way ≡ Way.In → result ≡ Moved.All → IsAtEnd (S.left source.new) }
    ensures same_names { asked.now.way ≡ Way.Out → H.names shelf.new ≡ H.names shelf.old }
    ensures names { MayPut asked.now.pad (H.names shelf.old) (H.names shelf.new) }

    // Each fault has its cause, and a device that never fails ends nothing.
    ensures source { HasCause (S.failures source.old) (S.failures source.new) (S.is_steady source.old) (S.is_steady source.new) (result ≡ Moved.SourceFault) }
    ensures sink { HasCause (K.failures sink.old) (K.failures sink.new) (K.is_steady sink.old) (K.is_steady sink.new) (result ≡ Moved.SinkFault) }
    ensures disk_fault { result ≡ Moved.DiskFault → HasRisen (H.failures shelf.old) (H.failures shelf.new) ⊎ FailsBy H.D.told H.D.failures (H.told shelf.old asked.now.pad) }
    ensures disk_sure { H.is_steady shelf.old ≡ true → result ≢ Moved.DiskFault }
{
    match asked.way {
        Way::Out => export_to(alloc, shelf, sink, &asked.pad),
        Way::In => import_to(alloc, source, sink, shelf, &asked.pad),
    }
}

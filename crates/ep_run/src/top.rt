//! The top call: all that the program does, over any devices.

ghost use Rattle.std.specs.Prelude.{◌≡◌, ◌≢◌, ◌⊎◌, ℕ, List, map, true, Contains};
ghost use Rattle.std.specs.String.{string_bytes};
ghost use Rattle.ep_outside.specs.Outside.{HasRisen, IsAtEnd, Takes, TakesPart};
ghost use Rattle.ep_units.specs.Text.{Text};
ghost use Rattle.ep_words.specs.Lines.{line_in};
ghost use Rattle.ep_run.specs.Judged.{FailsBy, Judges};
ghost use Rattle.ep_run.specs.Making.{MakesLines};
ghost use Rattle.ep_run.specs.Run.{IsEnd, IsMake, IsPlay, IsServe, IsUsage, IsVerdict, IsVerify, IsWrite, ReadsLines, Writes, WritesPart, statuses, usage};
ghost use Rattle.ep_run.specs.Serving.{Serves};
ghost use Rattle.ep_run.specs.Writing.{WritesPad};

use crate::judge::verify_to;
use crate::making::make_to;
use crate::say::say;
use crate::script::play;
use crate::serving::serve_callers;
use crate::status::Status;
use crate::writing::write_pad;
use ep_doors::{Doors, Host, Spawner};
use ep_outside::{Shelf, Sink, Source};
use ep_words::{Command, WordsBad, read_words};
use std::alloc::Global;
use std::sync::Wait;
use std::thread::Threads;

const USAGE: &str =
    "usage: padd play [NAME] | serve PADS API DIR KEY | write ADDR PAD TOKEN | verify DIR WORKERS | make NUMBER CLIENTS EDITS\n";

/// Does all that the program does. The host says what is done for a caller of the server. Status 7, want of memory, may
/// come at any time.
pub fn run<
    R: Wait + Threads,
    S: Source,
    K: Sink,
    H: Shelf,
    N: Doors,
    G: Host<N::Pad, N::Api>,
    W: Spawner<G::Work>,
>(
    rt: &R,
    alloc: Global,
    words: &[String],
    source: &mut S,
    sink: &mut K,
    shelf: &mut H,
    doors: &mut N,
    host: &mut G,
    spawner: &mut W,
) -> Status
where
    N::Pad: Drop,
    // Which words are wrong, and what is said then.
    ensures usage { IsUsage (map string_bytes words.now) → (result.code ≡ 2) ⊎ ((result.code ≡ 5) ⊎ (result.code ≡ 7)) }
    ensures usage_only { result.code ≡ 2 → IsUsage (map string_bytes words.now) × Takes (K.held sink.old) (K.held sink.new) usage }
    ensures usage_unread { IsUsage (map string_bytes words.now) → source.new ≡ source.old }
    ensures usage_part { IsUsage (map string_bytes words.now) → TakesPart (K.held sink.old) (K.held sink.new) usage }

    // Of `play` a transcript of the script is written, as far as it goes, and a beginning of one at any other status.
    ensures plays { (id : Text) → IsPlay (map string_bytes words.now) id → IsEnd result.code
        → Writes id (S.left source.old) (K.held sink.old) (K.held sink.new) result.code }
    ensures part { (id : Text) → IsPlay (map string_bytes words.now) id → WritesPart id (S.left source.old) (K.held sink.old) (K.held sink.new) }

    // Of `serve` each caller gets its job.
    ensures serves { IsServe (map string_bytes words.now)
        → Serves result.code (K.held sink.old) (K.held sink.new) (N.count doors.old) (N.count doors.new) (W.count spawner.old) (W.count spawner.new) (N.is_over doors.new) (N.failures doors.old) (N.failures doors.new) (W.failures spawner.old) (W.failures spawner.new) }

    // Of `write` the lines of the source go to the pad.
    ensures writes { (pad token : List ℕ) → IsWrite (map string_bytes words.now) pad token
        → WritesPad N.Pad.traffic N.Pad.failures pad token (S.left source.old) (K.held sink.old) (K.held sink.new) result.code (N.failures doors.old) (N.failures doors.new) }

    // Of `verify` the files of the shelf are judged.
    ensures judges { IsVerify (map string_bytes words.now)
        → Judges (H.names shelf.old) (H.told shelf.old) K.held sink.old sink.new result.code }
    ensures names { H.names shelf.new ≡ H.names shelf.old }

    // Of `make` the schedule of the number is played, and its five lines written.
    ensures makes { (number clients edits : ℕ) → IsMake (map string_bytes words.now) number clients edits
        → MakesLines K.held number clients edits sink.old sink.new result.code }

    // Each status is one that its words may have, and each fault has its cause.
    ensures known { Contains (statuses (line_in (map string_bytes words.now))) result.code }
    ensures read { result.code ≡ 0 → ReadsLines (line_in (map string_bytes words.now)) → IsAtEnd (S.left source.new) }
    ensures source_fault { result.code ≡ 4 → HasRisen (S.failures source.old) (S.failures source.new) }
    ensures sink_fault { result.code ≡ 5 → HasRisen (K.failures sink.old) (K.failures sink.new) }
    ensures shelf_fault { result.code ≡ 6 → HasRisen (H.failures shelf.old) (H.failures shelf.new)
        ⊎ FailsBy H.D.told H.D.failures (H.told shelf.old) }

    // A device that never fails ends nothing. Where none fails, the words are told wrong, the script is played as far as it
    // goes, the files are judged, or the schedule is made, unless memory runs out.
    ensures sink_sure { K.is_steady sink.old ≡ true → result.code ≢ 5 }
    ensures shelf_sure { H.is_steady shelf.old ≡ true → result.code ≢ 6 }
    ensures usage_complete { K.is_steady sink.old ≡ true → IsUsage (map string_bytes words.now) → (result.code ≡ 2) ⊎ (result.code ≡ 7) }
    ensures complete { S.is_steady source.old ≡ true → K.is_steady sink.old ≡ true → (id : Text) → IsPlay (map string_bytes words.now) id
        → IsEnd result.code ⊎ (result.code ≡ 7) }
    ensures judge_complete { H.is_steady shelf.old ≡ true → K.is_steady sink.old ≡ true → IsVerify (map string_bytes words.now)
        → IsVerdict result.code ⊎ (result.code ≡ 7) }
    ensures make_complete { K.is_steady sink.old ≡ true → (number clients edits : ℕ) → IsMake (map string_bytes words.now) number clients edits
        → (result.code ≡ 0) ⊎ (result.code ≡ 7) }
{
    match read_words(alloc, words) {
        Ok(Command::Play { pad }) => play(alloc, source, sink, pad).status,
        Ok(Command::Serve { .. }) => serve_callers(rt, sink, doors, host, spawner),
        Ok(Command::Write { pad, token, .. }) => {
            write_pad(rt, alloc, source, sink, doors, pad, token)
        }
        Ok(Command::Verify { workers, .. }) => { verify_to(rt, alloc, shelf, sink, workers as u32) }
        Ok(
            Command::Make {
                number,
                clients,
                edits,
            },
        ) => make_to(alloc, sink, number, clients as u32, edits as u32),
        Err(WordsBad::Usage) => say(sink, USAGE, 2),
        Err(WordsBad::NoMemory) => Status { code: 7 },
    }
}

//! A script, played on a pad of its own.

ghost use Rattle.std.specs.Prelude.{◌≡◌, ◌≢◌, ◌≤◌, ◌⊎◌, ◌↔◌, ◌∷◌, [], false, true, length, Contains, IfOk, IfSome, IsSome, OnErr, OnOk, IsErrOf};
ghost use Rattle.ep_outside.specs.Outside.{HasCause, HasRisen, IsAtEnd, Takes, TakesPart};
ghost use Rattle.ep_units.specs.PadId.{has_group};
ghost use Rattle.ep_run.specs.Ending.{EndsScript, code_of, with_world, world_of};
ghost use Rattle.ep_run.specs.Play.{Scene, error_line, opening};
ghost use Rattle.ep_run.specs.Played.{IsStage};
ghost use Rattle.ep_run.specs.Run.{IsEnd, IsMadeOf, Writes, WritesPart};

use crate::reason::Reason;
use crate::stage::{Stage, Stop};
use crate::status::Status;
use ep_disk_mem::MemDisk;
use ep_outside::{Crash, Device, Disk, Failed, Sink, Source};
use ep_script::{Script, ScriptBad};
use ep_units::{NoMemory, PadId};
use ep_world::{World, WorldBad};
use std::alloc::{AllocError, Global};

/// How a script ended, and the world then, where it was played to its end.
#[derive(Drop)]
pub struct Played {
    pub status: Status,
    pub world: Option<World<MemDisk>>,
}

/// Why a script was not played as far as it goes.
#[derive(Clone, Copy, Debug, PartialEq, Eq)]
pub enum PlayBad {
    /// The source failed.
    SourceFault,
    /// The sink failed.
    SinkFault,
    /// Memory is wanting, or the world can't go on.
    Failed,
}

impl From<AllocError> for PlayBad {
    ghost use Rattle.std.specs.Prelude.{◌≡◌};
    ghost use Rattle.ep_run.specs.declared.script.PlayBad.TheVariants.{Failed};

    ghost from_gives = { λ _ e. e ≡ Failed };

    fn from(_error: AllocError) -> PlayBad {
        PlayBad::Failed
    }
}

impl From<NoMemory> for PlayBad {
    ghost use Rattle.std.specs.Prelude.{◌≡◌};
    ghost use Rattle.ep_run.specs.declared.script.PlayBad.TheVariants.{Failed};

    ghost from_gives = { λ _ e. e ≡ Failed };

    fn from(_error: NoMemory) -> PlayBad {
        PlayBad::Failed
    }
}

impl From<WorldBad> for PlayBad {
    ghost use Rattle.std.specs.Prelude.{◌≡◌};
    ghost use Rattle.ep_run.specs.declared.script.PlayBad.TheVariants.{Failed};

    ghost from_gives = { λ _ e. e ≡ Failed };

    fn from(_error: WorldBad) -> PlayBad {
        PlayBad::Failed
    }
}

impl From<Failed> for PlayBad {
    ghost use Rattle.std.specs.Prelude.{◌≡◌};
    ghost use Rattle.ep_run.specs.declared.script.PlayBad.TheVariants.{SinkFault};

    ghost from_gives = { λ _ e. e ≡ SinkFault };

    fn from(_error: Failed) -> PlayBad {
        PlayBad::SinkFault
    }
}

impl From<ScriptBad> for PlayBad {
    ghost use Rattle.std.specs.Prelude.{◌≡◌};
    ghost use Rattle.ep_run.specs.Stops.{bad_of_script};

    ghost from_gives = { λ bad e. e ≡ bad_of_script bad };

    fn from(error: ScriptBad) -> PlayBad {
        match error {
            ScriptBad::Fault => PlayBad::SourceFault,
            ScriptBad::NoMemory => PlayBad::Failed,
        }
    }
}

/// Writes why line k ends a script.
fn end<K: Sink>(alloc: Global, k: u64, reason: Reason, sink: &mut K) -> Result<(), PlayBad>
    ensures whole { OnOk result (Takes (K.held sink.old) (K.held sink.new) (error_line k reason)) }
    ensures part { OnErr result (TakesPart (K.held sink.old) (K.held sink.new) (error_line k reason)) }
    ensures unread { IsErrOf result PlayBad.SourceFault → ⊥ }
    ensures cause { IsErrOf result PlayBad.SinkFault → HasRisen (K.failures sink.old) (K.failures sink.new) }
    ensures later { K.failures sink.old ≤ K.failures sink.new }
    ensures steady { K.is_steady sink.new ≡ K.is_steady sink.old }
{
    let text = reason.error_line(alloc, k)?;
    sink.write(text.as_bytes())?;
    Ok(())
}

/// Plays the lines that the source has left, and answers whether all were played.
fn play_lines<D: Crash + Drop, S: Source, K: Sink>(
    alloc: Global,
    stage: &mut Stage<D>,
    source: &mut S,
    sink: &mut K,
) -> Result<bool, PlayBad>
    ensures ends { (s : Scene) → IsStage D.told D.failures D.stops_alone stage.old s
        → EndsScript D.told D.failures D.stops_alone s (S.left source.old) (K.held sink.old) (K.held sink.new) (with_world stage.new.world result) }
    ensures read { IfOk result (λ all. all ≡ true → IsAtEnd (S.left source.new)) }
    ensures source_fault { HasCause (S.failures source.old) (S.failures source.new) (S.is_steady source.old) (S.is_steady source.new) (IsErrOf result PlayBad.SourceFault) }
    ensures sink_fault { IsErrOf result PlayBad.SinkFault → HasRisen (K.failures sink.old) (K.failures sink.new) }
    ensures later { K.failures sink.old ≤ K.failures sink.new }
    ensures steady { K.is_steady sink.new ≡ K.is_steady sink.old }
{
    let mut script = Script::new(alloc);
    for k in 1..u64::MAX {
        let Some(line) = script.next_line(source)? else {
            return Ok(true);
        };
        match stage.play_cut(alloc, k, line) {
            Ok(text) => sink.write(text.as_bytes())?,
            Err(Stop::At(reason)) => {
                end(alloc, k, reason, sink)?;
                return Ok(false);
            }
            Err(Stop::Failed) => return Err(PlayBad::Failed),
        }
    }
    Err(PlayBad::Failed)
}

/// Plays the script that the source has left on a disk in memory, which is empty and without faults.
fn play_script<S: Source, K: Sink>(
    alloc: Global,
    source: &mut S,
    sink: &mut K,
    id: PadId,
) -> Result<Option<World<MemDisk>>, PlayBad>
    ensures ends { EndsScript ⟦<MemDisk as Disk>⟧.told ⟦<MemDisk as Device>⟧.failures ⟦<MemDisk as Disk>⟧.stops_alone (opening id) (S.left source.old) (K.held sink.old) (K.held sink.new) result }
    ensures read { IfOk result (λ world. IsSome world → IsAtEnd (S.left source.new)) }
    ensures source_fault { HasCause (S.failures source.old) (S.failures source.new) (S.is_steady source.old) (S.is_steady source.new) (IsErrOf result PlayBad.SourceFault) }
    ensures sink_fault { IsErrOf result PlayBad.SinkFault → HasRisen (K.failures sink.old) (K.failures sink.new) }
    ensures steady { K.is_steady sink.new ≡ K.is_steady sink.old }
{
    let disk = MemDisk::new(alloc, Vec::new(alloc), Vec::new(alloc))?;
    let mut stage = Stage::new(alloc, disk, id)?;
    let all = play_lines(alloc, &mut stage, source, sink)?;
    if !all {
        return Ok(None);
    }
    let Stage { world, pool: _ } = stage;
    Ok(Some(world))
}

/// What was played.
fn outcome(ended: Result<Option<World<MemDisk>>, PlayBad>) -> Played
    ensures status { result.status.code ≡ code_of ended }
    ensures world { result.world ≡ world_of ended }
{
    match ended {
        Ok(Some(world)) => Played {
            status: Status { code: 0 },
            world: Some(world),
        },
        Ok(None) => without_world(3),
        Err(PlayBad::SourceFault) => without_world(4),
        Err(PlayBad::SinkFault) => without_world(5),
        Err(PlayBad::Failed) => without_world(7),
    }
}

fn without_world(code: u8) -> Played
    ensures status { result.status.code ≡ code }
    ensures world { result.world ≡ None }
{
    Played {
        status: Status { code },
        world: None,
    }
}

/// Plays the script that the source has on a pad of this id, which has no group. Status 7 may come at any time.
pub fn play<S: Source, K: Sink>(alloc: Global, source: &mut S, sink: &mut K, id: PadId) -> Played
    requires { has_group id ≡ false }
    // What is written is a transcript of the script, as far as it goes, and a beginning of one at any other status.
    ensures writes { IsEnd result.status.code → Writes id (S.left source.old) (K.held sink.old) (K.held sink.new) result.status.code }
    ensures read { result.status.code ≡ 0 → IsAtEnd (S.left source.new) }
    ensures part { WritesPart id (S.left source.old) (K.held sink.old) (K.held sink.new) }

    // The world is there just where all of it was played; and of it the schedule theorem speaks.
    ensures world { IsSome result.world ↔ (result.status.code ≡ 0) }
    ensures headline { IfSome result.world
        (IsMadeOf ⟦<MemDisk as Disk>⟧.told ⟦<MemDisk as Device>⟧.failures ⟦<MemDisk as Disk>⟧.stops_alone id (S.left source.old) (K.held sink.old) (K.held sink.new)) }

    // Each fault has its cause.
    ensures source_fault { result.status.code ≡ 4 → HasRisen (S.failures source.old) (S.failures source.new) }
    ensures sink_fault { result.status.code ≡ 5 → HasRisen (K.failures sink.old) (K.failures sink.new) }
    ensures known { Contains (0 ∷ 3 ∷ 4 ∷ 5 ∷ 7 ∷ []) result.status.code }
    ensures source_steady { S.is_steady source.new ≡ S.is_steady source.old }
    ensures sink_steady { K.is_steady sink.new ≡ K.is_steady sink.old }
{
    outcome(play_script(alloc, source, sink, id))
}

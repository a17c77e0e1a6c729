//! A client is taken out by its name, to be put back.

ghost use Rattle.std.specs.Prelude.{◌≡◌, ◌≢◌, Some, IfOk, IfErr};
ghost use Rattle.ep_members.specs.Actors.{found, IsWithout};
ghost use Rattle.ep_members.specs.declared.actors.Actor.TheVariants as actor;
ghost use Rattle.ep_world.specs.Actors.{IsNoClient, IsSame};
ghost use Rattle.ep_world.specs.declared.bad.WorldBad.TheVariants as unknown;

use crate::bad::WorldBad;
use ep_members::{Actor, Actors, Member};
use ep_units::Units;
use std::alloc::Global;

/// Takes out the client of a name. Where there is none, nothing is changed.
pub(crate) fn member(alloc: Global, actors: &mut Actors, name: &Units) -> Result<Member, WorldBad>
    ensures taken { IfOk result (λ m. (found actors.old name.now ≡ Some (actor.Named m)) × IsWithout actors.old name.now actors.new) }
    ensures unknown { IfErr result (λ bad. bad ≡ unknown.Unknown → IsNoClient (found actors.old name.now) × IsSame actors.old actors.new) }
    ensures failed { IfErr result (λ bad. bad ≢ unknown.Unknown → bad ≡ unknown.NoMemory) }
{
    match actors.take(name) {
        Some(Actor::Named(member)) => Ok(member),
        Some(Actor::Guest(conn)) => {
            actors.put(alloc, name, Actor::Guest(conn))?;
            Err(WorldBad::Unknown)
        }
        None => Err(WorldBad::Unknown),
    }
}

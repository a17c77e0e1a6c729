//! Requests, answered.

ghost use Rattle.std.specs.Prelude.{◌≢◌, Err, IfOk, IfSome, All, map};
ghost use Rattle.ep_ask.specs.Calls.{HasWholeText};
ghost use Rattle.ep_api.specs.Functions.{task_of};
ghost use Rattle.ep_api.specs.Legal.{Sits, Stands, Waits};
ghost use Rattle.ep_api.specs.Passes.{Does, own, seen, stay_of};
ghost use Rattle.ep_api.specs.Served.{IsBare, Serves, Tells};

use crate::both::{create_group_pad, delete_group, delete_pad, read_only_id};
use crate::directory::{
    author_for, author_name, create_author, create_group, create_session, delete_session,
    group_for, list_groups, list_pads, session_info, sessions_of_author, sessions_of_group,
};
use crate::pads::{
    create_pad, get_text, last_edited, public_status, revisions, set_pad_text, set_public_status,
    users,
};
use ep_ask::{ApiBad, Call, Data, Reply, make_reply, read_call};
use ep_groups::DirPort;
use ep_outside::{Draws, Pair};
use ep_pad::PadPort;
use ep_units::NoMemory;
use std::alloc::Global;
use std::sync::Wait;

/// A reply, and the passes that were taken for it.
#[derive(Drop)]
pub struct Answered<O, B, A> {
    pub reply: Reply,
    /// The pass of the registry of pads.
    pub hall: Option<O>,
    /// The pass of the directory.
    pub desk: Option<B>,
    /// The passes of pads, in the order in which they were taken.
    pub pads: Vec<A>,
}

/// What a call comes to.
fn carry_out<R: Wait, P: PadPort, G: DirPort, D: Draws>(
    alloc: Global,
    rt: &R,
    pads: &P,
    dir: &G,
    hall: &mut P::Hall,
    desk: &mut G::Pass,
    taken: &mut Vec<P::Pass>,
    draws: &mut D,
    now: u64,
    call: &Call,
) -> Result<Data, ApiBad>
    requires waits { Waits (P.is_hall pads.now) (P.is_register (P.limits_of pads.now)) P.hall_known hall.old }
    requires stand { All (Stands (P.is_of pads.now) (P.limits_of pads.now) P.Store.told P.Store.failures P.begun P.known) taken.old.items }
    requires sits { Sits (G.is_of dir.now) G.Store.always_tells (G.begun dir.now) G.known desk.old }
    requires whole { HasWholeText call.now }
    ensures waits { Waits (P.is_hall pads.now) (P.is_register (P.limits_of pads.now)) P.hall_known hall.new }
    ensures stand { All (Stands (P.is_of pads.now) (P.limits_of pads.now) P.Store.told P.Store.failures P.begun P.known) taken.new.items }
    ensures sits { Sits (G.is_of dir.now) G.Store.always_tells (G.begun dir.now) G.known desk.new }
    ensures does { Does (seen (own (G.known desk.old)) (own (P.hall_known hall.old)) (map (stay_of P.known P.name_of P.cell_of) taken.old.items) (D.to_come draws.old)) (task_of now call.now) result (seen (own (G.known desk.new)) (own (P.hall_known hall.new)) (map (stay_of P.known P.name_of P.cell_of) taken.new.items) (D.to_come draws.new)) }
{
    match call {
        Call::CreateGroup => create_group(rt, dir, desk, draws),
        Call::CreateGroupIfNotExistsFor { mapper } => group_for(rt, dir, desk, mapper, draws),
        Call::DeleteGroup { group } => {
            delete_group(rt, pads, dir, hall, desk, taken, group, now)
        }
        Call::ListPads { group } => list_pads(rt, dir, desk, group),
        Call::ListAllGroups => list_groups(rt, dir, desk),
        Call::CreateGroupPad { group, name, text } => {
            create_group_pad(rt, pads, dir, hall, desk, taken, group, name, text, now)
        }
        Call::CreateAuthor { name } => create_author(rt, dir, desk, name, draws),
        Call::CreateAuthorIfNotExistsFor { mapper, name } => {
            author_for(rt, dir, desk, mapper, name, draws)
        }
        Call::GetAuthorName { author } => author_name(rt, dir, desk, author),
        Call::CreateSession {
            group,
            author,
            valid_until,
        } => create_session(rt, dir, desk, group, author, *valid_until, now, draws),
        Call::DeleteSession { session } => delete_session(rt, dir, desk, session),
        Call::GetSessionInfo { session } => session_info(rt, dir, desk, session),
        Call::ListSessionsOfGroup { group } => sessions_of_group(rt, dir, desk, group),
        Call::ListSessionsOfAuthor { author } => sessions_of_author(rt, dir, desk, author),
        Call::CreatePad { pad, text } => create_pad(rt, pads, hall, taken, pad, text, now),
        Call::DeletePad { pad } => delete_pad(rt, pads, dir, hall, desk, taken, pad, now),
        Call::GetText { pad, rev } => get_text(alloc, rt, pads, hall, taken, pad, *rev),
        Call::SetText { pad, text } => set_pad_text(rt, pads, hall, taken, pad, text, now),
        Call::GetRevisionsCount { pad } => revisions(rt, pads, hall, taken, pad),
        Call::GetLastEdited { pad } => last_edited(rt, pads, hall, taken, pad),
        Call::PadUsersCount { pad } => users(rt, pads, hall, taken, pad),
        Call::GetReadOnlyId { pad } => {
            read_only_id(rt, pads, dir, hall, desk, taken, pad, draws)
        }
        Call::SetPublicStatus { pad, on } => set_public_status(rt, pads, hall, taken, pad, *on),
        Call::GetPublicStatus { pad } => public_status(rt, pads, hall, taken, pad),
        Call::CheckToken => Ok(Data::Nothing),
    }
}

/// The answer to a request that is refused before any call.
fn refused<O, B, A: Drop>(alloc: Global, why: ApiBad) -> Result<Answered<O, B, A>, NoMemory>
    ensures tells { IfOk result (λ a. (why ≢ ApiBad.NoMemory) × Tells (Err why) a.reply) }
    ensures none { IfOk result (λ a. IsBare a) }
{
    if why == ApiBad::NoMemory {
        return Err(NoMemory);
    }
    Ok(Answered {
        reply: make_reply(alloc, &Err(why))?,
        hall: None,
        desk: None,
        pads: Vec::new(alloc),
    })
}

/// The reply to a request, by the calls that its function makes. The moment is in milliseconds.
pub fn answer<R: Wait, P: PadPort, G: DirPort, D: Draws>(
    alloc: Global,
    rt: &R,
    pads: &P,
    dir: &G,
    draws: &mut D,
    path: &str,
    pairs: &[Pair],
    key: &str,
    now: u64,
) -> Result<Answered<P::Hall, G::Pass, P::Pass>, NoMemory>
    ensures serves { IfOk result (λ a. Serves P.hall_known G.known P.known P.name_of P.cell_of path.now pairs.now key.now now (D.to_come draws.old) (D.to_come draws.new) a) }
    ensures hall { IfOk result (λ a. IfSome a.hall (Waits (P.is_hall pads.now) (P.is_register (P.limits_of pads.now)) P.hall_known)) }
    ensures desk { IfOk result (λ a. IfSome a.desk (Sits (G.is_of dir.now) G.Store.always_tells (G.begun dir.now) G.known)) }
    ensures pads { IfOk result (λ a. All (Stands (P.is_of pads.now) (P.limits_of pads.now) P.Store.told P.Store.failures P.begun P.known) a.pads.items) }
{
    let call = match read_call(alloc, path, pairs, key) {
        Ok(call) => call,
        Err(why) => return refused(alloc, why),
    };
    let mut hall = pads.hall(rt);
    let mut desk = dir.pass(rt);
    let mut taken = Vec::new(alloc);
    let outcome = carry_out(
        alloc, rt, pads, dir, &mut hall, &mut desk, &mut taken, draws, now, &call,
    );
    Ok(Answered {
        reply: make_reply(alloc, &outcome)?,
        hall: Some(hall),
        desk: Some(desk),
        pads: taken,
    })
}

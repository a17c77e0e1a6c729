//! One request of the API, and its reply.

ghost use Rattle.std.specs.Prelude.{◌≡◌, ◌≤◌, Err, IsTrue, IfOk, IfErr, string_bytes};
ghost use Rattle.ep_http.specs.Replies.{is_status};
ghost use Rattle.ep_api.specs.Legal.{Sits, Stands, Waits};
ghost use Rattle.ep_serve.specs.Asked.{Answers, IsDue, IsRefusal, IsUndue, Tells, Writes, reply_in};

use ep_api::{Answered, answer};
use ep_ask::Reply;
use ep_groups::DirPort;
use ep_http::{HttpBad, Request, SinkBad, read_request, refusal, write_reply};
use ep_outside::{Clock, Draws, Sink, Source};
use ep_pad::PadPort;
use ep_units::NoMemory;
use std::alloc::Global;
use std::sync::Wait;
use thiserror::Error;

/// How many bytes the body of a request may have.
pub const MOST_BODY: u64 = 4_194_304;

/// Why a caller of the API was told nothing, or not all.
#[derive(Clone, Copy, Debug, Error, PartialEq, Eq)]
pub enum Unanswered {
    #[error("the caller is gone: {0}")]
    Request(HttpBad),
    /// A beginning of the reply went out.
    #[error("the reply could not be written")]
    Reply,
    #[error("out of memory")]
    NoMemory,
}

/// What is due to a caller whose request was read, or refused.
#[derive(Drop)]
pub enum Due<O, B, A> {
    /// What came of the request, with the passes by which it was done.
    Done(Answered<O, B, A>),
    Refused(Reply),
}

impl<O, B, A> Due<O, B, A> {
    fn reply(&self) -> &Reply
        ensures { result.now ≡ reply_in self.now }
    {
        match self {
            Due::Done(answered) => &answered.reply,
            Due::Refused(reply) => reply,
        }
    }
}

/// What was due to a caller, and whether it was told.
#[derive(Drop)]
pub struct Came<O, B, A> {
    pub due: Due<O, B, A>,
    pub told: Result<(), Unanswered>,
}

impl From<NoMemory> for Unanswered {
    ghost use Rattle.ep_serve.specs.declared.asked.Unanswered.TheVariants as bad;

    ghost from_gives = { λ _ e. e ≡ bad.NoMemory };

    fn from(_error: NoMemory) -> Unanswered {
        Unanswered::NoMemory
    }
}

// Writes a reply.
fn write<K: Sink>(alloc: Global, sink: &mut K, due: &Reply) -> Result<(), Unanswered>
    requires { IsTrue (is_status due.now.status) }
    ensures writes { Writes K.held K.failures sink.old sink.new due.now result }
    ensures later { K.failures sink.old ≤ K.failures sink.new }
{
    match write_reply(alloc, sink, due.status, &due.body) {
        Ok(()) => Ok(()),
        Err(SinkBad::Failed) => Err(Unanswered::Reply),
        Err(SinkBad::NoMemory) => Err(Unanswered::NoMemory),
    }
}

// The reply that refuses a request, where anybody hears it.
fn refuse(alloc: Global, why: HttpBad) -> Result<Reply, Unanswered>
    ensures due { IfOk result (IsRefusal why) }
    ensures status { IfOk result (λ r. IsTrue (is_status r.status)) }
    ensures undue { IfErr result (IsUndue (Err why)) }
{
    let Some(status) = why.status() else {
        return Err(Unanswered::Request(why));
    };
    let body = refusal(alloc, status)?;
    Ok(Reply { status, body })
}

// Does what a request asks for, by calls of the directory and of pads.
fn carry_out<R: Wait, P: PadPort, G: DirPort, C: Clock, D: Draws>(
    rt: &R,
    alloc: Global,
    pads: &P,
    dir: &G,
    clock: &C,
    draws: &mut D,
    key: &str,
    request: &Request,
) -> Result<Answered<P::Hall, G::Pass, P::Pass>, Unanswered>
    ensures tells { IfOk result (Tells P.hall_known G.known P.known P.name_of P.cell_of (Waits (P.is_hall pads.now) (P.is_register (P.limits_of pads.now)) P.hall_known) (Sits (G.is_of dir.now) G.Store.always_tells (G.begun dir.now) G.known) (Stands (P.is_of pads.now) (P.limits_of pads.now) P.Store.told P.Store.failures P.begun P.known) (C.may_show clock.now) key.now (D.to_come draws.old) (D.to_come draws.new) request.now) }
    ensures status { IfOk result (λ a. IsTrue (is_status a.reply.status)) }
    ensures undue { IfErr result (λ e. e ≡ Unanswered.NoMemory) }
{
    let answered = answer(
        alloc,
        rt,
        pads,
        dir,
        draws,
        request.path.as_str(),
        request.pairs.as_slice(),
        key,
        clock.now_ms(),
    )?;
    Ok(answered)
}

// What is due to what was read of a caller.
fn due_to<R: Wait, P: PadPort, G: DirPort, C: Clock, D: Draws>(
    rt: &R,
    alloc: Global,
    pads: &P,
    dir: &G,
    clock: &C,
    draws: &mut D,
    key: &str,
    read: Result<Request, HttpBad>,
) -> Result<Due<P::Hall, G::Pass, P::Pass>, Unanswered>
    ensures due { IfOk result (IsDue P.hall_known G.known P.known P.name_of P.cell_of (Waits (P.is_hall pads.now) (P.is_register (P.limits_of pads.now)) P.hall_known) (Sits (G.is_of dir.now) G.Store.always_tells (G.begun dir.now) G.known) (Stands (P.is_of pads.now) (P.limits_of pads.now) P.Store.told P.Store.failures P.begun P.known) (C.may_show clock.now) key.now (D.to_come draws.old) (D.to_come draws.new) read) }
    ensures status { IfOk result (λ d. IsTrue (is_status (reply_in d).status)) }
    ensures undue { IfErr result (IsUndue read) }
{
    match read {
        Ok(request) => match carry_out(rt, alloc, pads, dir, clock, draws, key, &request) {
            Ok(answered) => Ok(Due::Done(answered)),
            Err(why) => Err(why),
        },
        Err(why) => match refuse(alloc, why) {
            Ok(reply) => Ok(Due::Refused(reply)),
            Err(undue) => Err(undue),
        },
    }
}

/// Reads a caller's request, does what it asks for, and replies. Where the request is refused, the reply says so. The
/// passes by which the request was done are handed back.
pub fn answer_caller<R: Wait, P: PadPort, G: DirPort, A: Source + Sink, C: Clock, D: Draws>(
    rt: &R,
    alloc: Global,
    pads: &P,
    dir: &G,
    caller: &mut A,
    clock: &C,
    draws: &mut D,
    key: &str,
) -> Result<Came<P::Hall, G::Pass, P::Pass>, Unanswered>
    ensures answers { Answers P.hall_known G.known P.known P.name_of P.cell_of (Waits (P.is_hall pads.now) (P.is_register (P.limits_of pads.now)) P.hall_known) (Sits (G.is_of dir.now) G.Store.always_tells (G.begun dir.now) G.known) (Stands (P.is_of pads.now) (P.limits_of pads.now) P.Store.told P.Store.failures P.begun P.known) (C.may_show clock.now) key.now (D.to_come draws.old) (D.to_come draws.new) A.left A.held A.failures caller.old caller.new result }
    ensures later { A.failures caller.old ≤ A.failures caller.new }
{
    let read = read_request(alloc, caller, MOST_BODY);
    match due_to(rt, alloc, pads, dir, clock, draws, key, read) {
        Ok(due) => {
            let told = write(alloc, caller, due.reply());
            Ok(Came { due, told })
        }
        Err(why) => Err(why),
    }
}

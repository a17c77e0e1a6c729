//! What is done for a caller.

ghost use Rattle.ep_serve.specs.Work.{HasSat};

use crate::asked::{Came, Unanswered, answer_caller};
use ep_doors::Job;
use ep_groups::DirPort;
use ep_link::{Ear, Link};
use ep_outside::{Clock, Device, Disk, Draws, Keeper, Sink, Source};
use ep_pad::PadPort;
use ep_ring::{RingPass, Ringing};
use ep_session::{Report, serve_session};
use std::alloc::Global;
use std::sync::{Arc, Wait};

/// A caller of pads.
#[derive(Drop)]
pub struct Sitting<P: Drop, L: Link + Drop, C: Drop, D: Drop> {
    pub(crate) alloc: Global,
    pub(crate) pads: Ringing<P, L::Ear>,
    pub(crate) link: L,
    pub(crate) clock: Arc<C>,
    pub(crate) draws: D,
}

/// What a caller of pads leaves: what the session was, its link and its draws.
#[derive(Drop)]
pub struct Sat<O, A, B, L, D> {
    pub report: Report<O, A, B>,
    pub link: L,
    pub draws: D,
}

/// What is left of a caller of pads of this port.
pub type SatOf<P, L, D> = Sat<
    <P as PadPort>::Hall,
    RingPass<<P as PadPort>::Pass>,
    <P as DirPort>::Pass,
    L,
    D,
>;

impl<P: PadPort + DirPort + Drop, L: Link + Drop, C: Clock + Drop, D: Draws + Drop> Sitting<
    P,
    L,
    C,
    D,
> {
    ghost use Rattle.std.specs.Arc.{arc_value};

    /// Has a session over the link, by the pads and the directory of the port.
    pub fn sit<R: Wait>(self, rt: &R) -> SatOf<P, L, D>
        ensures { HasSat ⟦<P as PadPort>⟧.hall_known ⟦<P as DirPort>⟧.known (λ pass. ⟦<P as PadPort>⟧.known pass.pass) (λ hall. ⟦<P as PadPort>⟧.is_hall (arc_value self.pads.pads) hall) (λ desk. ⟦<P as DirPort>⟧.is_of (arc_value self.pads.pads) desk) (λ pass. ⟦<P as PadPort>⟧.is_of (arc_value self.pads.pads) pass.pass) (C.may_show (arc_value self.clock)) (D.to_come self.draws) (D.to_come result.draws) (L.traffic self.link) (L.traffic result.link) result.report }
    {
        let Sitting {
            alloc,
            pads,
            mut link,
            clock,
            mut draws,
        } = self;
        let report = serve_session(
            rt,
            alloc,
            &pads,
            &*pads.pads,
            &mut link,
            &*clock,
            &mut draws,
        );
        pads.end(rt);
        Sat {
            report,
            link,
            draws,
        }
    }
}

impl<P: PadPort + DirPort + Drop, L: Link + Drop, C: Clock + Drop, D: Draws + Drop> Job
    for Sitting<P, L, C, D> {
    fn go<R: Wait>(self, rt: &R) {
        drop(self.sit(rt));
    }
}

/// A caller of the API.
#[derive(Drop)]
pub struct Asking<P: Drop, E: Ear, A: Source + Sink + Drop, C: Drop, D: Drop> {
    pub(crate) alloc: Global,
    pub(crate) pads: Ringing<P, E>,
    pub(crate) caller: A,
    pub(crate) clock: Arc<C>,
    pub(crate) draws: D,
    pub(crate) key: Arc<String>,
}

/// What a caller of the API leaves: what came of it, its connection and its draws.
#[derive(Drop)]
pub struct Replied<O, B, A, T, D> {
    pub answered: Result<Came<O, B, A>, Unanswered>,
    pub caller: T,
    pub draws: D,
}

/// What is left of a caller of the API of this port.
pub type RepliedOf<P, A, D> = Replied<
    <P as PadPort>::Hall,
    <P as DirPort>::Pass,
    RingPass<<P as PadPort>::Pass>,
    A,
    D,
>;

impl<
    P: PadPort + DirPort + Drop,
    E: Ear,
    A: Source + Sink + Drop,
    C: Clock + Drop,
    D: Draws + Drop,
> Asking<P, E, A, C, D> {
    ghost use Rattle.std.specs.Prelude.{string_bytes};
    ghost use Rattle.std.specs.Arc.{arc_value};
    ghost use Rattle.ep_api.specs.Legal.{Sits, Stands, Waits};
    ghost use Rattle.ep_serve.specs.Asked.{Answers};

    /// Reads the one request of the caller, has it done by the pads and the directory of the port, and answers it.
    pub fn tell<R: Wait>(self, rt: &R) -> RepliedOf<P, A, D>
        ensures { Answers ⟦<P as PadPort>⟧.hall_known ⟦<P as DirPort>⟧.known ⟦<Ringing<P, E> as PadPort>⟧.known ⟦<Ringing<P, E> as PadPort>⟧.name_of ⟦<Ringing<P, E> as PadPort>⟧.cell_of
            (Waits (⟦<P as PadPort>⟧.is_hall (arc_value self.pads.pads)) (⟦<P as PadPort>⟧.is_register (⟦<P as PadPort>⟧.limits_of (arc_value self.pads.pads))) ⟦<P as PadPort>⟧.hall_known)
            (Sits (⟦<P as DirPort>⟧.is_of (arc_value self.pads.pads)) ⟦<<P as DirPort>::Store as Keeper>⟧.always_tells (⟦<P as DirPort>⟧.begun (arc_value self.pads.pads)) ⟦<P as DirPort>⟧.known)
            (Stands (⟦<Ringing<P, E> as PadPort>⟧.is_of self.pads) (⟦<P as PadPort>⟧.limits_of (arc_value self.pads.pads)) ⟦<<P as PadPort>::Store as Disk>⟧.told ⟦<<P as PadPort>::Store as Device>⟧.failures ⟦<Ringing<P, E> as PadPort>⟧.begun ⟦<Ringing<P, E> as PadPort>⟧.known)
            (C.may_show (arc_value self.clock)) (string_bytes (arc_value self.key)) (D.to_come self.draws) (D.to_come result.draws) A.left A.held A.failures self.caller result.caller result.answered }
    {
        let Asking {
            alloc,
            pads,
            mut caller,
            clock,
            mut draws,
            key,
        } = self;
        let answered = answer_caller(
            rt,
            alloc,
            &pads,
            &*pads.pads,
            &mut caller,
            &*clock,
            &mut draws,
            key.as_str(),
        );
        Replied {
            answered,
            caller,
            draws,
        }
    }
}

impl<
    P: PadPort + DirPort + Drop,
    E: Ear,
    A: Source + Sink + Drop,
    C: Clock + Drop,
    D: Draws + Drop,
> Job for Asking<P, E, A, C, D> {
    fn go<R: Wait>(self, rt: &R) {
        drop(self.tell(rt));
    }
}

/// What is done for a caller of pads, or for one of the API.
#[derive(Drop)]
pub enum Work<S, A> {
    Pad(S),
    Api(A),
}

impl<S: Job + Drop, A: Job + Drop> Job for Work<S, A> {
    fn go<R: Wait>(self, rt: &R) {
        match self {
            Work::Pad(sitting) => sitting.go(rt),
            Work::Api(asking) => asking.go(rt),
        }
    }
}

/// What a server does for a caller.
pub type Serving<P, L, A, C, D> = Work<Sitting<P, L, C, D>, Asking<P, <L as Link>::Ear, A, C, D>>;

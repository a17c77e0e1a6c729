//! Each call of a pad by a pass.

ghost use Rattle.std.specs.Prelude.{◌≡◌, ◌≤◌, true, option_map};
ghost use Rattle.ep_units.specs.Text.{is_well_formed};
ghost use Rattle.ep_pad.specs.declared.entries.PadEntry.TheVariants as entry;
ghost use Rattle.ep_pad.specs.declared.entries.PadReply.TheVariants as reply;
ghost use Rattle.ep_pad.specs.Lazy.{IsLegalFrom};
ghost use Rattle.ep_pad.specs.Asking.{Asks, AsksOrLacks};

use crate::copying::{copied_author, copied_grant};
use ep_apply::Doc;
use ep_cs::Change;
use ep_pad::{
    CatchUp, Committed, Fetched, PadBad, PadEntry, PadPort, PadReply, PadStatus, Piece, Welcome,
};
use ep_units::{Grant, Session, Units};
use std::sync::Wait;

/// Somebody logs in with a grant. An absent pad is made, with no text, for the one who may. Moments are in
/// milliseconds.
pub fn login<R: Wait, P: PadPort>(
    rt: &R,
    pads: &P,
    pass: &mut P::Pass,
    grant: &Grant,
    now: u64,
) -> Result<Welcome, PadBad>
    requires of { P.is_of pads.now pass.old }
    ensures of { P.is_of pads.now pass.new }
    ensures pad { (P.name_of pass.new ≡ P.name_of pass.old) × (P.cell_of pass.new ≡ P.cell_of pass.old) × (P.begun pass.new ≡ P.begun pass.old) }
    ensures asks { AsksOrLacks (IsLegalFrom P.Store.told P.Store.failures (P.begun pass.old)) (P.known pass.old) (entry.Login grant.now now) reply.Welcome result (P.known pass.new) }
{
    let grant = copied_grant(pads.alloc(), grant)?;
    let reply = pads.ask(rt, pass, PadEntry::Login { grant, now });
    let PadReply::Welcome(answer) = reply else {
        unreachable!()
    };
    answer
}

/// Somebody comes back at a revision with a grant, and may name the birth and the author.
pub fn resume<R: Wait, P: PadPort>(
    rt: &R,
    pads: &P,
    pass: &mut P::Pass,
    grant: &Grant,
    rev: u64,
    birth: Option<u64>,
    author: Option<&Units>,
    now: u64,
) -> Result<CatchUp, PadBad>
    requires of { P.is_of pads.now pass.old }
    ensures of { P.is_of pads.now pass.new }
    ensures pad { (P.name_of pass.new ≡ P.name_of pass.old) × (P.cell_of pass.new ≡ P.cell_of pass.old) × (P.begun pass.new ≡ P.begun pass.old) }
    ensures asks { AsksOrLacks (IsLegalFrom P.Store.told P.Store.failures (P.begun pass.old)) (P.known pass.old) (entry.Resume grant.now rev birth (option_map (λ x. x.now) author.entry) now) reply.CatchUp result (P.known pass.new) }
{
    let alloc = pads.alloc();
    let grant = copied_grant(alloc, grant)?;
    let author = copied_author(alloc, author)?;
    let reply = pads.ask(
        rt,
        pass,
        PadEntry::Resume {
            grant,
            rev,
            birth,
            author,
            now,
        },
    );
    let PadReply::CatchUp(answer) = reply else {
        unreachable!()
    };
    answer
}

/// A session's change of a revision is committed, rebased through the later ones.
pub fn accept<R: Wait, P: PadPort>(
    rt: &R,
    pads: &P,
    pass: &mut P::Pass,
    session: Session,
    base: u64,
    change: Change,
    now: u64,
) -> Result<Committed, PadBad>
    requires of { P.is_of pads.now pass.old }
    ensures of { P.is_of pads.now pass.new }
    ensures pad { (P.name_of pass.new ≡ P.name_of pass.old) × (P.cell_of pass.new ≡ P.cell_of pass.old) × (P.begun pass.new ≡ P.begun pass.old) }
    ensures asks { Asks (IsLegalFrom P.Store.told P.Store.failures (P.begun pass.old)) (P.known pass.old) (entry.Accept session base change now) (reply.Committed result) (P.known pass.new) }
{
    let reply = pads.ask(
        rt,
        pass,
        PadEntry::Accept {
            session,
            base,
            change,
            now,
        },
    );
    let PadReply::Committed(answer) = reply else {
        unreachable!()
    };
    answer
}

/// The revisions behind one that a session has heard, at most 64, and what it is to be told of its edits that
/// became nothing.
pub fn fetch<R: Wait, P: PadPort>(
    rt: &R,
    pads: &P,
    pass: &mut P::Pass,
    session: Session,
    from: u64,
    told: u64,
) -> Result<Fetched, PadBad>
    requires of { P.is_of pads.now pass.old }
    ensures of { P.is_of pads.now pass.new }
    ensures pad { (P.name_of pass.new ≡ P.name_of pass.old) × (P.cell_of pass.new ≡ P.cell_of pass.old) × (P.begun pass.new ≡ P.begun pass.old) }
    ensures asks { Asks (IsLegalFrom P.Store.told P.Store.failures (P.begun pass.old)) (P.known pass.old) (entry.Fetch session from told) (reply.Fetched result) (P.known pass.new) }
{
    let reply = pads.ask(
        rt,
        pass,
        PadEntry::Fetch {
            session,
            from,
            told,
        },
    );
    let PadReply::Fetched(answer) = reply else {
        unreachable!()
    };
    answer
}

/// A session leaves.
pub fn leave<R: Wait, P: PadPort>(
    rt: &R,
    pads: &P,
    pass: &mut P::Pass,
    session: Session,
) -> Result<(), PadBad>
    requires of { P.is_of pads.now pass.old }
    ensures of { P.is_of pads.now pass.new }
    ensures pad { (P.name_of pass.new ≡ P.name_of pass.old) × (P.cell_of pass.new ≡ P.cell_of pass.old) × (P.begun pass.new ≡ P.begun pass.old) }
    ensures asks { Asks (IsLegalFrom P.Store.told P.Store.failures (P.begun pass.old)) (P.known pass.old) (entry.Leave session) (reply.Done result) (P.known pass.new) }
{
    let reply = pads.ask(rt, pass, PadEntry::Leave { session });
    let PadReply::Done(answer) = reply else {
        unreachable!()
    };
    answer
}

/// The pad is made with a text, and its birth is answered.
pub fn create<R: Wait, P: PadPort>(
    rt: &R,
    pads: &P,
    pass: &mut P::Pass,
    text: &Units,
    now: u64,
) -> Result<u64, PadBad>
    requires of { P.is_of pads.now pass.old }
    requires text { is_well_formed text.now ≡ true }
    ensures of { P.is_of pads.now pass.new }
    ensures pad { (P.name_of pass.new ≡ P.name_of pass.old) × (P.cell_of pass.new ≡ P.cell_of pass.old) × (P.begun pass.new ≡ P.begun pass.old) }
    ensures asks { AsksOrLacks (IsLegalFrom P.Store.told P.Store.failures (P.begun pass.old)) (P.known pass.old) (entry.Create text.now now) reply.Birth result (P.known pass.new) }
{
    let text = text.copy(pads.alloc())?;
    let reply = pads.ask(rt, pass, PadEntry::Create { text, now });
    let PadReply::Birth(answer) = reply else {
        unreachable!()
    };
    answer
}

/// The server's text is set.
pub fn set_text<R: Wait, P: PadPort>(
    rt: &R,
    pads: &P,
    pass: &mut P::Pass,
    text: &Units,
    now: u64,
) -> Result<Committed, PadBad>
    requires of { P.is_of pads.now pass.old }
    requires text { is_well_formed text.now ≡ true }
    ensures of { P.is_of pads.now pass.new }
    ensures pad { (P.name_of pass.new ≡ P.name_of pass.old) × (P.cell_of pass.new ≡ P.cell_of pass.old) × (P.begun pass.new ≡ P.begun pass.old) }
    ensures asks { AsksOrLacks (IsLegalFrom P.Store.told P.Store.failures (P.begun pass.old)) (P.known pass.old) (entry.SetText text.now now) reply.Committed result (P.known pass.new) }
{
    let text = text.copy(pads.alloc())?;
    let reply = pads.ask(rt, pass, PadEntry::SetText { text, now });
    let PadReply::Committed(answer) = reply else {
        unreachable!()
    };
    answer
}

/// The pad is deleted, and its sessions end.
pub fn delete<R: Wait, P: PadPort>(
    rt: &R,
    pads: &P,
    pass: &mut P::Pass,
    now: u64,
) -> Result<(), PadBad>
    requires of { P.is_of pads.now pass.old }
    ensures of { P.is_of pads.now pass.new }
    ensures pad { (P.name_of pass.new ≡ P.name_of pass.old) × (P.cell_of pass.new ≡ P.cell_of pass.old) × (P.begun pass.new ≡ P.begun pass.old) }
    ensures asks { Asks (IsLegalFrom P.Store.told P.Store.failures (P.begun pass.old)) (P.known pass.old) (entry.Delete now) (reply.Done result) (P.known pass.new) }
{
    let reply = pads.ask(rt, pass, PadEntry::Delete { now });
    let PadReply::Done(answer) = reply else {
        unreachable!()
    };
    answer
}

/// Whether anybody may enter a group's pad.
pub fn set_public<R: Wait, P: PadPort>(
    rt: &R,
    pads: &P,
    pass: &mut P::Pass,
    on: bool,
) -> Result<(), PadBad>
    requires of { P.is_of pads.now pass.old }
    ensures of { P.is_of pads.now pass.new }
    ensures pad { (P.name_of pass.new ≡ P.name_of pass.old) × (P.cell_of pass.new ≡ P.cell_of pass.old) × (P.begun pass.new ≡ P.begun pass.old) }
    ensures asks { Asks (IsLegalFrom P.Store.told P.Store.failures (P.begun pass.old)) (P.known pass.old) (entry.SetPublic on) (reply.Done result) (P.known pass.new) }
{
    let reply = pads.ask(rt, pass, PadEntry::SetPublic { on });
    let PadReply::Done(answer) = reply else {
        unreachable!()
    };
    answer
}

/// The document of a revision, or of the head.
pub fn text<R: Wait, P: PadPort>(
    rt: &R,
    pads: &P,
    pass: &mut P::Pass,
    rev: Option<u64>,
) -> Result<Doc, PadBad>
    requires of { P.is_of pads.now pass.old }
    ensures of { P.is_of pads.now pass.new }
    ensures pad { (P.name_of pass.new ≡ P.name_of pass.old) × (P.cell_of pass.new ≡ P.cell_of pass.old) × (P.begun pass.new ≡ P.begun pass.old) }
    ensures asks { Asks (IsLegalFrom P.Store.told P.Store.failures (P.begun pass.old)) (P.known pass.old) (entry.Text rev) (reply.Text result) (P.known pass.new) }
{
    let reply = pads.ask(rt, pass, PadEntry::Text { rev });
    let PadReply::Text(answer) = reply else {
        unreachable!()
    };
    answer
}

/// The document of a revision, and so many revisions behind it, all where they are fewer.
pub fn history<R: Wait, P: PadPort>(
    rt: &R,
    pads: &P,
    pass: &mut P::Pass,
    session: Session,
    start: u64,
    count: u64,
) -> Result<Piece, PadBad>
    requires of { P.is_of pads.now pass.old }
    requires count { count ≤ 10000 }
    ensures of { P.is_of pads.now pass.new }
    ensures pad { (P.name_of pass.new ≡ P.name_of pass.old) × (P.cell_of pass.new ≡ P.cell_of pass.old) × (P.begun pass.new ≡ P.begun pass.old) }
    ensures asks { Asks (IsLegalFrom P.Store.told P.Store.failures (P.begun pass.old)) (P.known pass.old) (entry.History session start count) (reply.Piece result) (P.known pass.new) }
{
    let reply = pads.ask(
        rt,
        pass,
        PadEntry::History {
            session,
            start,
            count,
        },
    );
    let PadReply::Piece(answer) = reply else {
        unreachable!()
    };
    answer
}

/// The pad as a whole.
pub fn status<R: Wait, P: PadPort>(
    rt: &R,
    pads: &P,
    pass: &mut P::Pass,
) -> Result<PadStatus, PadBad>
    requires of { P.is_of pads.now pass.old }
    ensures of { P.is_of pads.now pass.new }
    ensures pad { (P.name_of pass.new ≡ P.name_of pass.old) × (P.cell_of pass.new ≡ P.cell_of pass.old) × (P.begun pass.new ≡ P.begun pass.old) }
    ensures asks { Asks (IsLegalFrom P.Store.told P.Store.failures (P.begun pass.old)) (P.known pass.old) entry.Status (reply.Status result) (P.known pass.new) }
{
    let reply = pads.ask(rt, pass, PadEntry::Status);
    let PadReply::Status(answer) = reply else {
        unreachable!()
    };
    answer
}

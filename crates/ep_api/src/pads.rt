//! The functions that a pad alone answers.

ghost use Rattle.std.specs.Prelude.{◌≡◌, true, All, map};
ghost use Rattle.ep_units.specs.Text.{is_well_formed};
ghost use Rattle.ep_ask.specs.declared.call.Call.TheVariants as call;
ghost use Rattle.ep_api.specs.Functions.{task_of};
ghost use Rattle.ep_api.specs.Legal.{Stands, Waits};
ghost use Rattle.ep_api.specs.Passes.{AtHall, stay_of};

use crate::visiting::{create, set_public, set_text, status, text};
use ep_ask::{ApiBad, Data, Param};
use ep_pad::PadPort;
use ep_units::{PadId, Units};
use std::alloc::Global;
use std::sync::Wait;

/// Makes a pad.
pub fn create_pad<R: Wait, P: PadPort>(
    rt: &R,
    pads: &P,
    hall: &mut P::Hall,
    taken: &mut Vec<P::Pass>,
    id: &PadId,
    text: &Units,
    now: u64,
) -> Result<Data, ApiBad>
    requires waits { Waits (P.is_hall pads.now) (P.is_register (P.limits_of pads.now)) P.hall_known hall.old }
    requires stand { All (Stands (P.is_of pads.now) (P.limits_of pads.now) P.Store.told P.Store.failures P.begun P.known) taken.old.items }
    requires text { is_well_formed text.now ≡ true }
    ensures waits { Waits (P.is_hall pads.now) (P.is_register (P.limits_of pads.now)) P.hall_known hall.new }
    ensures stand { All (Stands (P.is_of pads.now) (P.limits_of pads.now) P.Store.told P.Store.failures P.begun P.known) taken.new.items }
    ensures does { AtHall (P.hall_known hall.old) (map (stay_of P.known P.name_of P.cell_of) taken.old.items) (task_of now (call.CreatePad id.now text.now)) result (P.hall_known hall.new) (map (stay_of P.known P.name_of P.cell_of) taken.new.items) }
{
    let _birth = create(rt, pads, hall, taken, id, Param::PadId, text, now)?;
    Ok(Data::Nothing)
}

/// The text of a revision, or of the head.
pub fn get_text<R: Wait, P: PadPort>(
    alloc: Global,
    rt: &R,
    pads: &P,
    hall: &mut P::Hall,
    taken: &mut Vec<P::Pass>,
    id: &PadId,
    rev: Option<u64>,
) -> Result<Data, ApiBad>
    requires waits { Waits (P.is_hall pads.now) (P.is_register (P.limits_of pads.now)) P.hall_known hall.old }
    requires stand { All (Stands (P.is_of pads.now) (P.limits_of pads.now) P.Store.told P.Store.failures P.begun P.known) taken.old.items }
    ensures waits { Waits (P.is_hall pads.now) (P.is_register (P.limits_of pads.now)) P.hall_known hall.new }
    ensures stand { All (Stands (P.is_of pads.now) (P.limits_of pads.now) P.Store.told P.Store.failures P.begun P.known) taken.new.items }
    ensures does { AtHall (P.hall_known hall.old) (map (stay_of P.known P.name_of P.cell_of) taken.old.items) (task_of 0 (call.GetText id.now rev)) result (P.hall_known hall.new) (map (stay_of P.known P.name_of P.cell_of) taken.new.items) }
{
    let doc = text(rt, pads, hall, taken, id, rev)?;
    Ok(Data::Text(doc.text(alloc)?))
}

/// Sets the text of a pad.
pub fn set_pad_text<R: Wait, P: PadPort>(
    rt: &R,
    pads: &P,
    hall: &mut P::Hall,
    taken: &mut Vec<P::Pass>,
    id: &PadId,
    text: &Units,
    now: u64,
) -> Result<Data, ApiBad>
    requires waits { Waits (P.is_hall pads.now) (P.is_register (P.limits_of pads.now)) P.hall_known hall.old }
    requires stand { All (Stands (P.is_of pads.now) (P.limits_of pads.now) P.Store.told P.Store.failures P.begun P.known) taken.old.items }
    requires text { is_well_formed text.now ≡ true }
    ensures waits { Waits (P.is_hall pads.now) (P.is_register (P.limits_of pads.now)) P.hall_known hall.new }
    ensures stand { All (Stands (P.is_of pads.now) (P.limits_of pads.now) P.Store.told P.Store.failures P.begun P.known) taken.new.items }
    ensures does { AtHall (P.hall_known hall.old) (map (stay_of P.known P.name_of P.cell_of) taken.old.items) (task_of now (call.SetText id.now text.now)) result (P.hall_known hall.new) (map (stay_of P.known P.name_of P.cell_of) taken.new.items) }
{
    let _committed = set_text(rt, pads, hall, taken, id, text, now)?;
    Ok(Data::Nothing)
}

/// The number of the last revision.
pub fn revisions<R: Wait, P: PadPort>(
    rt: &R,
    pads: &P,
    hall: &mut P::Hall,
    taken: &mut Vec<P::Pass>,
    id: &PadId,
) -> Result<Data, ApiBad>
    requires waits { Waits (P.is_hall pads.now) (P.is_register (P.limits_of pads.now)) P.hall_known hall.old }
    requires stand { All (Stands (P.is_of pads.now) (P.limits_of pads.now) P.Store.told P.Store.failures P.begun P.known) taken.old.items }
    ensures waits { Waits (P.is_hall pads.now) (P.is_register (P.limits_of pads.now)) P.hall_known hall.new }
    ensures stand { All (Stands (P.is_of pads.now) (P.limits_of pads.now) P.Store.told P.Store.failures P.begun P.known) taken.new.items }
    ensures does { AtHall (P.hall_known hall.old) (map (stay_of P.known P.name_of P.cell_of) taken.old.items) (task_of 0 (call.GetRevisionsCount id.now)) result (P.hall_known hall.new) (map (stay_of P.known P.name_of P.cell_of) taken.new.items) }
{
    let status = status(rt, pads, hall, taken, id)?;
    Ok(Data::Revisions(status.head))
}

/// The time of the last revision.
pub fn last_edited<R: Wait, P: PadPort>(
    rt: &R,
    pads: &P,
    hall: &mut P::Hall,
    taken: &mut Vec<P::Pass>,
    id: &PadId,
) -> Result<Data, ApiBad>
    requires waits { Waits (P.is_hall pads.now) (P.is_register (P.limits_of pads.now)) P.hall_known hall.old }
    requires stand { All (Stands (P.is_of pads.now) (P.limits_of pads.now) P.Store.told P.Store.failures P.begun P.known) taken.old.items }
    ensures waits { Waits (P.is_hall pads.now) (P.is_register (P.limits_of pads.now)) P.hall_known hall.new }
    ensures stand { All (Stands (P.is_of pads.now) (P.limits_of pads.now) P.Store.told P.Store.failures P.begun P.known) taken.new.items }
    ensures does { AtHall (P.hall_known hall.old) (map (stay_of P.known P.name_of P.cell_of) taken.old.items) (task_of 0 (call.GetLastEdited id.now)) result (P.hall_known hall.new) (map (stay_of P.known P.name_of P.cell_of) taken.new.items) }
{
    let status = status(rt, pads, hall, taken, id)?;
    Ok(Data::LastEdited(status.edited))
}

/// How many sessions are live.
pub fn users<R: Wait, P: PadPort>(
    rt: &R,
    pads: &P,
    hall: &mut P::Hall,
    taken: &mut Vec<P::Pass>,
    id: &PadId,
) -> Result<Data, ApiBad>
    requires waits { Waits (P.is_hall pads.now) (P.is_register (P.limits_of pads.now)) P.hall_known hall.old }
    requires stand { All (Stands (P.is_of pads.now) (P.limits_of pads.now) P.Store.told P.Store.failures P.begun P.known) taken.old.items }
    ensures waits { Waits (P.is_hall pads.now) (P.is_register (P.limits_of pads.now)) P.hall_known hall.new }
    ensures stand { All (Stands (P.is_of pads.now) (P.limits_of pads.now) P.Store.told P.Store.failures P.begun P.known) taken.new.items }
    ensures does { AtHall (P.hall_known hall.old) (map (stay_of P.known P.name_of P.cell_of) taken.old.items) (task_of 0 (call.PadUsersCount id.now)) result (P.hall_known hall.new) (map (stay_of P.known P.name_of P.cell_of) taken.new.items) }
{
    let status = status(rt, pads, hall, taken, id)?;
    Ok(Data::Users(status.live))
}

/// Says whether anybody may enter a group's pad.
pub fn set_public_status<R: Wait, P: PadPort>(
    rt: &R,
    pads: &P,
    hall: &mut P::Hall,
    taken: &mut Vec<P::Pass>,
    id: &PadId,
    on: bool,
) -> Result<Data, ApiBad>
    requires waits { Waits (P.is_hall pads.now) (P.is_register (P.limits_of pads.now)) P.hall_known hall.old }
    requires stand { All (Stands (P.is_of pads.now) (P.limits_of pads.now) P.Store.told P.Store.failures P.begun P.known) taken.old.items }
    ensures waits { Waits (P.is_hall pads.now) (P.is_register (P.limits_of pads.now)) P.hall_known hall.new }
    ensures stand { All (Stands (P.is_of pads.now) (P.limits_of pads.now) P.Store.told P.Store.failures P.begun P.known) taken.new.items }
    ensures does { AtHall (P.hall_known hall.old) (map (stay_of P.known P.name_of P.cell_of) taken.old.items) (task_of 0 (call.SetPublicStatus id.now on)) result (P.hall_known hall.new) (map (stay_of P.known P.name_of P.cell_of) taken.new.items) }
{
    let () = set_public(rt, pads, hall, taken, id, on)?;
    Ok(Data::Nothing)
}

/// Whether anybody may enter a group's pad.
pub fn public_status<R: Wait, P: PadPort>(
    rt: &R,
    pads: &P,
    hall: &mut P::Hall,
    taken: &mut Vec<P::Pass>,
    id: &PadId,
) -> Result<Data, ApiBad>
    requires waits { Waits (P.is_hall pads.now) (P.is_register (P.limits_of pads.now)) P.hall_known hall.old }
    requires stand { All (Stands (P.is_of pads.now) (P.limits_of pads.now) P.Store.told P.Store.failures P.begun P.known) taken.old.items }
    ensures waits { Waits (P.is_hall pads.now) (P.is_register (P.limits_of pads.now)) P.hall_known hall.new }
    ensures stand { All (Stands (P.is_of pads.now) (P.limits_of pads.now) P.Store.told P.Store.failures P.begun P.known) taken.new.items }
    ensures does { AtHall (P.hall_known hall.old) (map (stay_of P.known P.name_of P.cell_of) taken.old.items) (task_of 0 (call.GetPublicStatus id.now)) result (P.hall_known hall.new) (map (stay_of P.known P.name_of P.cell_of) taken.new.items) }
{
    let status = status(rt, pads, hall, taken, id)?;
    Ok(Data::Public(status.public))
}

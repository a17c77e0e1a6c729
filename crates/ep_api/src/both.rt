//! The functions that the directory and pads answer.

ghost use Rattle.std.specs.Prelude.{◌≡◌, ℕ, List, Option, true, All, map};
ghost use Rattle.ep_units.specs.PadId.{has_group};
ghost use Rattle.ep_units.specs.Text.{is_well_formed};
ghost use Rattle.ep_ask.specs.declared.call.Call.TheVariants as call;
ghost use Rattle.ep_groups.specs.declared.entries.DirEntry.TheVariants as entry;
ghost use Rattle.ep_groups.specs.declared.entries.DirReply.TheVariants as reply;
ghost use Rattle.ep_api.specs.Functions.{delete_all, drop_group, off_list, take_off, task_of};
ghost use Rattle.ep_api.specs.Legal.{Sits, Stands, Waits};
ghost use Rattle.ep_api.specs.Passes.{AtDesk, AtHall, Does, own, seen, stay_of};
ghost use Rattle.ep_api.specs.Tasks.{ask};

use crate::causes::of_dir;
use crate::directory::read_only;
use crate::visiting::{create, delete, delete_if_there, status};
use ep_ask::{ApiBad, Data, Param};
use ep_groups::{DirPort, Listed};
use ep_outside::Draws;
use ep_pad::PadPort;
use ep_units::{PadId, Units};
use std::sync::Wait;

/// The pads that a group lists.
fn pads_of<R: Wait, G: DirPort>(
    rt: &R,
    dir: &G,
    desk: &mut G::Pass,
    group: &Units,
) -> Result<Listed<PadId>, ApiBad>
    requires sits { Sits (G.is_of dir.now) G.Store.always_tells (G.begun dir.now) G.known desk.old }
    ensures sits { Sits (G.is_of dir.now) G.Store.always_tells (G.begun dir.now) G.known desk.new }
    ensures does { (t : Option (List ℕ)) → AtDesk (G.known desk.old) t (ask (entry.GroupPads group.now) reply.Pads) result (G.known desk.new) t }
{
    match dir.group_pads(rt, desk, group) {
        Ok(ids) => Ok(ids),
        Err(why) => Err(of_dir(why)),
    }
}

/// Lists a pad of a group.
fn add_pad<R: Wait, G: DirPort>(
    rt: &R,
    dir: &G,
    desk: &mut G::Pass,
    group: &Units,
    name: &Units,
) -> Result<PadId, ApiBad>
    requires sits { Sits (G.is_of dir.now) G.Store.always_tells (G.begun dir.now) G.known desk.old }
    ensures sits { Sits (G.is_of dir.now) G.Store.always_tells (G.begun dir.now) G.known desk.new }
    ensures does { (t : Option (List ℕ)) → AtDesk (G.known desk.old) t (ask (entry.AddGroupPad group.now name.now) reply.Pad) result (G.known desk.new) t }
{
    match dir.add_group_pad(rt, desk, group, name) {
        Ok(id) => Ok(id),
        Err(why) => Err(of_dir(why)),
    }
}

/// Deletes a group with its list.
fn drop_group<R: Wait, G: DirPort>(
    rt: &R,
    dir: &G,
    desk: &mut G::Pass,
    group: &Units,
) -> Result<Data, ApiBad>
    requires sits { Sits (G.is_of dir.now) G.Store.always_tells (G.begun dir.now) G.known desk.old }
    ensures sits { Sits (G.is_of dir.now) G.Store.always_tells (G.begun dir.now) G.known desk.new }
    ensures does { (t : Option (List ℕ)) → AtDesk (G.known desk.old) t (drop_group group.now) result (G.known desk.new) t }
{
    match dir.delete_group(rt, desk, group) {
        Ok(()) => Ok(Data::Nothing),
        Err(why) => Err(of_dir(why)),
    }
}

fn has_group(id: &PadId) -> bool
    ensures { result ≡ has_group id.now }
{
    id.group().is_some()
}

/// Takes a pad off its group's list.
fn take_off<R: Wait, G: DirPort>(
    rt: &R,
    dir: &G,
    desk: &mut G::Pass,
    id: &PadId,
) -> Result<Data, ApiBad>
    requires sits { Sits (G.is_of dir.now) G.Store.always_tells (G.begun dir.now) G.known desk.old }
    ensures sits { Sits (G.is_of dir.now) G.Store.always_tells (G.begun dir.now) G.known desk.new }
    ensures does { (t : Option (List ℕ)) → AtDesk (G.known desk.old) t (take_off id.now) result (G.known desk.new) t }
{
    match dir.drop_group_pad(rt, desk, id) {
        Ok(()) => Ok(Data::Nothing),
        Err(why) => Err(of_dir(why)),
    }
}

/// Takes a group's pad off its list.
fn off_list<R: Wait, G: DirPort>(
    rt: &R,
    dir: &G,
    desk: &mut G::Pass,
    id: &PadId,
) -> Result<Data, ApiBad>
    requires sits { Sits (G.is_of dir.now) G.Store.always_tells (G.begun dir.now) G.known desk.old }
    ensures sits { Sits (G.is_of dir.now) G.Store.always_tells (G.begun dir.now) G.known desk.new }
    ensures does { (t : Option (List ℕ)) → AtDesk (G.known desk.old) t (off_list id.now) result (G.known desk.new) t }
{
    if has_group(id) {
        take_off(rt, dir, desk, id)
    } else {
        Ok(Data::Nothing)
    }
}

/// Deletes these pads; absent ones are passed over.
fn delete_each<R: Wait, P: PadPort>(
    rt: &R,
    pads: &P,
    hall: &mut P::Hall,
    taken: &mut Vec<P::Pass>,
    ids: &[PadId],
    now: u64,
) -> Result<(), ApiBad>
    requires waits { Waits (P.is_hall pads.now) (P.is_register (P.limits_of pads.now)) P.hall_known hall.old }
    requires stand { All (Stands (P.is_of pads.now) (P.limits_of pads.now) P.Store.told P.Store.failures P.begun P.known) taken.old.items }
    ensures waits { Waits (P.is_hall pads.now) (P.is_register (P.limits_of pads.now)) P.hall_known hall.new }
    ensures stand { All (Stands (P.is_of pads.now) (P.limits_of pads.now) P.Store.told P.Store.failures P.begun P.known) taken.new.items }
    ensures visits { AtHall (P.hall_known hall.old) (map (stay_of P.known P.name_of P.cell_of) taken.old.items) (delete_all now ids.now) result (P.hall_known hall.new) (map (stay_of P.known P.name_of P.cell_of) taken.new.items) }
{
    for id in ids {
        delete_if_there(rt, pads, hall, taken, id, now)?;
    }
    Ok(())
}

/// Deletes the pads that a group lists, and then the group.
pub fn delete_group<R: Wait, P: PadPort, G: DirPort>(
    rt: &R,
    pads: &P,
    dir: &G,
    hall: &mut P::Hall,
    desk: &mut G::Pass,
    taken: &mut Vec<P::Pass>,
    group: &Units,
    now: u64,
) -> Result<Data, ApiBad>
    requires waits { Waits (P.is_hall pads.now) (P.is_register (P.limits_of pads.now)) P.hall_known hall.old }
    requires stand { All (Stands (P.is_of pads.now) (P.limits_of pads.now) P.Store.told P.Store.failures P.begun P.known) taken.old.items }
    requires sits { Sits (G.is_of dir.now) G.Store.always_tells (G.begun dir.now) G.known desk.old }
    ensures waits { Waits (P.is_hall pads.now) (P.is_register (P.limits_of pads.now)) P.hall_known hall.new }
    ensures stand { All (Stands (P.is_of pads.now) (P.limits_of pads.now) P.Store.told P.Store.failures P.begun P.known) taken.new.items }
    ensures sits { Sits (G.is_of dir.now) G.Store.always_tells (G.begun dir.now) G.known desk.new }
    ensures does { (t : Option (List ℕ)) → Does (seen (own (G.known desk.old)) (own (P.hall_known hall.old)) (map (stay_of P.known P.name_of P.cell_of) taken.old.items) t) (task_of now (call.DeleteGroup group.now)) result (seen (own (G.known desk.new)) (own (P.hall_known hall.new)) (map (stay_of P.known P.name_of P.cell_of) taken.new.items) t) }
{
    let ids = pads_of(rt, dir, desk, group)?;
    delete_each(rt, pads, hall, taken, ids.as_slice(), now)?;
    drop_group(rt, dir, desk, group)
}

/// Lists a pad of a group, and then makes it. Where it isn't made, it stays listed.
pub fn create_group_pad<R: Wait, P: PadPort, G: DirPort>(
    rt: &R,
    pads: &P,
    dir: &G,
    hall: &mut P::Hall,
    desk: &mut G::Pass,
    taken: &mut Vec<P::Pass>,
    group: &Units,
    name: &Units,
    text: &Units,
    now: u64,
) -> Result<Data, ApiBad>
    requires waits { Waits (P.is_hall pads.now) (P.is_register (P.limits_of pads.now)) P.hall_known hall.old }
    requires stand { All (Stands (P.is_of pads.now) (P.limits_of pads.now) P.Store.told P.Store.failures P.begun P.known) taken.old.items }
    requires sits { Sits (G.is_of dir.now) G.Store.always_tells (G.begun dir.now) G.known desk.old }
    requires text { is_well_formed text.now ≡ true }
    ensures waits { Waits (P.is_hall pads.now) (P.is_register (P.limits_of pads.now)) P.hall_known hall.new }
    ensures stand { All (Stands (P.is_of pads.now) (P.limits_of pads.now) P.Store.told P.Store.failures P.begun P.known) taken.new.items }
    ensures sits { Sits (G.is_of dir.now) G.Store.always_tells (G.begun dir.now) G.known desk.new }
    ensures does { (t : Option (List ℕ)) → Does (seen (own (G.known desk.old)) (own (P.hall_known hall.old)) (map (stay_of P.known P.name_of P.cell_of) taken.old.items) t) (task_of now (call.CreateGroupPad group.now name.now text.now)) result (seen (own (G.known desk.new)) (own (P.hall_known hall.new)) (map (stay_of P.known P.name_of P.cell_of) taken.new.items) t) }
{
    let id = add_pad(rt, dir, desk, group, name)?;
    let _birth = create(rt, pads, hall, taken, &id, Param::PadName, text, now)?;
    Ok(Data::Pad(id))
}

/// Deletes a pad, and then takes a group's off its list.
pub fn delete_pad<R: Wait, P: PadPort, G: DirPort>(
    rt: &R,
    pads: &P,
    dir: &G,
    hall: &mut P::Hall,
    desk: &mut G::Pass,
    taken: &mut Vec<P::Pass>,
    id: &PadId,
    now: u64,
) -> Result<Data, ApiBad>
    requires waits { Waits (P.is_hall pads.now) (P.is_register (P.limits_of pads.now)) P.hall_known hall.old }
    requires stand { All (Stands (P.is_of pads.now) (P.limits_of pads.now) P.Store.told P.Store.failures P.begun P.known) taken.old.items }
    requires sits { Sits (G.is_of dir.now) G.Store.always_tells (G.begun dir.now) G.known desk.old }
    ensures waits { Waits (P.is_hall pads.now) (P.is_register (P.limits_of pads.now)) P.hall_known hall.new }
    ensures stand { All (Stands (P.is_of pads.now) (P.limits_of pads.now) P.Store.told P.Store.failures P.begun P.known) taken.new.items }
    ensures sits { Sits (G.is_of dir.now) G.Store.always_tells (G.begun dir.now) G.known desk.new }
    ensures does { (t : Option (List ℕ)) → Does (seen (own (G.known desk.old)) (own (P.hall_known hall.old)) (map (stay_of P.known P.name_of P.cell_of) taken.old.items) t) (task_of now (call.DeletePad id.now)) result (seen (own (G.known desk.new)) (own (P.hall_known hall.new)) (map (stay_of P.known P.name_of P.cell_of) taken.new.items) t) }
{
    delete(rt, pads, hall, taken, id, now)?;
    off_list(rt, dir, desk, id)
}

/// The read-only id of a pad that is there.
pub fn read_only_id<R: Wait, P: PadPort, G: DirPort, D: Draws>(
    rt: &R,
    pads: &P,
    dir: &G,
    hall: &mut P::Hall,
    desk: &mut G::Pass,
    taken: &mut Vec<P::Pass>,
    id: &PadId,
    draws: &mut D,
) -> Result<Data, ApiBad>
    requires waits { Waits (P.is_hall pads.now) (P.is_register (P.limits_of pads.now)) P.hall_known hall.old }
    requires stand { All (Stands (P.is_of pads.now) (P.limits_of pads.now) P.Store.told P.Store.failures P.begun P.known) taken.old.items }
    requires sits { Sits (G.is_of dir.now) G.Store.always_tells (G.begun dir.now) G.known desk.old }
    ensures waits { Waits (P.is_hall pads.now) (P.is_register (P.limits_of pads.now)) P.hall_known hall.new }
    ensures stand { All (Stands (P.is_of pads.now) (P.limits_of pads.now) P.Store.told P.Store.failures P.begun P.known) taken.new.items }
    ensures sits { Sits (G.is_of dir.now) G.Store.always_tells (G.begun dir.now) G.known desk.new }
    ensures does { Does (seen (own (G.known desk.old)) (own (P.hall_known hall.old)) (map (stay_of P.known P.name_of P.cell_of) taken.old.items) (D.to_come draws.old)) (task_of 0 (call.GetReadOnlyId id.now)) result (seen (own (G.known desk.new)) (own (P.hall_known hall.new)) (map (stay_of P.known P.name_of P.cell_of) taken.new.items) (D.to_come draws.new)) }
{
    let _status = status(rt, pads, hall, taken, id)?;
    read_only(rt, dir, desk, id, draws)
}

//! Visits of pads: a pass is taken, and makes one call.

ghost use Rattle.std.specs.Prelude.{◌≡◌, ◌<◌, true, All, IfOk, IfErr, OnOk, map, vec_len, vec_capacity};
ghost use Rattle.ep_units.specs.Text.{is_well_formed};
ghost use Rattle.ep_pad.specs.Halls.{want};
ghost use Rattle.ep_api.specs.Functions.{create, delete, delete_if_there, or_absent, set_public, set_text, status, text};
ghost use Rattle.ep_api.specs.Legal.{Stands, Waits};
ghost use Rattle.ep_api.specs.Passes.{AtHall, Enters, IsToldAway, IsTurnedAway, stay_of};
ghost use Rattle.ep_api.specs.Tasks.{turned};

use crate::causes::{answered, of_pad, of_pass};
use ep_apply::Doc;
use ep_ask::{ApiBad, Param};
use ep_pad::{Committed, PadBad, PadPort, PadStatus, PassBad};
use ep_units::{PadId, Units};
use std::sync::Wait;

/// A pass of a pad, and room to keep it. An absent pad is opened only for who makes it.
fn enter<R: Wait, P: PadPort>(
    rt: &R,
    pads: &P,
    hall: &mut P::Hall,
    taken: &mut Vec<P::Pass>,
    id: &PadId,
    makes: bool,
) -> Result<P::Pass, PassBad>
    requires waits { Waits (P.is_hall pads.now) (P.is_register (P.limits_of pads.now)) P.hall_known hall.old }
    ensures waits { Waits (P.is_hall pads.now) (P.is_register (P.limits_of pads.now)) P.hall_known hall.new }
    ensures stands { IfOk result (Stands (P.is_of pads.now) (P.limits_of pads.now) P.Store.told P.Store.failures P.begun P.known) }
    ensures enters { IfOk result (λ pass. Enters (P.hall_known hall.old) (want id.now makes) (stay_of P.known P.name_of P.cell_of pass) (P.hall_known hall.new)) }
    ensures none { IfErr result (λ why. IsTurnedAway (P.hall_known hall.old) (want id.now makes) why (P.hall_known hall.new)) }
    ensures room { OnOk result (vec_len taken.new < vec_capacity taken.new) }
    ensures same { taken.new.items ≡ taken.old.items }
{
    if taken.reserve(1).is_err() {
        return Err(PassBad::NoMemory);
    }
    match pads.pass(rt, hall, id, makes) {
        Ok(pass) => Ok(pass),
        Err(why) => Err(why),
    }
}

/// A pass of a pad for a call that is refused where it is not given.
fn pass_of<R: Wait, P: PadPort>(
    rt: &R,
    pads: &P,
    hall: &mut P::Hall,
    taken: &mut Vec<P::Pass>,
    id: &PadId,
    makes: bool,
) -> Result<P::Pass, ApiBad>
    requires waits { Waits (P.is_hall pads.now) (P.is_register (P.limits_of pads.now)) P.hall_known hall.old }
    ensures waits { Waits (P.is_hall pads.now) (P.is_register (P.limits_of pads.now)) P.hall_known hall.new }
    ensures stands { IfOk result (Stands (P.is_of pads.now) (P.limits_of pads.now) P.Store.told P.Store.failures P.begun P.known) }
    ensures enters { IfOk result (λ pass. Enters (P.hall_known hall.old) (want id.now makes) (stay_of P.known P.name_of P.cell_of pass) (P.hall_known hall.new)) }
    ensures none { IfErr result (λ told. IsToldAway (P.hall_known hall.old) (want id.now makes) told (P.hall_known hall.new)) }
    ensures room { OnOk result (vec_len taken.new < vec_capacity taken.new) }
    ensures same { taken.new.items ≡ taken.old.items }
{
    match enter(rt, pads, hall, taken, id, makes) {
        Ok(pass) => Ok(pass),
        Err(why) => Err(of_pass(why)),
    }
}

/// Makes a pad. One that exists already is told by the parameter that names it.
pub fn create<R: Wait, P: PadPort>(
    rt: &R,
    pads: &P,
    hall: &mut P::Hall,
    taken: &mut Vec<P::Pass>,
    id: &PadId,
    name: Param,
    text: &Units,
    now: u64,
) -> Result<u64, ApiBad>
    requires waits { Waits (P.is_hall pads.now) (P.is_register (P.limits_of pads.now)) P.hall_known hall.old }
    requires stand { All (Stands (P.is_of pads.now) (P.limits_of pads.now) P.Store.told P.Store.failures P.begun P.known) taken.old.items }
    requires text { is_well_formed text.now ≡ true }
    ensures waits { Waits (P.is_hall pads.now) (P.is_register (P.limits_of pads.now)) P.hall_known hall.new }
    ensures stand { All (Stands (P.is_of pads.now) (P.limits_of pads.now) P.Store.told P.Store.failures P.begun P.known) taken.new.items }
    ensures visits { AtHall (P.hall_known hall.old) (map (stay_of P.known P.name_of P.cell_of) taken.old.items) (create name id.now text.now now) result (P.hall_known hall.new) (map (stay_of P.known P.name_of P.cell_of) taken.new.items) }
{
    let mut pass = pass_of(rt, pads, hall, taken, id, true)?;
    let told = ep_pad_calls::create(rt, pads, &mut pass, text, now);
    taken.push_reserved(pass);
    answered(name, told)
}

/// Deletes a pad.
pub fn delete<R: Wait, P: PadPort>(
    rt: &R,
    pads: &P,
    hall: &mut P::Hall,
    taken: &mut Vec<P::Pass>,
    id: &PadId,
    now: u64,
) -> Result<(), ApiBad>
    requires waits { Waits (P.is_hall pads.now) (P.is_register (P.limits_of pads.now)) P.hall_known hall.old }
    requires stand { All (Stands (P.is_of pads.now) (P.limits_of pads.now) P.Store.told P.Store.failures P.begun P.known) taken.old.items }
    ensures waits { Waits (P.is_hall pads.now) (P.is_register (P.limits_of pads.now)) P.hall_known hall.new }
    ensures stand { All (Stands (P.is_of pads.now) (P.limits_of pads.now) P.Store.told P.Store.failures P.begun P.known) taken.new.items }
    ensures visits { AtHall (P.hall_known hall.old) (map (stay_of P.known P.name_of P.cell_of) taken.old.items) (delete id.now now) result (P.hall_known hall.new) (map (stay_of P.known P.name_of P.cell_of) taken.new.items) }
{
    let mut pass = pass_of(rt, pads, hall, taken, id, false)?;
    let told = ep_pad_calls::delete(rt, pads, &mut pass, now);
    taken.push_reserved(pass);
    answered(Param::PadId, told)
}

/// An absent pad is passed over.
fn or_absent(answer: Result<(), PadBad>) -> Result<(), ApiBad>
    ensures { result ≡ or_absent answer }
{
    match answer {
        Ok(()) | Err(PadBad::Gone) => Ok(()),
        Err(why) => Err(of_pad(Param::PadId, why)),
    }
}

/// A pass that is not given, where an absent pad is passed over.
fn unless_absent(why: PassBad) -> Result<(), ApiBad>
    ensures { result ≡ turned or_absent why }
{
    match why {
        PassBad::Absent => Ok(()),
        why => Err(of_pass(why)),
    }
}

/// Deletes a pad; an absent one is passed over.
pub fn delete_if_there<R: Wait, P: PadPort>(
    rt: &R,
    pads: &P,
    hall: &mut P::Hall,
    taken: &mut Vec<P::Pass>,
    id: &PadId,
    now: u64,
) -> Result<(), ApiBad>
    requires waits { Waits (P.is_hall pads.now) (P.is_register (P.limits_of pads.now)) P.hall_known hall.old }
    requires stand { All (Stands (P.is_of pads.now) (P.limits_of pads.now) P.Store.told P.Store.failures P.begun P.known) taken.old.items }
    ensures waits { Waits (P.is_hall pads.now) (P.is_register (P.limits_of pads.now)) P.hall_known hall.new }
    ensures stand { All (Stands (P.is_of pads.now) (P.limits_of pads.now) P.Store.told P.Store.failures P.begun P.known) taken.new.items }
    ensures visits { AtHall (P.hall_known hall.old) (map (stay_of P.known P.name_of P.cell_of) taken.old.items) (delete_if_there id.now now) result (P.hall_known hall.new) (map (stay_of P.known P.name_of P.cell_of) taken.new.items) }
{
    let mut pass = match enter(rt, pads, hall, taken, id, false) {
        Ok(pass) => pass,
        Err(why) => return unless_absent(why),
    };
    let told = ep_pad_calls::delete(rt, pads, &mut pass, now);
    taken.push_reserved(pass);
    or_absent(told)
}

/// Says whether anybody may enter a group's pad.
pub fn set_public<R: Wait, P: PadPort>(
    rt: &R,
    pads: &P,
    hall: &mut P::Hall,
    taken: &mut Vec<P::Pass>,
    id: &PadId,
    on: bool,
) -> Result<(), ApiBad>
    requires waits { Waits (P.is_hall pads.now) (P.is_register (P.limits_of pads.now)) P.hall_known hall.old }
    requires stand { All (Stands (P.is_of pads.now) (P.limits_of pads.now) P.Store.told P.Store.failures P.begun P.known) taken.old.items }
    ensures waits { Waits (P.is_hall pads.now) (P.is_register (P.limits_of pads.now)) P.hall_known hall.new }
    ensures stand { All (Stands (P.is_of pads.now) (P.limits_of pads.now) P.Store.told P.Store.failures P.begun P.known) taken.new.items }
    ensures visits { AtHall (P.hall_known hall.old) (map (stay_of P.known P.name_of P.cell_of) taken.old.items) (set_public id.now on) result (P.hall_known hall.new) (map (stay_of P.known P.name_of P.cell_of) taken.new.items) }
{
    let mut pass = pass_of(rt, pads, hall, taken, id, false)?;
    let told = ep_pad_calls::set_public(rt, pads, &mut pass, on);
    taken.push_reserved(pass);
    answered(Param::PadId, told)
}

/// The document of a revision, or of the head.
pub fn text<R: Wait, P: PadPort>(
    rt: &R,
    pads: &P,
    hall: &mut P::Hall,
    taken: &mut Vec<P::Pass>,
    id: &PadId,
    rev: Option<u64>,
) -> Result<Doc, ApiBad>
    requires waits { Waits (P.is_hall pads.now) (P.is_register (P.limits_of pads.now)) P.hall_known hall.old }
    requires stand { All (Stands (P.is_of pads.now) (P.limits_of pads.now) P.Store.told P.Store.failures P.begun P.known) taken.old.items }
    ensures waits { Waits (P.is_hall pads.now) (P.is_register (P.limits_of pads.now)) P.hall_known hall.new }
    ensures stand { All (Stands (P.is_of pads.now) (P.limits_of pads.now) P.Store.told P.Store.failures P.begun P.known) taken.new.items }
    ensures visits { AtHall (P.hall_known hall.old) (map (stay_of P.known P.name_of P.cell_of) taken.old.items) (text id.now rev) result (P.hall_known hall.new) (map (stay_of P.known P.name_of P.cell_of) taken.new.items) }
{
    let mut pass = pass_of(rt, pads, hall, taken, id, false)?;
    let told = ep_pad_calls::text(rt, pads, &mut pass, rev);
    taken.push_reserved(pass);
    answered(Param::PadId, told)
}

/// Sets the text of a pad.
pub fn set_text<R: Wait, P: PadPort>(
    rt: &R,
    pads: &P,
    hall: &mut P::Hall,
    taken: &mut Vec<P::Pass>,
    id: &PadId,
    text: &Units,
    now: u64,
) -> Result<Committed, ApiBad>
    requires waits { Waits (P.is_hall pads.now) (P.is_register (P.limits_of pads.now)) P.hall_known hall.old }
    requires stand { All (Stands (P.is_of pads.now) (P.limits_of pads.now) P.Store.told P.Store.failures P.begun P.known) taken.old.items }
    requires text { is_well_formed text.now ≡ true }
    ensures waits { Waits (P.is_hall pads.now) (P.is_register (P.limits_of pads.now)) P.hall_known hall.new }
    ensures stand { All (Stands (P.is_of pads.now) (P.limits_of pads.now) P.Store.told P.Store.failures P.begun P.known) taken.new.items }
    ensures visits { AtHall (P.hall_known hall.old) (map (stay_of P.known P.name_of P.cell_of) taken.old.items) (set_text id.now text.now now) result (P.hall_known hall.new) (map (stay_of P.known P.name_of P.cell_of) taken.new.items) }
{
    let mut pass = pass_of(rt, pads, hall, taken, id, false)?;
    let told = ep_pad_calls::set_text(rt, pads, &mut pass, text, now);
    taken.push_reserved(pass);
    answered(Param::PadId, told)
}

/// The pad as a whole.
pub fn status<R: Wait, P: PadPort>(
    rt: &R,
    pads: &P,
    hall: &mut P::Hall,
    taken: &mut Vec<P::Pass>,
    id: &PadId,
) -> Result<PadStatus, ApiBad>
    requires waits { Waits (P.is_hall pads.now) (P.is_register (P.limits_of pads.now)) P.hall_known hall.old }
    requires stand { All (Stands (P.is_of pads.now) (P.limits_of pads.now) P.Store.told P.Store.failures P.begun P.known) taken.old.items }
    ensures waits { Waits (P.is_hall pads.now) (P.is_register (P.limits_of pads.now)) P.hall_known hall.new }
    ensures stand { All (Stands (P.is_of pads.now) (P.limits_of pads.now) P.Store.told P.Store.failures P.begun P.known) taken.new.items }
    ensures visits { AtHall (P.hall_known hall.old) (map (stay_of P.known P.name_of P.cell_of) taken.old.items) (status id.now) result (P.hall_known hall.new) (map (stay_of P.known P.name_of P.cell_of) taken.new.items) }
{
    let mut pass = pass_of(rt, pads, hall, taken, id, false)?;
    let told = ep_pad_calls::status(rt, pads, &mut pass);
    taken.push_reserved(pass);
    answered(Param::PadId, told)
}

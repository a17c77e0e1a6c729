//! The calls of others on a pad.

ghost use Rattle.std.specs.Prelude.{◌≡◌};

use crate::asked::{change, flag, session, text, units, whole};
use crate::stop::Stop;
use ep_pad::PadPort;
use ep_units::{Grant, PadId};
use serde_json::Value;
use std::alloc::Global;
use std::sync::Wait;

/// Somebody logs in with a grant.
pub fn log_in<R: Wait, P: PadPort>(rt: &R, pads: &P, grant: &Grant, now: u64) {
    let mut hall = pads.hall(rt);
    if let Ok(mut pass) = pads.pass(rt, &mut hall, &grant.pad, true) {
        drop(ep_pad_calls::login(rt, pads, &mut pass, grant, now));
    }
}

fn create<R: Wait, P: PadPort>(
    rt: &R,
    alloc: Global,
    pads: &P,
    pass: &mut P::Pass,
    call: &Value,
) -> Result<(), Stop>
    requires { P.is_of pads.now pass.old }
{
    let now = whole(call, "now")?;
    let text = units(alloc, call, "text")?;
    drop(ep_pad_calls::create(rt, pads, pass, &text, now));
    Ok(())
}

fn set_text<R: Wait, P: PadPort>(
    rt: &R,
    alloc: Global,
    pads: &P,
    pass: &mut P::Pass,
    call: &Value,
) -> Result<(), Stop>
    requires { P.is_of pads.now pass.old }
{
    let now = whole(call, "now")?;
    let text = units(alloc, call, "text")?;
    drop(ep_pad_calls::set_text(rt, pads, pass, &text, now));
    Ok(())
}

fn accept<R: Wait, P: PadPort>(
    rt: &R,
    alloc: Global,
    pads: &P,
    pass: &mut P::Pass,
    call: &Value,
) -> Result<(), Stop>
    requires { P.is_of pads.now pass.old }
{
    let by = session(call)?;
    let base = whole(call, "base")?;
    let now = whole(call, "now")?;
    let change = change(alloc, call)?;
    drop(ep_pad_calls::accept(rt, pads, pass, by, base, change, now));
    Ok(())
}

fn make_call<R: Wait, P: PadPort>(
    rt: &R,
    alloc: Global,
    pads: &P,
    pass: &mut P::Pass,
    call: &Value,
) -> Result<(), Stop>
    requires { P.is_of pads.now pass.old }
{
    match text(call, "call")? {
        "create" => create(rt, alloc, pads, pass, call)?,
        "set_text" => set_text(rt, alloc, pads, pass, call)?,
        "accept" => accept(rt, alloc, pads, pass, call)?,
        "delete" => drop(ep_pad_calls::delete(rt, pads, pass, whole(call, "now")?)),
        "set_public" => drop(ep_pad_calls::set_public(rt, pads, pass, flag(call, "on")?)),
        "leave" => drop(ep_pad_calls::leave(rt, pads, pass, session(call)?)),
        _ => return Err(Stop::Wrong),
    }
    Ok(())
}

/// A call of a pad that isn't a login. It isn't made where no pass is given.
pub fn call_pad<R: Wait, P: PadPort>(
    rt: &R,
    alloc: Global,
    pads: &P,
    pad: &PadId,
    call: &Value,
) -> Result<(), Stop> {
    let mut hall = pads.hall(rt);
    match pads.pass(rt, &mut hall, pad, true) {
        Ok(mut pass) => make_call(rt, alloc, pads, &mut pass, call),
        Err(_) => Ok(()),
    }
}

//! How a pad stands, as another caller reads it.

use crate::stop::Stop;
use ep_pad::{PadPort, PadStatus};
use ep_units::PadId;
use serde_json::{Map, Value, put};
use std::alloc::Global;
use std::sync::Wait;

fn status<R: Wait, P: PadPort>(rt: &R, pads: &P, pad: &PadId) -> Option<PadStatus> {
    let mut hall = pads.hall(rt);
    match pads.pass(rt, &mut hall, pad, false) {
        Ok(mut pass) => ep_pad_calls::status(rt, pads, &mut pass).ok(),
        Err(_) => None,
    }
}

/// Puts a pad's head, and how many of its sessions are live, where it is there.
pub fn put_standing<R: Wait, P: PadPort>(
    rt: &R,
    alloc: Global,
    pads: &P,
    pad: &PadId,
    members: &mut Map<String, Value>,
) -> Result<(), Stop> {
    let Some(status) = status(rt, pads, pad) else {
        return Ok(());
    };
    put(members, alloc, "head", Value::from(status.head))?;
    put(members, alloc, "live", Value::from(status.live))?;
    Ok(())
}

//! One sequence.

use crate::asked::{list_of, moment_of, numbers_of, pairs_of, text_of};
use crate::desk::granted;
use crate::given::house;
use anyhow::Result;
use ep_api::answer;
use ep_disk_mem::MemDraws;
use ep_groups::DirPort;
use ep_outside::{Keeper, Shelf};
use ep_pad::PadPort;
use ep_pad_port::{HouseOf, PadCalls};
use ep_units::Grant;
use serde_json::{Value, json};
use std::alloc::Global;
use std::sync::Wait;

/// The reply to a request.
fn replied<R: Wait, P: PadPort, G: DirPort>(
    rt: &R,
    alloc: Global,
    pads: &P,
    dir: &G,
    draws: &mut MemDraws<'_>,
    key: &str,
    step: &Value,
) -> Result<Value> {
    let pairs = pairs_of(alloc, step.get("pairs"))?;
    let path = text_of(step.get("path"))?;
    let now = moment_of(step)?;
    let answered = answer(alloc, rt, pads, dir, draws, path, &pairs.items, key, now)?;
    let body = answered.reply.body.clone()?;
    let status = answered.reply.status;
    Ok(json!(in alloc; {"body": body, "status": status})?)
}

/// The session that a login gets, or none where it is refused.
fn entered<R: Wait, P: PadPort>(
    rt: &R,
    alloc: Global,
    pads: &P,
    grant: &Grant,
    now: u64,
) -> Result<Value> {
    let mut hall = pads.hall(rt);
    let Ok(mut pass) = pads.pass(rt, &mut hall, &grant.pad, true) else {
        return Ok(Value::Null);
    };
    match ep_pad_calls::login(rt, pads, &mut pass, grant, now) {
        Ok(welcome) => {
            let epoch = welcome.session.epoch;
            let count = welcome.session.count;
            Ok(json!(in alloc; {"session": [epoch, count]})?)
        }
        Err(_) => Ok(Value::Null),
    }
}

/// What a step is answered by a house. That it is both ports is proved of any, and not again of one in memory.
fn stepped<R: Wait, H: Shelf + Drop, P: PadCalls<H::D>, K: Keeper + Drop>(
    rt: &R,
    alloc: Global,
    house: &HouseOf<H, P, K>,
    draws: &mut MemDraws<'_>,
    key: &str,
    step: &Value,
) -> Result<Value> {
    if step.get("path").is_some() {
        return replied(rt, alloc, house, house, draws, key, step);
    }
    match granted(rt, alloc, house, step)? {
        Some(grant) => entered(rt, alloc, house, &grant, moment_of(step)?),
        None => Ok(Value::Null),
    }
}

/// What the steps of a sequence are answered.
pub fn played<R: Wait>(rt: &R, alloc: Global, sequence: &Value) -> Result<Value> {
    let house = house(alloc, sequence)?;
    let numbers = numbers_of(alloc, sequence.get("draws"))?;
    let mut draws = MemDraws::new(&numbers);
    let key = text_of(sequence.get("key"))?;
    let mut replies = Vec::new(alloc);
    for step in list_of(sequence.get("steps")) {
        replies.push(stepped(rt, alloc, &house, &mut draws, key, step)?)?;
    }
    Ok(Value::Array(replies))
}

//! The reply to a line.

use crate::asked::{array, numbers, pad, text, whole};
use crate::called::Ports;
use crate::given::{listed, ports};
use crate::played::Played;
use crate::standing::put_standing;
use crate::stop::Stop;
use crate::told::told;
use ep_disk_mem::{MemClock, MemDraws};
use ep_groups::DirPort;
use ep_link::{Coming, MemLink};
use ep_outside::{Keeper, Shelf, Text};
use ep_pad::PadPort;
use ep_pad_port::{HouseOf, PadCalls};
use ep_session::serve_session;
use ep_units::PadId;
use serde_json::error::Category;
use serde_json::{Map, Value};
use std::alloc::{AllocError, Global};
use std::collections::VecDeque;
use std::sync::Wait;

fn coming(alloc: Global, step: &Value) -> Result<Coming, Stop> {
    if step.get("message").is_some() {
        let text = Text::from_str(alloc, text(step, "message")?)?;
        Ok(Coming::Message(text))
    } else if step.get("binary").is_some() {
        Ok(Coming::Binary)
    } else if step.get("nothing").is_some() {
        Ok(Coming::Nothing)
    } else if step.get("closed").is_some() {
        Ok(Coming::Closed)
    } else {
        Err(Stop::Wrong)
    }
}

/// The receives among what is to come.
fn receives(alloc: Global, steps: &[Value]) -> Result<VecDeque<Coming>, Stop> {
    let mut all = VecDeque::new(alloc);
    for step in steps {
        if step.get("call").is_none() {
            all.push_back(coming(alloc, step)?)?;
        }
    }
    Ok(all)
}

/// What a session on these ports comes to.
fn served<R: Wait, P: PadPort, G: DirPort>(
    rt: &R,
    alloc: Global,
    pads: &P,
    dir: &G,
    link: &mut Played<'_>,
    request: &Value,
) -> Result<Map<String, Value>, Stop> {
    let now = whole(request, "now")?;
    let drawn = numbers(alloc, array(request, "draws")?)?;
    let clock = MemClock::new(vec![in alloc; now]?);
    let mut draws = MemDraws::new(&drawn);
    let report = serve_session(rt, alloc, pads, dir, link, &clock, &mut draws);
    told(alloc, &report, link.link.passed())
}

// The same of a house: that it is both ports is proved of any.
fn served_at<R: Wait, H: Shelf + Drop, P: PadCalls<H::D>, K: Keeper + Drop>(
    rt: &R,
    alloc: Global,
    house: &HouseOf<H, P, K>,
    link: &mut Played<'_>,
    request: &Value,
) -> Result<Map<String, Value>, Stop> {
    served(rt, alloc, house, house, link, request)
}

// What is told of a pad of a house.
fn put_standing_at<R: Wait, H: Shelf + Drop, P: PadCalls<H::D>, K: Keeper + Drop>(
    rt: &R,
    alloc: Global,
    house: &HouseOf<H, P, K>,
    asked: &PadId,
    members: &mut Map<String, Value>,
) -> Result<(), Stop> {
    put_standing(rt, alloc, house, asked, members)
}

fn play<R: Wait>(rt: &R, ports: &Ports, request: &Value) -> Result<Map<String, Value>, Stop> {
    let steps = array(request, "link")?;
    let fails = listed(ports.alloc, request, "fails")?;
    let receives = receives(ports.alloc, steps)?;
    let mut link = Played {
        link: MemLink::new(ports.alloc, receives, fails),
        ports,
        steps,
    };
    let Ports { alloc, house } = ports;
    served_at(rt, *alloc, house, &mut link, request)
}

/// What is told of the pad that is asked about behind the session.
fn put_asked<R: Wait>(
    rt: &R,
    ports: &Ports,
    request: &Value,
    members: &mut Map<String, Value>,
) -> Result<(), Stop> {
    if request.get("asks").is_none() {
        return Ok(());
    }
    let asked = pad(ports.alloc, text(request, "asks")?)?;
    put_standing_at(rt, ports.alloc, &ports.house, &asked, members)
}

fn make_calls<R: Wait>(rt: &R, ports: &Ports, calls: &[Value]) -> Result<(), Stop> {
    for call in calls {
        ports.call(rt, call)?;
    }
    Ok(())
}

fn reply<R: Wait>(rt: &R, alloc: Global, request: &Value) -> Result<Value, Stop> {
    let before = array(request, "before")?;
    let ports = ports(alloc, request)?;
    make_calls(rt, &ports, before)?;
    let mut members = play(rt, &ports, request)?;
    put_asked(rt, &ports, request, &mut members)?;
    Ok(Value::Object(members))
}

fn request(alloc: Global, line: &str) -> Result<Value, Stop> {
    match Value::from_str(alloc, line) {
        Ok(request) => Ok(request),
        Err(error) if error.classify() == Category::Memory => Err(Stop::NoMemory),
        Err(_) => Err(Stop::Wrong),
    }
}

fn answered<R: Wait>(rt: &R, alloc: Global, line: &str) -> Result<String, Stop> {
    let request = request(alloc, line)?;
    let reply = reply(rt, alloc, &request)?;
    Ok(reply.to_string(alloc)?)
}

/// The reply to a line. A line that is no request is told as wrong.
pub fn answer<R: Wait>(rt: &R, alloc: Global, line: &str) -> Result<String, AllocError> {
    match answered(rt, alloc, line) {
        Ok(reply) => Ok(reply),
        Err(Stop::Wrong) => String::from_str(alloc, "{\"wrong\":\"request\"}"),
        Err(Stop::NoMemory) => Err(AllocError),
    }
}

//! The calls of others on the directory.

use crate::asked::{all_units, drawn, pad, text, units, whole};
use crate::stop::Stop;
use ep_groups::DirPort;
use ep_units::Grant;
use serde_json::Value;
use std::alloc::Global;
use std::sync::Wait;

/// What a login asks the directory for.
pub fn grant<R: Wait, G: DirPort>(
    rt: &R,
    alloc: Global,
    dir: &G,
    call: &Value,
) -> Result<Option<Grant>, Stop> {
    let seconds = whole(call, "now")? / 1000;
    let drawn = drawn(call)?;
    let asked = units(alloc, call, "pad")?;
    let token = units(alloc, call, "token")?;
    let sessions = all_units(alloc, call, "sessions")?;
    let mut desk = dir.pass(rt);
    let grant = dir.grant(rt, &mut desk, &asked, &sessions, &token, seconds, drawn);
    Ok(grant.ok())
}

fn create_group<R: Wait, G: DirPort>(
    rt: &R,
    dir: &G,
    desk: &mut G::Pass,
    call: &Value,
) -> Result<(), Stop>
    requires { G.is_of dir.now desk.old }
{
    drop(dir.create_group(rt, desk, drawn(call)?));
    Ok(())
}

fn create_author<R: Wait, G: DirPort>(
    rt: &R,
    alloc: Global,
    dir: &G,
    desk: &mut G::Pass,
    call: &Value,
) -> Result<(), Stop>
    requires { G.is_of dir.now desk.old }
{
    let drawn = drawn(call)?;
    let name = units(alloc, call, "name")?;
    drop(dir.create_author(rt, desk, &name, drawn));
    Ok(())
}

fn add_group_pad<R: Wait, G: DirPort>(
    rt: &R,
    alloc: Global,
    dir: &G,
    desk: &mut G::Pass,
    call: &Value,
) -> Result<(), Stop>
    requires { G.is_of dir.now desk.old }
{
    let group = units(alloc, call, "group")?;
    let name = units(alloc, call, "name")?;
    drop(dir.add_group_pad(rt, desk, &group, &name));
    Ok(())
}

fn create_session<R: Wait, G: DirPort>(
    rt: &R,
    alloc: Global,
    dir: &G,
    desk: &mut G::Pass,
    call: &Value,
) -> Result<(), Stop>
    requires { G.is_of dir.now desk.old }
{
    let until = whole(call, "valid_until")?;
    let now = whole(call, "now_s")?;
    let drawn = drawn(call)?;
    let group = units(alloc, call, "group")?;
    let author = units(alloc, call, "author")?;
    drop(dir.create_session(rt, desk, &group, &author, until, now, drawn));
    Ok(())
}

fn read_only<R: Wait, G: DirPort>(
    rt: &R,
    alloc: Global,
    dir: &G,
    desk: &mut G::Pass,
    call: &Value,
) -> Result<(), Stop>
    requires { G.is_of dir.now desk.old }
{
    let drawn = drawn(call)?;
    let pad = pad(alloc, text(call, "pad")?)?;
    drop(dir.read_only(rt, desk, &pad, drawn));
    Ok(())
}

/// A call of the directory.
pub fn call_directory<R: Wait, G: DirPort>(
    rt: &R,
    alloc: Global,
    dir: &G,
    call: &Value,
) -> Result<(), Stop> {
    let name = text(call, "call")?;
    let mut desk = dir.pass(rt);
    match name {
        "create_group" => create_group(rt, dir, &mut desk, call),
        "create_author" => create_author(rt, alloc, dir, &mut desk, call),
        "add_group_pad" => add_group_pad(rt, alloc, dir, &mut desk, call),
        "create_session" => create_session(rt, alloc, dir, &mut desk, call),
        "read_only" => read_only(rt, alloc, dir, &mut desk, call),
        _ => Err(Stop::Wrong),
    }
}

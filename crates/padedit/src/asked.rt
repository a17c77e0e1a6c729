//! What a line asks for: the members of each request, and what is done with them.

use crate::kept::{keeps, kept_of};
use crate::members::{
    Member, attr_map_of, number_of, revision_of, sessions_of, text_of, units_of, with_of,
};
use crate::refusal::Stopped;
use crate::reply::Reply;
use ep_apply::Doc;
use ep_attr::AttrMap;
use ep_cs::Change;
use ep_editor::{Editor, Kept, Said, Wanted};
use ep_timeslider::Slid;
use ep_units::Units;
use ep_wire_words::ClientMsg;
use serde_json::Value;
use std::alloc::Global;

fn wanted_of(alloc: Global, request: &Value) -> Result<Wanted, Stopped> {
    let pad = units_of(alloc, request, Member::Pad)?;
    let token = units_of(alloc, request, Member::Token)?;
    let sessions = sessions_of(alloc, request)?;
    Ok(Wanted {
        pad,
        token,
        sessions,
    })
}

fn sends(alloc: Global, msg: &ClientMsg) -> Result<Reply, Stopped> {
    Ok(Reply::sends(alloc, msg)?)
}

fn enter_first(alloc: Global, editor: &mut Editor, wanted: Wanted) -> Result<Reply, Stopped> {
    let first = editor.enter(alloc, wanted)?;
    sends(alloc, &first)
}

fn resumes(alloc: Global, editor: &Editor, first: &ClientMsg) -> Result<Reply, Stopped> {
    match editor {
        Editor::Inside(pad) => Ok(Reply::resumes(alloc, first, pad)?),
        Editor::Outside | Editor::Entering(_) => sends(alloc, first),
    }
}

fn enter_again(
    alloc: Global,
    editor: &mut Editor,
    wanted: Wanted,
    kept: Kept,
) -> Result<Reply, Stopped> {
    let first = editor.enter_again(alloc, wanted, kept)?;
    resumes(alloc, editor, &first)
}

fn enter(alloc: Global, editor: &mut Editor, request: &Value) -> Result<Reply, Stopped> {
    let wanted = wanted_of(alloc, request)?;
    match kept_of(alloc, request)? {
        Some(kept) => enter_again(alloc, editor, wanted, kept),
        None => enter_first(alloc, editor, wanted),
    }
}

fn shown(alloc: Global, editor: &Editor) -> Result<Reply, Stopped> {
    match editor {
        Editor::Inside(pad) => Ok(Reply::shows(alloc, pad)?),
        Editor::Outside | Editor::Entering(_) => Ok(Reply::new(alloc)),
    }
}

fn past(alloc: Global, doc: &Doc) -> Result<Reply, Stopped> {
    Ok(Reply::past(alloc, doc)?)
}

/// What the timeslider does.
fn slid(alloc: Global, slid: Slid) -> Result<Reply, Stopped> {
    match slid {
        Slid::Past(doc) => past(alloc, &doc),
        Slid::Asks(msg) => sends(alloc, &msg),
    }
}

fn changed(alloc: Global, change: &Change, by: &Units) -> Result<Reply, Stopped> {
    Ok(Reply::changes_by(alloc, change, by)?)
}

fn heard(alloc: Global, editor: &mut Editor, request: &Value) -> Result<Reply, Stopped> {
    let message = text_of(request, Member::Message)?;
    match editor.heard(alloc, message)? {
        Said::Shown => shown(alloc, editor),
        Said::Changed { change, by } => changed(alloc, &change, &by),
        Said::Nothing => Ok(Reply::new(alloc)),
        Said::Closed(word) => Ok(Reply::closes(alloc, word)?),
        Said::Renewed => Ok(Reply::renewed(alloc)?),
        Said::Slid(what) => slid(alloc, what),
    }
}

fn edit(alloc: Global, editor: &mut Editor, request: &Value) -> Result<Reply, Stopped> {
    let at = number_of(request, Member::At)?;
    let drop = number_of(request, Member::Drop)?;
    let put = text_of(request, Member::Put)?;
    let with = with_of(alloc, request)?;
    editor.edit(alloc, at, drop, put, &with)?;
    Ok(Reply::new(alloc))
}

fn painted(
    alloc: Global,
    editor: &mut Editor,
    at: u32,
    count: u32,
    attrs: &AttrMap,
) -> Result<Reply, Stopped> {
    let change = editor.format(alloc, at, count, attrs)?;
    Ok(Reply::changes(alloc, &change)?)
}

fn format(alloc: Global, editor: &mut Editor, request: &Value) -> Result<Reply, Stopped> {
    let at = number_of(request, Member::At)?;
    let count = number_of(request, Member::Count)?;
    let attrs = attr_map_of(alloc, request)?;
    painted(alloc, editor, at, count, &attrs)
}

/// The edit that was made, if there was one.
fn remade(alloc: Global, made: Option<Change>) -> Result<Reply, Stopped> {
    match made {
        Some(change) => Ok(Reply::changes(alloc, &change)?),
        None => Ok(Reply::new(alloc)),
    }
}

fn undo(alloc: Global, editor: &mut Editor) -> Result<Reply, Stopped> {
    let made = editor.undo(alloc)?;
    remade(alloc, made)
}

fn redo(alloc: Global, editor: &mut Editor) -> Result<Reply, Stopped> {
    let made = editor.redo(alloc)?;
    remade(alloc, made)
}

fn submit(alloc: Global, editor: &mut Editor) -> Result<Reply, Stopped> {
    match editor.submit(alloc)? {
        Some(msg) => sends(alloc, &msg),
        None => Ok(Reply::new(alloc)),
    }
}

fn lost(alloc: Global, editor: &mut Editor) -> Result<Reply, Stopped> {
    editor.lost()?;
    Ok(Reply::new(alloc))
}

fn come_back(alloc: Global, editor: &mut Editor) -> Result<Reply, Stopped> {
    let first = editor.come_back(alloc)?;
    sends(alloc, &first)
}

fn keep(alloc: Global, editor: &Editor) -> Result<Reply, Stopped> {
    let kept = editor.keep(alloc)?;
    Ok(keeps(alloc, &kept)?)
}

fn slide(alloc: Global, editor: &mut Editor, request: &Value) -> Result<Reply, Stopped> {
    let to = revision_of(request, Member::To)?;
    let what = editor.slide(alloc, to)?;
    slid(alloc, what)
}

/// The reply to what a request asks for. Its members are read first.
pub fn carry_out(alloc: Global, editor: &mut Editor, request: &Value) -> Result<Reply, Stopped> {
    match text_of(request, Member::Do)? {
        "enter" => enter(alloc, editor, request),
        "heard" => heard(alloc, editor, request),
        "edit" => edit(alloc, editor, request),
        "format" => format(alloc, editor, request),
        "undo" => undo(alloc, editor),
        "redo" => redo(alloc, editor),
        "submit" => submit(alloc, editor),
        "lost" => lost(alloc, editor),
        "return" => come_back(alloc, editor),
        "keep" => keep(alloc, editor),
        "slide" => slide(alloc, editor, request),
        _ => Err(Stopped::from(Member::Do)),
    }
}

//! Reading what a client says.

ghost use Rattle.std.specs.Prelude.{◌≡◌, true, IfOk};
ghost use Rattle.serde_json.specs.View.{view};
ghost use Rattle.ep_wire_words.specs.Answer.{Answers, Gives, Then};
ghost use Rattle.ep_wire_words.specs.Client.{ReadsClient, ReadsRow, Row, collab_row, edit_members, ready_in, resume_of, rev_if, row_of, slide_in};
ghost use Rattle.ep_wire.specs.Rows.{edit_view, row_view};
ghost use Rattle.ep_wire_words.specs.Sent.{IfSmall, IfText, IsResume, IsSentByClient, IsSmall};

use crate::pooled::change;
use ep_units::Units;
use ep_wire_words::members::{
    json, member, object, optional_flag, optional_units, optional_whole, text, units, whole,
};
use ep_wire_words::session::sessions;
use ep_wire_words::{ClientMsg, Member, Resume, WireBad};
use serde_json::Value;
use std::alloc::Global;

/// Which message it is, with the object in which its members stand.
#[derive(Clone, Copy)]
enum ClientRow<'a> {
    Ready(&'a Value),
    Edit(&'a Value),
    Slide(&'a Value),
    Other,
}

fn collab_row(value: &Value) -> Result<ClientRow<'_>, WireBad>
    ensures { Gives row_view result (collab_row (view value.now)) }
{
    let data = object(value, Member::Data)?;
    match text(data, Member::Type)? {
        "USER_CHANGES" => Ok(ClientRow::Edit(data)),
        _ => Ok(ClientRow::Other),
    }
}

fn row(value: &Value) -> Result<ClientRow<'_>, WireBad>
    ensures { Gives row_view result (row_of (view value.now)) }
{
    match text(value, Member::Type)? {
        "CLIENT_READY" => Ok(ClientRow::Ready(value)),
        "COLLABROOM" => collab_row(value),
        "CHANGESET_REQ" => Ok(ClientRow::Slide(object(value, Member::Data)?)),
        _ => Ok(ClientRow::Other),
    }
}

fn rev_if(again: Option<bool>, value: &Value) -> Result<Option<u64>, WireBad>
    ensures exact { Gives (λ rev. rev) result (rev_if again (view value.now)) }
    ensures small { IfOk result IfSmall }
{
    match again {
        Some(true) => Ok(Some(whole(value, Member::ClientRev)?)),
        _ => Ok(None),
    }
}

fn resume_of(rev: Option<u64>, birth: Option<u64>, author: Option<Units>) -> Option<Resume>
    requires rev { IfSmall rev }
    requires birth { IfSmall birth }
    requires author { IfText author }
    ensures exact { result ≡ resume_of rev birth author }
    ensures sent { IsResume result }
{
    match rev {
        Some(rev) => Some(Resume { rev, birth, author }),
        None => None,
    }
}

fn ready(alloc: Global, value: &Value) -> Result<ClientMsg, WireBad>
    ensures exact { Gives (λ m. m) result (ready_in (view value.now)) }
    ensures sent { IfOk result IsSentByClient }
{
    let pad = units(alloc, value, Member::PadId)?;
    let token = units(alloc, value, Member::Token)?;
    let sessions = sessions(alloc, value)?;
    let again = optional_flag(value, Member::Reconnect)?;
    let rev = rev_if(again, value)?;
    let birth = optional_whole(value, Member::Birth)?;
    let author = optional_units(alloc, value, Member::Author)?;
    Ok(ClientMsg::Ready {
        pad,
        token,
        sessions,
        resume: resume_of(rev, birth, author),
    })
}

fn slide(value: &Value) -> Result<ClientMsg, WireBad>
    ensures exact { Gives (λ m. m) result (slide_in (view value.now)) }
    ensures sent { IfOk result IsSentByClient }
{
    Ok(ClientMsg::Slide {
        start: whole(value, Member::Start)?,
        granularity: whole(value, Member::Granularity)?,
        request: whole(value, Member::RequestId)?,
    })
}

/// The members of an edit.
#[derive(Clone, Copy)]
struct EditMembers<'a> {
    base: u64,
    changeset: &'a str,
    pool: &'a Value,
}

fn edit_members(value: &Value) -> Result<EditMembers<'_>, WireBad>
    ensures exact { Gives edit_view result (edit_members (view value.now)) }
    ensures small { IfOk result (λ m. IsSmall m.base) }
{
    Ok(EditMembers {
        base: whole(value, Member::BaseRev)?,
        changeset: text(value, Member::Changeset)?,
        pool: member(value, Member::Apool)?,
    })
}

fn edit(alloc: Global, value: &Value) -> Result<ClientMsg, WireBad>
    ensures answer { Answers (ReadsRow (Row.edit (view value.now))) result }
    ensures sent { IfOk result IsSentByClient }
{
    let members = edit_members(value)?;
    let change = change(alloc, members.changeset, members.pool)?;
    Ok(ClientMsg::Edit {
        base: members.base,
        change,
    })
}

/// What a client's text says, under a limit of bytes.
///
/// What is read can be sent: its texts are well-formed, its numbers are a browser's, and its change is in normal form.
pub fn read_client(alloc: Global, text: &str, limit: u64) -> Result<ClientMsg, WireBad>
    ensures answer { Answers (ReadsClient text.now limit) result }
    ensures sent { IfOk result IsSentByClient }
{
    let value = json(alloc, text, limit)?;
    match row(&value)? {
        ClientRow::Ready(value) => ready(alloc, value),
        ClientRow::Edit(value) => edit(alloc, value),
        ClientRow::Slide(value) => slide(value),
        ClientRow::Other => Ok(ClientMsg::Other),
    }
}

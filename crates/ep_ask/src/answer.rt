//! What functions answer, as JSON.

ghost use Rattle.std.specs.Prelude.{◌≡◌, codes, IfOk};
ghost use Rattle.serde_json.specs.Data.{array, no_members};
ghost use Rattle.serde_json.specs.View.{items_view, members_view, view};
ghost use Rattle.ep_ask.specs.Replies.{data_json, one, session, sessions, text, texts, whole};

use ep_dir_records::{Listed, SessionInfo};
use ep_units::{NoMemory, PadId, Units};
use serde_json::{Map, Value, json};
use std::alloc::Global;

/// What a function answers.
#[derive(Drop)]
pub enum Data {
    Nothing,
    Group(Units),
    Groups(Listed<Units>),
    Pad(PadId),
    Pads(Listed<PadId>),
    Author(Units),
    AuthorName(Units),
    /// The id of a session.
    Session(Units),
    /// What a session stands for.
    Info(SessionInfo),
    Infos(Listed<SessionInfo>),
    Text(Units),
    /// The number of the last revision.
    Revisions(u64),
    /// In milliseconds.
    LastEdited(u64),
    Users(u64),
    ReadOnly(Units),
    Public(bool),
}

fn text(alloc: Global, units: &Units) -> Result<Value, NoMemory>
    ensures { IfOk result (λ v. view v ≡ text units.now) }
{
    Ok(Value::String(units.to_text_lossy(alloc)?))
}

fn id_text(alloc: Global, id: &PadId) -> Result<Value, NoMemory>
    ensures { IfOk result (λ v. view v ≡ text id.now) }
{
    text(alloc, &Units::from_slice(alloc, id.as_slice())?)
}

/// An object of one member.
fn one(alloc: Global, name: &str, value: Value) -> Result<Value, NoMemory>
    ensures { IfOk result (λ v. view v ≡ one name.now (view value)) }
{
    let mut members = Map::new(alloc);
    serde_json::put(&mut members, alloc, name, value)?;
    Ok(Value::Object(members))
}

fn texts(alloc: Global, all: &[Units]) -> Result<Value, NoMemory>
    ensures { IfOk result (λ v. view v ≡ array (texts all.now)) }
{
    let mut values = Vec::with_capacity(alloc, all.len())?;
    for units in all {
        values.push(text(alloc, units)?)?;
    }
    Ok(Value::Array(values))
}

fn id_texts(alloc: Global, all: &[PadId]) -> Result<Value, NoMemory>
    ensures { IfOk result (λ v. view v ≡ array (texts all.now)) }
{
    let mut values = Vec::with_capacity(alloc, all.len())?;
    for id in all {
        values.push(id_text(alloc, id)?)?;
    }
    Ok(Value::Array(values))
}

fn session(alloc: Global, info: &SessionInfo) -> Result<Value, NoMemory>
    ensures { IfOk result (λ v. view v ≡ session info.now) }
{
    let author = text(alloc, &info.author)?;
    let group = text(alloc, &info.group)?;
    let valid_until = info.valid_until;
    Ok(json!(in alloc; {"authorID": author, "groupID": group, "validUntil": valid_until})?)
}

/// The members of the sessions, under their ids.
fn sessions(alloc: Global, all: &[SessionInfo]) -> Result<Map<String, Value>, NoMemory>
    ensures { IfOk result (λ m. members_view m.entries ≡ sessions no_members all.now) }
{
    let mut members = Map::new(alloc);
    for info in all {
        let id = info.id.to_text_lossy(alloc)?;
        let value = session(alloc, info)?;
        serde_json::put(&mut members, alloc, id.as_str(), value)?;
    }
    Ok(members)
}

impl Data {
    pub fn json(&self, alloc: Global) -> Result<Value, NoMemory>
        ensures { IfOk result (λ v. view v ≡ data_json self.now) }
    {
        match self {
            Data::Nothing => Ok(Value::Null),
            Data::Group(id) => one(alloc, "groupID", text(alloc, id)?),
            Data::Groups(ids) => one(alloc, "groupIDs", texts(alloc, ids.as_slice())?),
            Data::Pad(id) => one(alloc, "padID", id_text(alloc, id)?),
            Data::Pads(ids) => one(alloc, "padIDs", id_texts(alloc, ids.as_slice())?),
            Data::Author(id) => one(alloc, "authorID", text(alloc, id)?),
            Data::AuthorName(name) => one(alloc, "authorName", text(alloc, name)?),
            Data::Session(id) => one(alloc, "sessionID", text(alloc, id)?),
            Data::Info(info) => session(alloc, info),
            Data::Infos(all) => Ok(Value::Object(sessions(alloc, all.as_slice())?)),
            Data::Text(units) => one(alloc, "text", text(alloc, units)?),
            Data::Revisions(n) => one(alloc, "revisions", Value::from(*n)),
            Data::LastEdited(n) => one(alloc, "lastEdited", Value::from(*n)),
            Data::Users(n) => one(alloc, "padUsersCount", Value::from(*n)),
            Data::ReadOnly(id) => one(alloc, "readOnlyID", text(alloc, id)?),
            Data::Public(on) => one(alloc, "publicStatus", Value::Bool(*on)),
        }
    }
}

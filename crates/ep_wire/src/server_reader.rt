//! Reading what the server says.

ghost use Rattle.std.specs.Prelude.{◌≡◌, codes, IfOk};
ghost use Rattle.serde_json.specs.View.{view};
ghost use Rattle.ep_wire_words.specs.Answer.{Answers, Gives};
ghost use Rattle.ep_wire_words.specs.Server.{ReadsRow, ReadsServer, Row, accepted_in, back_members, collab_named, collab_row, disconnect_word, news_members, none_in, row_named, row_of, slid_members, status_word, typed_row, vars_members};
ghost use Rattle.ep_wire_words.specs.Sent.{IsSentByServer, IsSession, IsSmall};
ghost use Rattle.ep_wire.specs.ServerRows.{back_view, news_view, row_view, slid_view, vars_view};

use crate::pooled::{change, document, steps};
use ep_units::Session;
use ep_wire_words::members::{
    array_of_texts, flag, json, member, object, optional_flag, text, units_from, whole,
};
use ep_wire_words::session::session;
use ep_wire_words::{Member, ServerMsg, WireBad, Word};
use serde_json::Value;
use std::alloc::Global;

/// Which message it is, with the object in which its members stand.
#[derive(Clone, Copy)]
enum ServerRow<'a> {
    Vars(&'a Value),
    Accepted(&'a Value),
    News(&'a Value),
    Reconnect(&'a Value),
    ReconnectNone(&'a Value),
    Slid(&'a Value),
    Closing(Word),
}

fn disconnect_word(told: &str) -> Option<Word>
    ensures { result ≡ disconnect_word told.now }
{
    match told {
        "userdup" => Some(Word::UserDup),
        "deleted" => Some(Word::Deleted),
        "badChangeset" => Some(Word::BadChangeset),
        "badMessage" => Some(Word::BadMessage),
        "full" => Some(Word::Full),
        "store" => Some(Word::Store),
        _ => None,
    }
}

fn status_word(told: &str) -> Option<Word>
    ensures { result ≡ status_word told.now }
{
    match told {
        "deny" => Some(Word::Deny),
        _ => None,
    }
}

fn reconnect_row(inside: &Value) -> Result<ServerRow<'_>, WireBad>
    ensures { Gives row_view result (collab_named (codes "CLIENT_RECONNECT") (view inside.now)) }
{
    match optional_flag(inside, Member::NoChanges)? {
        Some(true) => Ok(ServerRow::ReconnectNone(inside)),
        _ => Ok(ServerRow::Reconnect(inside)),
    }
}

fn collab_named<'a>(kind: &str, inside: &'a Value) -> Result<ServerRow<'a>, WireBad>
    ensures { Gives row_view result (collab_named kind.now (view inside.now)) }
{
    match kind {
        "ACCEPT_COMMIT" => Ok(ServerRow::Accepted(inside)),
        "NEW_CHANGES" => Ok(ServerRow::News(inside)),
        "CLIENT_RECONNECT" => reconnect_row(inside),
        _ => Err(WireBad::Shape(Member::Type)),
    }
}

fn collab_row(inside: &Value) -> Result<ServerRow<'_>, WireBad>
    ensures { Gives row_view result (collab_row (view inside.now)) }
{
    collab_named(text(inside, Member::Type)?, inside)
}

fn row_named<'a>(kind: &str, inside: &'a Value) -> Result<ServerRow<'a>, WireBad>
    ensures { Gives row_view result (row_named kind.now (view inside.now)) }
{
    match kind {
        "CLIENT_VARS" => Ok(ServerRow::Vars(inside)),
        "COLLABROOM" => collab_row(inside),
        "CHANGESET_REQ" => Ok(ServerRow::Slid(inside)),
        _ => Err(WireBad::Shape(Member::Type)),
    }
}

fn typed_row(value: &Value) -> Result<ServerRow<'_>, WireBad>
    ensures { Gives row_view result (typed_row (view value.now)) }
{
    let kind = text(value, Member::Type)?;
    let inside = object(value, Member::Data)?;
    row_named(kind, inside)
}

fn row(value: &Value) -> Result<ServerRow<'_>, WireBad>
    ensures { Gives row_view result (row_of (view value.now)) }
{
    if let Some(told) = value.get(Member::Disconnect.name()) {
        let word = told.as_str().and_then(disconnect_word);
        return Ok(ServerRow::Closing(word.ok_or(WireBad::Shape(Member::Disconnect))?));
    }
    if let Some(told) = value.get(Member::AccessStatus.name()) {
        let word = told.as_str().and_then(status_word);
        return Ok(ServerRow::Closing(word.ok_or(WireBad::Shape(Member::AccessStatus))?));
    }
    typed_row(value)
}

/// The members of a pad as it stands.
#[derive(Clone, Copy)]
struct VarsMembers<'a> {
    birth: u64,
    pool: &'a Value,
    attribs: &'a str,
    text: &'a str,
    rev: u64,
    time: u64,
    pad: &'a str,
    read_only: bool,
    session: Session,
    author: &'a str,
}

fn vars_members(value: &Value) -> Result<VarsMembers<'_>, WireBad>
    ensures exact { Gives vars_view result (vars_members (view value.now)) }
    ensures sent { IfOk result (λ m. IsSmall m.birth × IsSmall m.rev × IsSmall m.time × IsSession m.session) }
{
    let birth = whole(value, Member::Birth)?;
    let now = object(value, Member::CollabClientVars)?;
    let pool = member(now, Member::Apool)?;
    let document = object(now, Member::InitialAttributedText)?;
    Ok(VarsMembers {
        birth,
        pool,
        attribs: text(document, Member::Attribs)?,
        text: text(document, Member::Text)?,
        rev: whole(now, Member::Rev)?,
        time: whole(now, Member::Time)?,
        pad: text(value, Member::PadId)?,
        read_only: flag(value, Member::Readonly)?,
        session: session(value, Member::Session)?,
        author: text(value, Member::UserId)?,
    })
}

fn vars(alloc: Global, value: &Value) -> Result<ServerMsg, WireBad>
    ensures answer { Answers (ReadsRow (Row.vars (view value.now))) result }
    ensures sent { IfOk result IsSentByServer }
{
    let members = vars_members(value)?;
    let pad = units_from(alloc, members.pad)?;
    let author = units_from(alloc, members.author)?;
    let doc = document(alloc, members.text, members.attribs, members.pool)?;
    Ok(ServerMsg::Vars {
        pad,
        author,
        read_only: members.read_only,
        session: members.session,
        birth: members.birth,
        rev: members.rev,
        doc,
        time: members.time,
    })
}

fn accepted(value: &Value) -> Result<ServerMsg, WireBad>
    ensures exact { Gives (λ m. m) result (accepted_in (view value.now)) }
    ensures sent { IfOk result IsSentByServer }
{
    Ok(ServerMsg::Accepted {
        rev: whole(value, Member::NewRev)?,
        session: session(value, Member::Session)?,
    })
}

/// The members of a revision by another.
#[derive(Clone, Copy)]
struct NewsMembers<'a> {
    pool: &'a Value,
    author: &'a str,
    changeset: &'a str,
    time: u64,
    rev: u64,
    session: Session,
    delta: u64,
}

fn news_members(value: &Value) -> Result<NewsMembers<'_>, WireBad>
    ensures exact { Gives news_view result (news_members (view value.now)) }
    ensures sent { IfOk result (λ m. IsSmall m.time × IsSmall m.rev × IsSmall m.delta × IsSession m.session) }
{
    Ok(NewsMembers {
        pool: member(value, Member::Apool)?,
        author: text(value, Member::Author)?,
        changeset: text(value, Member::Changeset)?,
        time: whole(value, Member::CurrentTime)?,
        rev: whole(value, Member::NewRev)?,
        session: session(value, Member::Session)?,
        delta: whole(value, Member::TimeDelta)?,
    })
}

fn news(alloc: Global, value: &Value) -> Result<ServerMsg, WireBad>
    ensures answer { Answers (ReadsRow (Row.news (view value.now))) result }
    ensures sent { IfOk result IsSentByServer }
{
    let members = news_members(value)?;
    let author = units_from(alloc, members.author)?;
    let change = change(alloc, members.changeset, members.pool)?;
    Ok(ServerMsg::News {
        rev: members.rev,
        change,
        author,
        session: members.session,
        time: members.time,
        delta: members.delta,
    })
}

/// The members of a revision that a client who came back hasn't heard.
#[derive(Clone, Copy)]
struct BackMembers<'a> {
    pool: &'a Value,
    author: &'a str,
    birth: u64,
    changeset: &'a str,
    current: Session,
    time: u64,
    head: u64,
    rev: u64,
    session: Session,
}

fn back_members(value: &Value) -> Result<BackMembers<'_>, WireBad>
    ensures exact { Gives back_view result (back_members (view value.now)) }
    ensures sent { IfOk result (λ m. IsSmall m.birth × IsSmall m.time × IsSmall m.head × IsSmall m.rev × IsSession m.current × IsSession m.session) }
{
    Ok(BackMembers {
        pool: member(value, Member::Apool)?,
        author: text(value, Member::Author)?,
        birth: whole(value, Member::Birth)?,
        changeset: text(value, Member::Changeset)?,
        current: session(value, Member::Current)?,
        time: whole(value, Member::CurrentTime)?,
        head: whole(value, Member::HeadRev)?,
        rev: whole(value, Member::NewRev)?,
        session: session(value, Member::Session)?,
    })
}

fn reconnect(alloc: Global, value: &Value) -> Result<ServerMsg, WireBad>
    ensures answer { Answers (ReadsRow (Row.reconnect (view value.now))) result }
    ensures sent { IfOk result IsSentByServer }
{
    let members = back_members(value)?;
    let author = units_from(alloc, members.author)?;
    let change = change(alloc, members.changeset, members.pool)?;
    Ok(ServerMsg::Reconnect {
        current: members.current,
        birth: members.birth,
        head: members.head,
        rev: members.rev,
        change,
        author,
        session: members.session,
        time: members.time,
    })
}

fn reconnect_none(value: &Value) -> Result<ServerMsg, WireBad>
    ensures exact { Gives (λ m. m) result (none_in (view value.now)) }
    ensures sent { IfOk result IsSentByServer }
{
    Ok(ServerMsg::ReconnectNone {
        birth: whole(value, Member::Birth)?,
        current: session(value, Member::Current)?,
        head: whole(value, Member::HeadRev)?,
        rev: whole(value, Member::NewRev)?,
    })
}

/// The members of steps of the history.
#[derive(Clone, Copy)]
struct SlidMembers<'a> {
    reached: u64,
    pool: &'a Value,
    backward: &'a [Value],
    forward: &'a [Value],
    granularity: u64,
    request: u64,
    start: u64,
}

fn slid_members(value: &Value) -> Result<SlidMembers<'_>, WireBad>
    ensures exact { Gives slid_view result (slid_members (view value.now)) }
    ensures sent { IfOk result (λ m. IsSmall m.reached × IsSmall m.granularity × IsSmall m.request × IsSmall m.start) }
{
    Ok(SlidMembers {
        reached: whole(value, Member::ActualEndNum)?,
        pool: member(value, Member::Apool)?,
        backward: array_of_texts(value, Member::BackwardsChangesets)?,
        forward: array_of_texts(value, Member::ForwardsChangesets)?,
        granularity: whole(value, Member::Granularity)?,
        request: whole(value, Member::RequestId)?,
        start: whole(value, Member::Start)?,
    })
}

fn slid(alloc: Global, value: &Value) -> Result<ServerMsg, WireBad>
    ensures answer { Answers (ReadsRow (Row.slid (view value.now))) result }
    ensures sent { IfOk result IsSentByServer }
{
    let members = slid_members(value)?;
    let steps = steps(alloc, members.backward, members.forward, members.pool)?;
    let (backward, forward) = steps;
    Ok(ServerMsg::Slid {
        start: members.start,
        reached: members.reached,
        granularity: members.granularity,
        request: members.request,
        forward,
        backward,
    })
}

/// What the server's text says, under a limit of bytes.
///
/// What is read can be sent: its texts are well-formed, its numbers are a browser's, and its changes are in normal form.
pub fn read_server(alloc: Global, text: &str, limit: u64) -> Result<ServerMsg, WireBad>
    ensures answer { Answers (ReadsServer text.now limit) result }
    ensures sent { IfOk result IsSentByServer }
{
    let value = json(alloc, text, limit)?;
    match row(&value)? {
        ServerRow::Vars(data) => vars(alloc, data),
        ServerRow::Accepted(data) => accepted(data),
        ServerRow::News(data) => news(alloc, data),
        ServerRow::Reconnect(data) => reconnect(alloc, data),
        ServerRow::ReconnectNone(data) => reconnect_none(data),
        ServerRow::Slid(data) => slid(alloc, data),
        ServerRow::Closing(word) => Ok(ServerMsg::Closing(word)),
    }
}

//! Writing what the server says.

ghost use Rattle.std.specs.Prelude.{◌≡◌, ◌<◌, ◌≤◌, ◌^◌, ◌∷◌, ◌++◌, [], true, Some, IfOk, OnOk, drop, length, map, string_bytes, take};
ghost use Rattle.json.specs.Token.{begin_object, key};
ghost use Rattle.ep_pool.specs.Json.{pool_json};
ghost use Rattle.ep_cs.specs.Doc.{text_of};
ghost use Rattle.ep_csread.specs.Spelling.{all_named, ops_text, pairs_named, printed};
ghost use Rattle.ep_apply.specs.Documents.{insertion};
ghost use Rattle.serde_json.specs.Read.{read};
ghost use Rattle.serde_json.specs.Written.{compact_text};
ghost use Rattle.ep_wire_words.specs.Json.{text, whole};
ghost use Rattle.ep_wire_words.specs.Members.{name};
ghost use Rattle.ep_wire_words.specs.ServerJson.{changeset, changesets, pad_now, pool, server_json, told, told_by};
ghost use Rattle.ep_wire.specs.Tokens.{IsBack, field, is_of_revision, said, with_fields};
ghost use Rattle.ep_wire_words.specs.declared.server.ServerMsg.TheVariants as msg;

use crate::printing::Out;
use ep_apply::Doc;
use ep_cs::Change;
use ep_csread::{Wire, Wires, for_wire, for_wire_all, print_attribs};
use ep_units::{NoMemory, Session, Units};
use ep_wire_words::{Listed, Member, ServerMsg, Word};
use std::alloc::Global;

fn word_of(word: Word) -> &'static str
    ensures { result.now ≡ told word }
{
    match word {
        Word::UserDup => "userdup",
        Word::Deleted => "deleted",
        Word::BadChangeset => "badChangeset",
        Word::BadMessage => "badMessage",
        Word::Deny => "deny",
        Word::Full => "full",
        Word::Store => "store",
    }
}

fn member_of(word: Word) -> Member
    ensures { result ≡ told_by word }
{
    match word {
        Word::Deny => Member::AccessStatus,
        _ => Member::Disconnect,
    }
}

fn closing(out: &mut Out, word: Word) -> Result<(), NoMemory>
    ensures tokens { OnOk result (out.new ≡ out.old ++ said (server_json (msg.Closing word))) }
    ensures back { OnOk result (IsBack (server_json (msg.Closing word))) }
{
    out.begin()?;
    out.word(member_of(word), word_of(word))?;
    out.end()?;
    Ok(())
}

fn accepted(out: &mut Out, rev: u64, session: Session) -> Result<(), NoMemory>
    ensures tokens { OnOk result (out.new ≡ out.old ++ said (server_json (msg.Accepted rev session))) }
    ensures back { OnOk result (IsBack (server_json (msg.Accepted rev session))) }
{
    out.begin_data()?;
    out.whole(Member::NewRev, rev)?;
    out.session(Member::Session, session)?;
    out.word(Member::Type, "ACCEPT_COMMIT")?;
    out.end_data("COLLABROOM")?;
    Ok(())
}

/// The members of a revision that tell its change, and who made it.
fn revision(alloc: Global, out: &mut Out, change: &Change, author: &Units) -> Result<(), NoMemory>
    ensures tokens { OnOk result (out.new ≡ with_fields out.old ((Member.Apool, pool change.now) ∷ ((Member.Author, text author.now) ∷ ((Member.Changeset, changeset change.now) ∷ [])))) }
    ensures few { OnOk result (length (pairs_named change.now.runs) < 2 ^ 64) }
{
    let wire = for_wire(alloc, change)?;
    out.pool(&wire.pool)?;
    out.units(Member::Author, author)?;
    out.units(Member::Changeset, &wire.text)?;
    Ok(())
}

fn news(
    alloc: Global,
    out: &mut Out,
    rev: u64,
    change: &Change,
    author: &Units,
    session: Session,
    time: u64,
    delta: u64,
) -> Result<(), NoMemory>
    ensures tokens { OnOk result (out.new ≡ out.old ++ said (server_json (msg.News rev change.now author.now session time delta))) }
    ensures back { OnOk result (IsBack (server_json (msg.News rev change.now author.now session time delta))) }
{
    out.begin_data()?;
    revision(alloc, out, change, author)?;
    out.whole(Member::CurrentTime, time)?;
    out.whole(Member::NewRev, rev)?;
    out.session(Member::Session, session)?;
    out.whole(Member::TimeDelta, delta)?;
    out.word(Member::Type, "NEW_CHANGES")?;
    out.end_data("COLLABROOM")?;
    Ok(())
}

/// What a client who comes back is told beside each revision.
#[derive(Clone, Copy)]
struct Back {
    current: Session,
    birth: u64,
    head: u64,
    rev: u64,
}

/// The members up to the changeset of a revision that a client who came back hasn't heard.
fn unheard(
    alloc: Global,
    out: &mut Out,
    birth: u64,
    change: &Change,
    author: &Units,
) -> Result<(), NoMemory>
    ensures tokens { OnOk result (out.new ≡ with_fields out.old ((Member.Apool, pool change.now) ∷ ((Member.Author, text author.now) ∷ ((Member.Birth, whole birth) ∷ ((Member.Changeset, changeset change.now) ∷ []))))) }
    ensures few { OnOk result (length (pairs_named change.now.runs) < 2 ^ 64) }
{
    let wire = for_wire(alloc, change)?;
    out.pool(&wire.pool)?;
    out.units(Member::Author, author)?;
    out.whole(Member::Birth, birth)?;
    out.units(Member::Changeset, &wire.text)?;
    Ok(())
}

fn reconnect(
    alloc: Global,
    out: &mut Out,
    back: Back,
    change: &Change,
    author: &Units,
    session: Session,
    time: u64,
) -> Result<(), NoMemory>
    ensures tokens { OnOk result (out.new ≡ out.old ++ said (server_json (msg.Reconnect back.current back.birth back.head back.rev change.now author.now session time))) }
    ensures back { OnOk result (IsBack (server_json (msg.Reconnect back.current back.birth back.head back.rev change.now author.now session time))) }
{
    out.begin_data()?;
    unheard(alloc, out, back.birth, change, author)?;
    out.session(Member::Current, back.current)?;
    out.whole(Member::CurrentTime, time)?;
    out.whole(Member::HeadRev, back.head)?;
    out.whole(Member::NewRev, back.rev)?;
    out.session(Member::Session, session)?;
    out.word(Member::Type, "CLIENT_RECONNECT")?;
    out.end_data("COLLABROOM")?;
    Ok(())
}

fn reconnect_none(
    out: &mut Out,
    current: Session,
    birth: u64,
    head: u64,
    rev: u64,
) -> Result<(), NoMemory>
    ensures tokens { OnOk result (out.new ≡ out.old ++ said (server_json (msg.ReconnectNone current birth head rev))) }
    ensures back { OnOk result (IsBack (server_json (msg.ReconnectNone current birth head rev))) }
{
    out.begin_data()?;
    out.whole(Member::Birth, birth)?;
    out.session(Member::Current, current)?;
    out.whole(Member::HeadRev, head)?;
    out.whole(Member::NewRev, rev)?;
    out.flag(Member::NoChanges, true)?;
    out.word(Member::Type, "CLIENT_RECONNECT")?;
    out.end_data("COLLABROOM")?;
    Ok(())
}

/// A document's attributes in wire form.
fn attribs_of(alloc: Global, doc: &Doc) -> Result<Wire, NoMemory>
    ensures text { IfOk result (λ wire. wire.text ≡ ops_text (pairs_named (insertion doc.now).runs) (insertion doc.now).runs) }
    ensures pool { IfOk result (λ wire. wire.pool.pairs ≡ pairs_named (insertion doc.now).runs) }
{
    let inserted = doc.as_insert(alloc)?;
    Ok(print_attribs(alloc, &inserted)?)
}

/// A document's pool, and its attributes within the object of its text.
fn attribs(alloc: Global, out: &mut Out, doc: &Doc) -> Result<(), NoMemory>
    ensures tokens { OnOk result (out.new ≡ ((out.old ++ field Member.Apool (pool (insertion doc.now))) ++ key (name Member.InitialAttributedText) ∷ (begin_object ∷ [])) ++ field Member.Attribs (text (ops_text (pairs_named (insertion doc.now).runs) (insertion doc.now).runs))) }
    ensures few { OnOk result (length (pairs_named (insertion doc.now).runs) < 2 ^ 64) }
{
    let wire = attribs_of(alloc, doc)?;
    out.pool(&wire.pool)?;
    out.open(Member::InitialAttributedText)?;
    out.units(Member::Attribs, &wire.text)?;
    Ok(())
}

fn text(alloc: Global, out: &mut Out, doc: &Doc) -> Result<(), NoMemory>
    ensures { OnOk result (out.new ≡ out.old ++ field Member.Text (text (text_of doc.now))) }
{
    let text = doc.text(alloc)?;
    out.units(Member::Text, &text)
}

/// A pad as it stands.
fn pad_now(alloc: Global, out: &mut Out, rev: u64, doc: &Doc, time: u64) -> Result<(), NoMemory>
    ensures tokens { OnOk result (out.new ≡ out.old ++ field Member.CollabClientVars (pad_now rev doc.now time)) }
    ensures few { OnOk result (length (pairs_named (insertion doc.now).runs) < 2 ^ 64) }
{
    out.open(Member::CollabClientVars)?;
    attribs(alloc, out, doc)?;
    text(alloc, out, doc)?;
    out.end()?;
    out.whole(Member::Rev, rev)?;
    out.whole(Member::Time, time)?;
    out.end()?;
    Ok(())
}

/// Who enters a pad, and the birth of it.
#[derive(Clone, Copy)]
struct Entry<'a> {
    pad: &'a Units,
    author: &'a Units,
    read_only: bool,
    session: Session,
    birth: u64,
}

fn vars(
    alloc: Global,
    out: &mut Out,
    entry: Entry<'_>,
    rev: u64,
    doc: &Doc,
    time: u64,
) -> Result<(), NoMemory>
    ensures tokens { OnOk result (out.new ≡ out.old ++ said (server_json (msg.Vars entry.entry.pad.now entry.entry.author.now entry.entry.read_only entry.entry.session entry.entry.birth rev doc.now time))) }
    ensures back { OnOk result (IsBack (server_json (msg.Vars entry.entry.pad.now entry.entry.author.now entry.entry.read_only entry.entry.session entry.entry.birth rev doc.now time))) }
{
    out.begin_data()?;
    out.whole(Member::Birth, entry.birth)?;
    pad_now(alloc, out, rev, doc, time)?;
    out.units(Member::PadId, entry.pad)?;
    out.flag(Member::Readonly, entry.read_only)?;
    out.session(Member::Session, entry.session)?;
    out.units(Member::UserId, entry.author)?;
    out.end_data("CLIENT_VARS")?;
    Ok(())
}

/// Copies of changes at the end of others.
fn copy_all(alloc: Global, changes: &[Change], all: &mut Vec<Change>) -> Result<(), NoMemory>
    ensures { OnOk result (all.new.items ≡ all.old.items ++ changes.now) }
{
    for change in changes {
        all.push(change.copy(alloc)?)?;
    }
    Ok(())
}

/// Changes forward and backward in wire form, with one pool for all of them.
fn wires(
    alloc: Global,
    forward: &Listed<Change>,
    backward: &Listed<Change>,
) -> Result<Wires, NoMemory>
    ensures pool { IfOk result (λ w. w.pool.pairs ≡ all_named (forward.now ++ backward.now)) }
    ensures forward { IfOk result (λ w. take (length forward.now) w.texts.items ≡ map (printed (all_named (forward.now ++ backward.now))) forward.now) }
    ensures backward { IfOk result (λ w. drop (length forward.now) w.texts.items ≡ map (printed (all_named (forward.now ++ backward.now))) backward.now) }
    ensures len { IfOk result (λ w. length forward.now ≤ length w.texts.items) }
{
    let mut all = Vec::new(alloc);
    copy_all(alloc, forward.as_slice(), &mut all)?;
    copy_all(alloc, backward.as_slice(), &mut all)?;
    Ok(for_wire_all(alloc, &all)?)
}

/// The pool of steps of the history, and their changesets.
fn changesets(
    alloc: Global,
    out: &mut Out,
    forward: &Listed<Change>,
    backward: &Listed<Change>,
) -> Result<(), NoMemory>
    ensures tokens { OnOk result (out.new ≡ with_fields out.old ((Member.Apool, pool_json (all_named (forward.now ++ backward.now))) ∷ ((Member.BackwardsChangesets, changesets (forward.now ++ backward.now) backward.now) ∷ ((Member.ForwardsChangesets, changesets (forward.now ++ backward.now) forward.now) ∷ [])))) }
    ensures few { OnOk result (length (all_named (forward.now ++ backward.now)) < 2 ^ 64) }
{
    let wires = wires(alloc, forward, backward)?;
    let turn = forward.as_slice().len();
    let (forward, backward) = wires.texts.split_at(turn);
    out.pool(&wires.pool)?;
    out.texts(Member::BackwardsChangesets, backward)?;
    out.texts(Member::ForwardsChangesets, forward)?;
    Ok(())
}

fn slid(
    alloc: Global,
    out: &mut Out,
    start: u64,
    reached: u64,
    granularity: u64,
    request: u64,
    forward: &Listed<Change>,
    backward: &Listed<Change>,
) -> Result<(), NoMemory>
    ensures tokens { OnOk result (out.new ≡ out.old ++ said (server_json (msg.Slid start reached granularity request forward.now backward.now))) }
    ensures back { OnOk result (IsBack (server_json (msg.Slid start reached granularity request forward.now backward.now))) }
{
    out.begin_data()?;
    out.whole(Member::ActualEndNum, reached)?;
    changesets(alloc, out, forward, backward)?;
    out.whole(Member::Granularity, granularity)?;
    out.whole(Member::RequestId, request)?;
    out.whole(Member::Start, start)?;
    out.end_data("CHANGESET_REQ")?;
    Ok(())
}

/// A revision, or what a client who came back is told.
fn of_revision(alloc: Global, out: &mut Out, msg: &ServerMsg) -> Result<(), NoMemory>
    requires { is_of_revision msg.now ≡ true }
    ensures tokens { OnOk result (out.new ≡ out.old ++ said (server_json msg.now)) }
    ensures back { OnOk result (IsBack (server_json msg.now)) }
{
    match msg {
        ServerMsg::Accepted { rev, session } => accepted(out, *rev, *session),
        ServerMsg::News {
            rev,
            change,
            author,
            session,
            time,
            delta,
        } => news(alloc, out, *rev, change, author, *session, *time, *delta),
        ServerMsg::Reconnect {
            current,
            birth,
            head,
            rev,
            change,
            author,
            session,
            time,
        } => {
            let back = Back {
                current: *current,
                birth: *birth,
                head: *head,
                rev: *rev,
            };
            reconnect(alloc, out, back, change, author, *session, *time)
        }
        ServerMsg::ReconnectNone {
            current,
            birth,
            head,
            rev,
        } => reconnect_none(out, *current, *birth, *head, *rev),
        ServerMsg::Vars { .. } => unreachable!(),
        ServerMsg::Slid { .. } => unreachable!(),
        ServerMsg::Closing(_) => unreachable!(),
    }
}

fn message(alloc: Global, out: &mut Out, msg: &ServerMsg) -> Result<(), NoMemory>
    ensures tokens { OnOk result (out.new ≡ out.old ++ said (server_json msg.now)) }
    ensures back { OnOk result (IsBack (server_json msg.now)) }
{
    match msg {
        ServerMsg::Vars {
            pad,
            author,
            read_only,
            session,
            birth,
            rev,
            doc,
            time,
        } => {
            let entry = Entry {
                pad,
                author,
                read_only: *read_only,
                session: *session,
                birth: *birth,
            };
            vars(alloc, out, entry, *rev, doc, *time)
        }
        ServerMsg::Slid {
            start,
            reached,
            granularity,
            request,
            forward,
            backward,
        } => slid(
            alloc,
            out,
            *start,
            *reached,
            *granularity,
            *request,
            forward,
            backward,
        ),
        ServerMsg::Closing(word) => closing(out, *word),
        _ => of_revision(alloc, out, msg),
    }
}

/// The text of what the server says.
pub fn write_server(alloc: Global, msg: &ServerMsg) -> Result<String, NoMemory>
    ensures text { IfOk result (λ s. string_bytes s ≡ compact_text (server_json msg.now)) }
    ensures reads { IfOk result (λ s. read (string_bytes s) ≡ Some (server_json msg.now)) }
{
    let mut out = Out::new(alloc)?;
    message(alloc, &mut out, msg)?;
    Ok(out.finish())
}

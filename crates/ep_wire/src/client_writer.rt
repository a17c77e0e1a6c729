//! Writing what a client says.

ghost use Rattle.std.specs.Prelude.{◌≡◌, ◌<◌, ◌^◌, ◌++◌, ◌∷◌, [], Some, IfOk, OnOk, length, string_bytes};
ghost use Rattle.std.specs.List.{flat_map};
ghost use Rattle.serde_json.specs.Read.{read};
ghost use Rattle.serde_json.specs.Written.{compact_text};
ghost use Rattle.ep_csread.specs.Spelling.{pairs_named};
ghost use Rattle.ep_wire_words.specs.ClientJson.{client_json, joined, sessions_member};
ghost use Rattle.ep_wire_words.specs.Json.{whole};
ghost use Rattle.ep_wire_words.specs.ServerJson.{changeset, pool};
ghost use Rattle.ep_wire.specs.Tokens.{Fits, IsBack, fields, reconnect, resumed, said, with_fields};
ghost use Rattle.ep_wire_words.specs.declared.client.ClientMsg.TheVariants as msg;

use crate::printing::Out;
use ep_cs::Change;
use ep_csread::for_wire;
use ep_units::{NoMemory, Units};
use ep_wire_words::{ClientMsg, Listed, Member, Resume};
use std::alloc::Global;

/// Texts with commas between them.
fn joined(alloc: Global, first: &Units, rest: &[Units]) -> Result<Units, NoMemory>
    ensures { IfOk result (λ us. us ≡ joined first.now rest.now) }
{
    let mut all = first.copy(alloc)?;
    for id in rest {
        all.push(44)?;
        all.push_all(id.as_slice())?;
    }
    Ok(all)
}

fn sessions(alloc: Global, out: &mut Out, ids: &[Units]) -> Result<(), NoMemory>
    ensures { OnOk result (out.new ≡ out.old ++ fields (sessions_member ids.now)) }
{
    match ids {
        [] => Ok(()),
        [first, rest @ ..] => {
            let ids = joined(alloc, first, rest)?;
            out.units(Member::SessionId, &ids)
        }
    }
}

/// The members of a resumption that stand before the pad's.
fn resumed(out: &mut Out, resume: &Option<Resume>) -> Result<(), NoMemory>
    ensures tokens { OnOk result (out.new ≡ out.old ++ fields (resumed resume.now)) }
    ensures fits { OnOk result (Fits resume.now) }
{
    match resume {
        Some(resume) => {
            out.units_if(Member::Author, &resume.author)?;
            out.whole_if(Member::Birth, resume.birth)?;
            out.whole_if(Member::ClientRev, Some(resume.rev))?;
            Ok(())
        }
        None => Ok(()),
    }
}

fn reconnect(out: &mut Out, resume: &Option<Resume>) -> Result<(), NoMemory>
    ensures { OnOk result (out.new ≡ out.old ++ fields (reconnect resume.now)) }
{
    match resume {
        Some(_) => out.flag(Member::Reconnect, true),
        None => Ok(()),
    }
}

fn ready(
    alloc: Global,
    out: &mut Out,
    pad: &Units,
    token: &Units,
    ids: &Listed<Units>,
    resume: &Option<Resume>,
) -> Result<(), NoMemory>
    ensures tokens { OnOk result (out.new ≡ out.old ++ said (client_json (msg.Ready pad.now token.now ids.now resume.now))) }
    ensures back { OnOk result (IsBack (client_json (msg.Ready pad.now token.now ids.now resume.now))) }
{
    out.begin()?;
    resumed(out, resume)?;
    out.units(Member::PadId, pad)?;
    reconnect(out, resume)?;
    sessions(alloc, out, ids.as_slice())?;
    out.units(Member::Token, token)?;
    out.word(Member::Type, "CLIENT_READY")?;
    out.end()?;
    Ok(())
}

/// The members of an edit that tell its change, and of which revision it is.
fn based(alloc: Global, out: &mut Out, base: u64, change: &Change) -> Result<(), NoMemory>
    ensures tokens { OnOk result (out.new ≡ with_fields out.old ((Member.Apool, pool change.now) ∷ ((Member.BaseRev, whole base) ∷ ((Member.Changeset, changeset change.now) ∷ [])))) }
    ensures few { OnOk result (length (pairs_named change.now.runs) < 2 ^ 64) }
{
    let wire = for_wire(alloc, change)?;
    out.pool(&wire.pool)?;
    out.whole(Member::BaseRev, base)?;
    out.units(Member::Changeset, &wire.text)?;
    Ok(())
}

fn edit(alloc: Global, out: &mut Out, base: u64, change: &Change) -> Result<(), NoMemory>
    ensures tokens { OnOk result (out.new ≡ out.old ++ said (client_json (msg.Edit base change.now))) }
    ensures back { OnOk result (IsBack (client_json (msg.Edit base change.now))) }
{
    out.begin_data()?;
    based(alloc, out, base, change)?;
    out.word(Member::Type, "USER_CHANGES")?;
    out.end_data("COLLABROOM")?;
    Ok(())
}

fn slide(out: &mut Out, start: u64, granularity: u64, request: u64) -> Result<(), NoMemory>
    ensures tokens { OnOk result (out.new ≡ out.old ++ said (client_json (msg.Slide start granularity request))) }
    ensures back { OnOk result (IsBack (client_json (msg.Slide start granularity request))) }
{
    out.begin_data()?;
    out.whole(Member::Granularity, granularity)?;
    out.whole(Member::RequestId, request)?;
    out.whole(Member::Start, start)?;
    out.end_data("CHANGESET_REQ")?;
    Ok(())
}

fn other(out: &mut Out) -> Result<(), NoMemory>
    ensures tokens { OnOk result (out.new ≡ out.old ++ said (client_json msg.Other)) }
    ensures back { OnOk result (IsBack (client_json msg.Other)) }
{
    out.begin()?;
    out.word(Member::Type, "OTHER")?;
    out.end()?;
    Ok(())
}

fn message(alloc: Global, out: &mut Out, msg: &ClientMsg) -> Result<(), NoMemory>
    ensures tokens { OnOk result (out.new ≡ out.old ++ said (client_json msg.now)) }
    ensures back { OnOk result (IsBack (client_json msg.now)) }
{
    match msg {
        ClientMsg::Ready {
            pad,
            token,
            sessions,
            resume,
        } => ready(alloc, out, pad, token, sessions, resume),
        ClientMsg::Edit { base, change } => edit(alloc, out, *base, change),
        ClientMsg::Slide {
            start,
            granularity,
            request,
        } => slide(out, *start, *granularity, *request),
        ClientMsg::Other => other(out),
    }
}

/// The text of what a client says.
pub fn write_client(alloc: Global, msg: &ClientMsg) -> Result<String, NoMemory>
    ensures text { IfOk result (λ s. string_bytes s ≡ compact_text (client_json msg.now)) }
    ensures reads { IfOk result (λ s. read (string_bytes s) ≡ Some (client_json msg.now)) }
{
    let mut out = Out::new(alloc)?;
    message(alloc, &mut out, msg)?;
    Ok(out.finish())
}

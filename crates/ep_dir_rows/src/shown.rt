//! Answers as lines.

use ep_groups::{DirBad, DirReply, Listed, SessionInfo};
use ep_units::{Grant, NoMemory, PadId, Units};
use std::alloc::Global;

/// A text as a line.
pub fn plain_line(alloc: Global, text: &str) -> Result<String, NoMemory> {
    Ok(String::from_str(alloc, text)?)
}

fn numbered_line(alloc: Global, text: &str, n: u64) -> Result<String, NoMemory> {
    Ok(format!(in alloc; "{text} {n}")?)
}

fn kept_line(alloc: Global, key: &Units) -> Result<String, NoMemory> {
    let key = key.to_text_lossy(alloc)?;
    Ok(format!(in alloc; "kept {}", key.as_str())?)
}

fn refusal_line(alloc: Global, bad: DirBad) -> Result<String, NoMemory> {
    match bad {
        DirBad::NoGroup => plain_line(alloc, "no group"),
        DirBad::NoAuthor => plain_line(alloc, "no author"),
        DirBad::NoSession => plain_line(alloc, "no session"),
        DirBad::Past(now) => numbered_line(alloc, "past", now),
        DirBad::BadName => plain_line(alloc, "bad name"),
        DirBad::Keeper(count) => numbered_line(alloc, "keeper", count),
        DirBad::IdsSpent => plain_line(alloc, "ids spent"),
        DirBad::Denied(rule) => numbered_line(alloc, "denied", rule),
        DirBad::Kept(key) => kept_line(alloc, &key),
        DirBad::NoMemory => plain_line(alloc, "no memory"),
    }
}

fn pad_text(alloc: Global, pad: &PadId) -> Result<String, NoMemory> {
    Ok(String::from_utf16_lossy(alloc, pad.as_slice())?)
}

fn session_text(alloc: Global, info: &SessionInfo) -> Result<String, NoMemory> {
    let id = info.id.to_text_lossy(alloc)?;
    let group = info.group.to_text_lossy(alloc)?;
    let author = info.author.to_text_lossy(alloc)?;
    let until = info.valid_until;
    Ok(format!(in alloc;
        "{} {} {} {until}",
        id.as_str(),
        group.as_str(),
        author.as_str()
    )?)
}

fn grant_text(alloc: Global, grant: &Grant) -> Result<String, NoMemory> {
    let pad = pad_text(alloc, &grant.pad)?;
    let author = grant.author.to_text_lossy(alloc)?;
    let token_author = grant.token_author.to_text_lossy(alloc)?;
    let member = if grant.member { "member" } else { "no member" };
    let way = if grant.read_only {
        "read-only"
    } else {
        "whole"
    };
    Ok(format!(in alloc;
        "{} {} {} {member} {way}",
        pad.as_str(),
        author.as_str(),
        token_author.as_str()
    )?)
}

// The line with one more thing in brackets.
fn push_item(line: &mut String, item: &str) -> Result<(), NoMemory> {
    line.push_str("[")?;
    line.push_str(item)?;
    line.push_str("]")?;
    Ok(())
}

fn texts_line(alloc: Global, texts: &[Units]) -> Result<String, NoMemory> {
    let mut line = String::new(alloc);
    for text in texts {
        let item = text.to_text_lossy(alloc)?;
        push_item(&mut line, item.as_str())?;
    }
    Ok(line)
}

fn pads_line(alloc: Global, pads: &[PadId]) -> Result<String, NoMemory> {
    let mut line = String::new(alloc);
    for pad in pads {
        let item = pad_text(alloc, pad)?;
        push_item(&mut line, item.as_str())?;
    }
    Ok(line)
}

fn sessions_line(alloc: Global, infos: &[SessionInfo]) -> Result<String, NoMemory> {
    let mut line = String::new(alloc);
    for info in infos {
        let item = session_text(alloc, info)?;
        push_item(&mut line, item.as_str())?;
    }
    Ok(line)
}

fn text_reply(alloc: Global, reply: Result<Units, DirBad>) -> Result<String, NoMemory> {
    match reply {
        Ok(text) => text.to_text_lossy(alloc),
        Err(bad) => refusal_line(alloc, bad),
    }
}

fn texts_reply(alloc: Global, reply: Result<Listed<Units>, DirBad>) -> Result<String, NoMemory> {
    match reply {
        Ok(texts) => texts_line(alloc, texts.as_slice()),
        Err(bad) => refusal_line(alloc, bad),
    }
}

fn done_reply(alloc: Global, reply: Result<(), DirBad>) -> Result<String, NoMemory> {
    match reply {
        Ok(()) => plain_line(alloc, "done"),
        Err(bad) => refusal_line(alloc, bad),
    }
}

fn pad_reply(alloc: Global, reply: Result<PadId, DirBad>) -> Result<String, NoMemory> {
    match reply {
        Ok(pad) => pad_text(alloc, &pad),
        Err(bad) => refusal_line(alloc, bad),
    }
}

fn pads_reply(alloc: Global, reply: Result<Listed<PadId>, DirBad>) -> Result<String, NoMemory> {
    match reply {
        Ok(pads) => pads_line(alloc, pads.as_slice()),
        Err(bad) => refusal_line(alloc, bad),
    }
}

fn session_reply(alloc: Global, reply: Result<SessionInfo, DirBad>) -> Result<String, NoMemory> {
    match reply {
        Ok(info) => session_text(alloc, &info),
        Err(bad) => refusal_line(alloc, bad),
    }
}

fn sessions_reply(
    alloc: Global,
    reply: Result<Listed<SessionInfo>, DirBad>,
) -> Result<String, NoMemory> {
    match reply {
        Ok(infos) => sessions_line(alloc, infos.as_slice()),
        Err(bad) => refusal_line(alloc, bad),
    }
}

fn grant_reply(alloc: Global, reply: Result<Grant, DirBad>) -> Result<String, NoMemory> {
    match reply {
        Ok(grant) => grant_text(alloc, &grant),
        Err(bad) => refusal_line(alloc, bad),
    }
}

/// What a call answered, as a line.
pub fn reply_line(alloc: Global, reply: DirReply) -> Result<String, NoMemory> {
    match reply {
        DirReply::Text(reply) => text_reply(alloc, reply),
        DirReply::Texts(reply) => texts_reply(alloc, reply),
        DirReply::Done(reply) => done_reply(alloc, reply),
        DirReply::Pad(reply) => pad_reply(alloc, reply),
        DirReply::Pads(reply) => pads_reply(alloc, reply),
        DirReply::Session(reply) => session_reply(alloc, reply),
        DirReply::Sessions(reply) => sessions_reply(alloc, reply),
        DirReply::Grant(reply) => grant_reply(alloc, reply),
    }
}

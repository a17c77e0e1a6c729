//! Lines of a script: the call that each says. Every draw is 10 to 19.

use ep_groups::{DirEntry, Drawn, GrantAsked, Listed, SessionAsked};
use ep_outside::{Put, Text};
use ep_units::{NoMemory, PadId, Units};
use std::alloc::Global;

const DRAWN: Drawn = Drawn {
    digits: [10, 11, 12, 13, 14, 15, 16, 17, 18, 19],
};

/// A text cut where the first such part stands in it.
pub fn cut<'a>(text: &'a str, part: &str) -> (&'a str, &'a str) {
    match text.split_once(part) {
        Some((front, rest)) => (front, rest),
        None => (text, ""),
    }
}

fn cut_word(text: &str) -> (&str, &str) {
    match text.split_once(' ') {
        Some((word, rest)) => (word, rest),
        None => (text, ""),
    }
}

/// The pair of a key and a value.
pub fn held(alloc: Global, pair: &str) -> Result<Put, NoMemory> {
    let (key, value) = cut_word(pair);
    let key = Text::from_str(alloc, key)?;
    let value = Text::from_str(alloc, value)?;
    Ok(Put {
        key,
        value: Some(value),
    })
}

/// The call that a line says, or none.
pub fn call(alloc: Global, line: &str) -> Result<Option<DirEntry>, NoMemory> {
    let (name, rest) = cut_word(line);
    match name {
        "create_group" => Ok(Some(DirEntry::CreateGroup(DRAWN))),
        "group_for" => group_for(alloc, rest),
        "delete_group" => delete_group(alloc, rest),
        "groups" => Ok(Some(DirEntry::Groups)),
        "add_group_pad" => add_group_pad(alloc, rest),
        "drop_group_pad" => drop_group_pad(alloc, rest),
        "group_pads" => group_pads(alloc, rest),
        _ => author_call(alloc, name, rest),
    }
}

fn author_call(alloc: Global, name: &str, rest: &str) -> Result<Option<DirEntry>, NoMemory> {
    match name {
        "create_author" => create_author(alloc, rest),
        "author_for" => author_for(alloc, rest),
        "author_name" => author_name(alloc, rest),
        "read_only" => read_only(alloc, rest),
        "grant" => grant(alloc, rest),
        _ => session_call(alloc, name, rest),
    }
}

fn session_call(alloc: Global, name: &str, rest: &str) -> Result<Option<DirEntry>, NoMemory> {
    match name {
        "create_session" => create_session(alloc, rest),
        "delete_session" => delete_session(alloc, rest),
        "session" => session(alloc, rest),
        "sessions_of_group" => sessions_of_group(alloc, rest),
        "sessions_of_author" => sessions_of_author(alloc, rest),
        _ => Ok(None),
    }
}

fn group_for(alloc: Global, mapper: &str) -> Result<Option<DirEntry>, NoMemory> {
    let mapper = Units::from_str(alloc, mapper)?;
    Ok(Some(DirEntry::GroupFor(mapper, DRAWN)))
}

fn delete_group(alloc: Global, group: &str) -> Result<Option<DirEntry>, NoMemory> {
    let group = Units::from_str(alloc, group)?;
    Ok(Some(DirEntry::DeleteGroup(group)))
}

fn add_group_pad(alloc: Global, rest: &str) -> Result<Option<DirEntry>, NoMemory> {
    let (group, name) = cut_word(rest);
    let group = Units::from_str(alloc, group)?;
    let name = Units::from_str(alloc, name)?;
    Ok(Some(DirEntry::AddGroupPad(group, name)))
}

fn pad(alloc: Global, id: &str) -> Result<Option<PadId>, NoMemory> {
    let id = Units::from_str(alloc, id)?;
    PadId::read(alloc, &id)
}

fn drop_group_pad(alloc: Global, id: &str) -> Result<Option<DirEntry>, NoMemory> {
    let pad = pad(alloc, id)?;
    Ok(pad.map(|pad| DirEntry::DropGroupPad(pad)))
}

fn group_pads(alloc: Global, group: &str) -> Result<Option<DirEntry>, NoMemory> {
    let group = Units::from_str(alloc, group)?;
    Ok(Some(DirEntry::GroupPads(group)))
}

fn create_author(alloc: Global, name: &str) -> Result<Option<DirEntry>, NoMemory> {
    let name = Units::from_str(alloc, name)?;
    Ok(Some(DirEntry::CreateAuthor(name, DRAWN)))
}

fn name_or_none(alloc: Global, name: &str) -> Result<Option<Units>, NoMemory> {
    if name.is_empty() {
        return Ok(None);
    }
    let name = Units::from_str(alloc, name)?;
    Ok(Some(name))
}

fn author_for(alloc: Global, rest: &str) -> Result<Option<DirEntry>, NoMemory> {
    let (mapper, name) = cut_word(rest);
    let mapper = Units::from_str(alloc, mapper)?;
    let name = name_or_none(alloc, name)?;
    Ok(Some(DirEntry::AuthorFor(mapper, name, DRAWN)))
}

fn author_name(alloc: Global, author: &str) -> Result<Option<DirEntry>, NoMemory> {
    let author = Units::from_str(alloc, author)?;
    Ok(Some(DirEntry::AuthorName(author)))
}

fn read_only(alloc: Global, id: &str) -> Result<Option<DirEntry>, NoMemory> {
    let pad = pad(alloc, id)?;
    Ok(pad.map(|pad| DirEntry::ReadOnly(pad, DRAWN)))
}

fn ids(alloc: Global, text: &str) -> Result<Listed<Units>, NoMemory> {
    let mut ids = Listed::new(alloc);
    for id in text.split(',') {
        let id = Units::from_str(alloc, id)?;
        ids.push(id)?;
    }
    Ok(ids)
}

fn grant(alloc: Global, rest: &str) -> Result<Option<DirEntry>, NoMemory> {
    let (asked, rest) = cut_word(rest);
    let (token, rest) = cut_word(rest);
    let (at, sessions) = cut_word(rest);
    let Ok(at) = at.parse::<u64>() else {
        return Ok(None);
    };
    let asked = Units::from_str(alloc, asked)?;
    let sessions = ids(alloc, sessions)?;
    let token = Units::from_str(alloc, token)?;
    Ok(Some(DirEntry::Grant(GrantAsked {
        asked,
        sessions,
        token,
        at,
        drawn: DRAWN,
    })))
}

fn create_session(alloc: Global, rest: &str) -> Result<Option<DirEntry>, NoMemory> {
    let (group, rest) = cut_word(rest);
    let (author, rest) = cut_word(rest);
    let (valid_until, at) = cut_word(rest);
    let (Ok(valid_until), Ok(at)) = (valid_until.parse::<u64>(), at.parse::<u64>()) else {
        return Ok(None);
    };
    let group = Units::from_str(alloc, group)?;
    let author = Units::from_str(alloc, author)?;
    Ok(Some(DirEntry::CreateSession(SessionAsked {
        group,
        author,
        valid_until,
        at,
        drawn: DRAWN,
    })))
}

fn delete_session(alloc: Global, id: &str) -> Result<Option<DirEntry>, NoMemory> {
    let id = Units::from_str(alloc, id)?;
    Ok(Some(DirEntry::DeleteSession(id)))
}

fn session(alloc: Global, id: &str) -> Result<Option<DirEntry>, NoMemory> {
    let id = Units::from_str(alloc, id)?;
    Ok(Some(DirEntry::Session(id)))
}

fn sessions_of_group(alloc: Global, group: &str) -> Result<Option<DirEntry>, NoMemory> {
    let group = Units::from_str(alloc, group)?;
    Ok(Some(DirEntry::SessionsOfGroup(group)))
}

fn sessions_of_author(alloc: Global, author: &str) -> Result<Option<DirEntry>, NoMemory> {
    let author = Units::from_str(alloc, author)?;
    Ok(Some(DirEntry::SessionsOfAuthor(author)))
}

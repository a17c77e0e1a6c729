//! A directory by the calls of its port, and a directory of `ep_house` with two callers at once.

use crate::given::{DRAWN, id};
use ep_groups::{DirBad, DirPort, Listed, SessionInfo};
use ep_house::Directory;
use ep_keep::MapKeeper;
use ep_units::{NoMemory, PadId, Units};
use std::alloc::Global;
use std::process::Abort;
use std::sync::Wait;
use std::test::Fail;
use std::thread::join;

/// Whom the calls are for.
struct Whom {
    word: Units,
    group: Units,
    author: Units,
}

impl Drop for Whom {
    fn drop(self) {
        let Whom {
            word: _,
            group: _,
            author: _,
        } = self;
    }
}

/// How a pad of the group is entered.
struct Entry {
    sessions: [Units; 1],
    pad: PadId,
    read_only: Units,
}

impl Drop for Entry {
    fn drop(self) {
        let Entry {
            sessions: _,
            pad: _,
            read_only: _,
        } = self;
    }
}

fn make_whom(alloc: Global) -> Result<Whom, NoMemory> {
    let word = Units::from_str(alloc, "word")?;
    let group = Units::from_str(alloc, "g.abcdefghij000000")?;
    let author = Units::from_str(alloc, "a.abcdefghij000002")?;
    Ok(Whom {
        word,
        group,
        author,
    })
}

fn make_entry(alloc: Global) -> Result<Entry, NoMemory> {
    let session = Units::from_str(alloc, "s.abcdefghij000004")?;
    let pad = id(alloc, "g.abcdefghij000000$word")?;
    let read_only = Units::from_str(alloc, "r.abcdefghij000005")?;
    Ok(Entry {
        sessions: [session],
        pad,
        read_only,
    })
}

/// What a call answered is this text.
fn says<R: Abort>(rt: &R, alloc: Global, answer: Units, text: &str) -> Result<(), NoMemory> {
    let said = answer.to_text_lossy(alloc)?;
    assert_eq!(rt; said.as_str(), text);
    Ok(())
}

/// What a call answered is this pad.
fn names<R: Abort>(rt: &R, answer: PadId, pad: &PadId) {
    assert_eq!(rt; answer.as_slice(), pad.as_slice());
}

fn author_of(info: SessionInfo) -> Units {
    info.author
}

fn id_of(info: SessionInfo) -> Units {
    info.id
}

fn last<T: Drop>(listed: Listed<T>) -> Result<T, DirBad> {
    let Listed { mut items } = listed;
    let item = items.pop();
    item.ok_or(DirBad::NoGroup)
}

fn groups<R: Wait + Abort, P: DirPort>(
    rt: &R,
    alloc: Global,
    port: &P,
    pass: &mut P::Pass,
    whom: &Whom,
) -> Result<(), DirBad>
    requires { P.is_of port.now pass.old }
    ensures { P.is_of port.now pass.new }
{
    let group = port.create_group(rt, pass, DRAWN)?;
    says(rt, alloc, group, "g.abcdefghij000000")?;
    let group = port.group_for(rt, pass, &whom.word, DRAWN)?;
    says(rt, alloc, group, "g.abcdefghij000001")?;
    let listed = port.groups(rt, pass)?;
    let group = last(listed)?;
    says(rt, alloc, group, "g.abcdefghij000001")?;
    Ok(())
}

fn authors<R: Wait + Abort, P: DirPort>(
    rt: &R,
    alloc: Global,
    port: &P,
    pass: &mut P::Pass,
    whom: &Whom,
) -> Result<(), DirBad>
    requires { P.is_of port.now pass.old }
    ensures { P.is_of port.now pass.new }
{
    let author = port.create_author(rt, pass, &whom.word, DRAWN)?;
    says(rt, alloc, author, "a.abcdefghij000002")?;
    let author = port.author_for(rt, pass, &whom.word, Some(&whom.word), DRAWN)?;
    says(rt, alloc, author, "a.abcdefghij000003")?;
    let name = port.author_name(rt, pass, &whom.author)?;
    says(rt, alloc, name, "word")?;
    Ok(())
}

fn sessions<R: Wait + Abort, P: DirPort>(
    rt: &R,
    alloc: Global,
    port: &P,
    pass: &mut P::Pass,
    whom: &Whom,
    entry: &Entry,
) -> Result<(), DirBad>
    requires { P.is_of port.now pass.old }
    ensures { P.is_of port.now pass.new }
{
    let session = port.create_session(rt, pass, &whom.group, &whom.author, 100, 50, DRAWN)?;
    says(rt, alloc, session, "s.abcdefghij000004")?;
    let session = port.session(rt, pass, &entry.sessions[0])?;
    says(rt, alloc, author_of(session), "a.abcdefghij000002")?;
    Ok(())
}

fn listed_sessions<R: Wait + Abort, P: DirPort>(
    rt: &R,
    alloc: Global,
    port: &P,
    pass: &mut P::Pass,
    whom: &Whom,
) -> Result<(), DirBad>
    requires { P.is_of port.now pass.old }
    ensures { P.is_of port.now pass.new }
{
    let listed = port.sessions_of_group(rt, pass, &whom.group)?;
    let session = last(listed)?;
    says(rt, alloc, id_of(session), "s.abcdefghij000004")?;
    let listed = port.sessions_of_author(rt, pass, &whom.author)?;
    let session = last(listed)?;
    says(rt, alloc, id_of(session), "s.abcdefghij000004")?;
    Ok(())
}

fn pads<R: Wait + Abort, P: DirPort>(
    rt: &R,
    port: &P,
    pass: &mut P::Pass,
    whom: &Whom,
    entry: &Entry,
) -> Result<(), DirBad>
    requires { P.is_of port.now pass.old }
    ensures { P.is_of port.now pass.new }
{
    let pad = port.add_group_pad(rt, pass, &whom.group, &whom.word)?;
    names(rt, pad, &entry.pad);
    let listed = port.group_pads(rt, pass, &whom.group)?;
    let pad = last(listed)?;
    names(rt, pad, &entry.pad);
    Ok(())
}

fn grants<R: Wait + Abort, P: DirPort>(
    rt: &R,
    alloc: Global,
    port: &P,
    pass: &mut P::Pass,
    whom: &Whom,
    entry: &Entry,
) -> Result<(), DirBad>
    requires { P.is_of port.now pass.old }
    ensures { P.is_of port.now pass.new }
{
    let read_only = port.read_only(rt, pass, &entry.pad, DRAWN)?;
    says(rt, alloc, read_only, "r.abcdefghij000005")?;
    let author = granted(rt, port, pass, whom, entry)?;
    says(rt, alloc, author, "a.abcdefghij000002")?;
    Ok(())
}

/// The author of the grant of a read-only id to who has a session.
fn granted<R: Wait, P: DirPort>(
    rt: &R,
    port: &P,
    pass: &mut P::Pass,
    whom: &Whom,
    entry: &Entry,
) -> Result<Units, DirBad>
    requires { P.is_of port.now pass.old }
    ensures { P.is_of port.now pass.new }
{
    let Entry {
        sessions,
        read_only,
        pad: _,
    } = entry;
    let grant = port.grant(rt, pass, read_only, sessions, &whom.word, 60, DRAWN)?;
    Ok(grant.author)
}

fn ends<R: Wait, P: DirPort>(
    rt: &R,
    port: &P,
    pass: &mut P::Pass,
    whom: &Whom,
    entry: &Entry,
) -> Result<(), DirBad>
    requires { P.is_of port.now pass.old }
    ensures { P.is_of port.now pass.new }
{
    port.drop_group_pad(rt, pass, &entry.pad)?;
    port.delete_session(rt, pass, &entry.sessions[0])?;
    port.delete_group(rt, pass, &whom.group)
}

/// Each call of the port answers as it should.
fn all_answer<R: Wait + Abort, P: DirPort>(
    rt: &R,
    alloc: Global,
    port: &P,
    whom: &Whom,
    entry: &Entry,
) -> Result<(), DirBad> {
    let mut pass = port.pass(rt);
    groups(rt, alloc, port, &mut pass, whom)?;
    authors(rt, alloc, port, &mut pass, whom)?;
    sessions(rt, alloc, port, &mut pass, whom, entry)?;
    listed_sessions(rt, alloc, port, &mut pass, whom)?;
    pads(rt, port, &mut pass, whom, entry)?;
    grants(rt, alloc, port, &mut pass, whom, entry)?;
    ends(rt, port, &mut pass, whom, entry)
}

pub fn answers<R: Wait + Abort, P: DirPort>(rt: &R, alloc: Global, port: &P) -> Result<(), DirBad> {
    let whom = make_whom(alloc)?;
    let entry = make_entry(alloc)?;
    all_answer(rt, alloc, port, &whom, &entry)
}

// Makes so many groups by a pass of its own.
fn make_groups<R: Wait, P: DirPort>(rt: &R, port: &P, times: u64) -> Result<(), DirBad> {
    let mut pass = port.pass(rt);
    for _ in 0..times {
        port.create_group(rt, &mut pass, DRAWN)?;
    }
    Ok(())
}

/// How many groups there are.
fn count<R: Wait, P: DirPort>(rt: &R, port: &P) -> Result<usize, DirBad> {
    let mut pass = port.pass(rt);
    let groups = port.groups(rt, &mut pass)?;
    Ok(groups.as_slice().len())
}

#[test]
fn groups_of_two_threads_are_all_there(rt: HostRuntime) -> Result<(), Fail> {
    let alloc = rt.alloc();
    let directory = Directory::open(alloc, MapKeeper::new(alloc, Vec::new(alloc)))?;
    let (one, other) = join(
        &rt,
        || make_groups(&rt, &directory, 50).is_ok(),
        || make_groups(&rt, &directory, 50).is_ok(),
    );
    assert!(&rt; one && other);
    assert!(&rt; matches!(count(&rt, &directory), Ok(100)));
    Ok(())
}

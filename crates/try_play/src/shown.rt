//! Lines of output, as the formats have them.

use crate::printed::is_printed;
use ep_apply::{Doc, apply, fits};
use ep_attr::Attr;
use ep_cs::Change;
use ep_csread::{ReadBad, read};
use ep_event::{Ended, Reason, Shown, State, Verb};
use ep_history::PadBad;
use ep_pool::Pool;
use ep_units::{NoMemory, Session, Units};
use std::alloc::Global;

fn name(alloc: Global) -> Result<Units, NoMemory> {
    Units::from_str(alloc, "Ann1")
}

fn attr(alloc: Global, key: &str, value: &str) -> Result<Attr, NoMemory> {
    let key = Units::from_str(alloc, key)?;
    let value = Units::from_str(alloc, value)?;
    Ok(Attr { key, value })
}

fn put(alloc: Global, pool: &mut Pool, key: &str, value: &str) -> Result<(), NoMemory> {
    let attr = attr(alloc, key, value)?;
    pool.reserve(1)?;
    if pool.len() < 9 {
        pool.put(attr);
    }
    Ok(())
}

/// A pool of three.
fn pool(alloc: Global) -> Result<Pool, NoMemory> {
    let mut pool = Pool::new(alloc);
    put(alloc, &mut pool, "color", "red")?;
    put(alloc, &mut pool, "unused", "1")?;
    put(alloc, &mut pool, "q\"\\\n\tz", "v v")?;
    Ok(pool)
}

/// Two units without attributes, and one with two of a pool of three.
fn change(alloc: Global) -> Result<Change, ReadBad> {
    let pool = pool(alloc)?;
    let text = Units::from_str(alloc, "Z:1>3|1+2*0*2+1$a\n\"")?;
    read(alloc, &text, &pool)
}

/// A newline with the change made to it.
fn doc(alloc: Global) -> Result<Doc, ReadBad> {
    let newline = Doc::newline(alloc)?;
    let change = change(alloc)?;
    if fits(&newline, &change).is_err() {
        return Ok(newline);
    }
    Ok(apply(alloc, &newline, &change)?)
}

fn set(fixed: bool, change: Change) -> Shown {
    Shown::Set {
        rev: 3,
        fixed,
        change,
    }
}

fn taken(verb: Verb, name: Units, rev: u64, fixed: bool, change: Change) -> Shown {
    Shown::Taken {
        verb,
        name,
        rev,
        fixed,
        change,
    }
}

fn remade(verb: Verb, name: Units, change: Change) -> Shown {
    Shown::Remade { verb, name, change }
}

/// What is shown of a change, and how its line begins.
fn of_change(row: u8, name: Units, change: Change) -> (Shown, &'static str) {
    match row {
        0 => (Shown::Created { change }, "create rev 0 "),
        1 => (set(false, change), "set rev 3 "),
        2 => (set(true, change), "set rev 3 fixed "),
        3 => (
            Shown::Submitted {
                name,
                base: 7,
                change,
            },
            "submit Ann1 base 7 ",
        ),
        4 => (
            taken(Verb::Take, name, 10, false, change),
            "take Ann1 rev 10 ",
        ),
        5 => (remade(Verb::Undo, name, change), "undo Ann1 "),
        6 => (remade(Verb::Redo, name, change), "redo Ann1 "),
        _ => (
            taken(Verb::Late, name, 1, true, change),
            "late Ann1 rev 1 fixed ",
        ),
    }
}

fn prints_change(alloc: Global, row: u8) -> Result<bool, ReadBad> {
    let name = name(alloc)?;
    let (shown, start) = of_change(row, name, change(alloc)?);
    let spelled = "Z:1>3|1+2*0*1+1$a\\n\\\"\n";
    Ok(is_printed(alloc, shown, start, spelled)?)
}

#[test]
fn changes(rt: HostRuntime) {
    for row in 0..8 {
        assert_eq!(rt; prints_change(rt.alloc(), row), Ok(true), "row {row}");
    }
}

const TEXT: &str = "\"a\\n\\\"\\n\"\n";

const MARKS: &str =
    "|1+2*0*1+1|1+1 {\"nextNum\":2,\"numToAttrib\":{\"0\":[\"color\",\"red\"],\"1\":[\"q\\\"\\\\\\n\\tz\",\"v v\"]}}\n";

const NO_MARKS: &str = " {\"nextNum\":0,\"numToAttrib\":{}}\n";

/// What is shown of a client's view, and how its line begins.
fn of_view(row: u8, name: Units, doc: Doc) -> (Shown, &'static str) {
    let (rev, state, start) = match row {
        0 => (0, State::Clean, "show Ann1 rev 0 clean "),
        1 => (11, State::Sent, "show Ann1 rev 11 sent "),
        2 => (2, State::Local, "show Ann1 rev 2 local "),
        _ => (5, State::Both, "show Ann1 rev 5 both "),
    };
    let shown = Shown::View {
        name,
        rev,
        state,
        doc,
    };
    (shown, start)
}

fn prints_view(alloc: Global, row: u8) -> Result<bool, ReadBad> {
    let name = name(alloc)?;
    let (shown, start) = of_view(row, name, doc(alloc)?);
    Ok(is_printed(alloc, shown, start, TEXT)?)
}

#[test]
fn views(rt: HostRuntime) {
    for row in 0..4 {
        assert_eq!(rt; prints_view(rt.alloc(), row), Ok(true), "row {row}");
    }
}

/// What is shown of a document, how its line begins, and what it has behind that.
fn of_document(row: u8, name: Units, doc: Doc) -> (Shown, &'static str, &'static str) {
    match row {
        0 => (Shown::Head { rev: 12, doc }, "head 12 ", TEXT),
        1 => (Shown::Text { rev: 2, doc }, "text 2 ", TEXT),
        2 => (Shown::HeadMarks { rev: 4, doc }, "marks 4 ", MARKS),
        _ => (Shown::ViewMarks { name, doc }, "marks Ann1 ", MARKS),
    }
}

fn prints_document(alloc: Global, row: u8) -> Result<bool, ReadBad> {
    let name = name(alloc)?;
    let (shown, start, rest) = of_document(row, name, doc(alloc)?);
    Ok(is_printed(alloc, shown, start, rest)?)
}

fn prints_no_marks(alloc: Global) -> Result<bool, NoMemory> {
    let shown = Shown::ViewMarks {
        name: name(alloc)?,
        doc: Doc::empty(alloc),
    };
    is_printed(alloc, shown, "marks Ann1 ", NO_MARKS)
}

#[test]
fn documents(rt: HostRuntime) {
    for row in 0..4 {
        assert_eq!(rt; prints_document(rt.alloc(), row), Ok(true), "row {row}");
    }
    assert_eq!(rt; prints_no_marks(rt.alloc()), Ok(true));
}

/// What is shown that names nobody, and its line.
fn of_nobody(row: u8) -> (Shown, &'static str) {
    match row {
        0 => (
            Shown::Done {
                verb: Verb::Drop,
                name: None,
            },
            "drop ok\n",
        ),
        1 => (
            Shown::Refused {
                verb: Verb::Set,
                name: None,
                why: Reason::Pad(PadBad::Gone),
            },
            "set refused gone\n",
        ),
        2 => (Shown::Attr { number: 3 }, "attr 3\n"),
        3 => (
            Shown::Crashed {
                epoch: 2,
                head: None,
            },
            "crash epoch 2 absent\n",
        ),
        4 => (
            Shown::Crashed {
                epoch: 2,
                head: Some(0),
            },
            "crash epoch 2 head 0\n",
        ),
        5 => (Shown::Gone { verb: Verb::Head }, "head gone\n"),
        6 => (Shown::TextGone { rev: 1 }, "text 1 gone\n"),
        _ => (Shown::NoRev { rev: 4, head: 2 }, "text 4 norev 2\n"),
    }
}

fn prints_nobody(alloc: Global, row: u8) -> Result<bool, NoMemory> {
    let (shown, line) = of_nobody(row);
    is_printed(alloc, shown, line, "")
}

#[test]
fn lines_of_nobody(rt: HostRuntime) {
    for row in 0..8 {
        assert_eq!(rt; prints_nobody(rt.alloc(), row), Ok(true), "row {row}");
    }
}

/// What is shown of a session, and its line.
fn of_session(row: u8, name: Units) -> (Shown, &'static str) {
    let session = Session { epoch: 1, count: 2 };
    match row {
        0 => (
            Shown::Entered {
                verb: Verb::Guest,
                name,
                session,
                rev: 30,
            },
            "guest Ann1 1.2 rev 30\n",
        ),
        _ => (
            Shown::Resumed {
                name,
                session,
                head: 7,
            },
            "resume Ann1 1.2 head 7\n",
        ),
    }
}

fn prints_session(alloc: Global, row: u8) -> Result<bool, NoMemory> {
    let (shown, line) = of_session(row, name(alloc)?);
    is_printed(alloc, shown, line, "")
}

#[test]
fn sessions(rt: HostRuntime) {
    for row in 0..2 {
        assert_eq!(rt; prints_session(rt.alloc(), row), Ok(true), "row {row}");
    }
}

/// What is answered to a client, and its line.
fn of_answer(row: u8, name: Units) -> (Shown, &'static str) {
    match row {
        0 => (
            Shown::Done {
                verb: Verb::Format,
                name: Some(name),
            },
            "format Ann1 ok\n",
        ),
        1 => (
            Shown::Nothing {
                verb: Verb::Submit,
                name,
            },
            "submit Ann1 none\n",
        ),
        _ => (
            Shown::Refused {
                verb: Verb::Resume,
                name: Some(name),
                why: Reason::Pad(PadBad::JournalFull(70)),
            },
            "resume Ann1 refused full 70\n",
        ),
    }
}

fn prints_answer(alloc: Global, row: u8) -> Result<bool, NoMemory> {
    let (shown, line) = of_answer(row, name(alloc)?);
    is_printed(alloc, shown, line, "")
}

#[test]
fn answers(rt: HostRuntime) {
    for row in 0..3 {
        assert_eq!(rt; prints_answer(rt.alloc(), row), Ok(true), "row {row}");
    }
}

/// What a client is sent or hears, and its line.
fn of_news(row: u8, name: Units) -> (Shown, &'static str) {
    match row {
        0 => (
            Shown::Noted {
                verb: Verb::Hear,
                name,
                rev: 2,
            },
            "hear Ann1 nop 2\n",
        ),
        1 => (Shown::Pushed { name, rev: 4 }, "push Ann1 4\n"),
        2 => (Shown::Committed { name, rev: 5 }, "hear Ann1 commit 5\n"),
        3 => (Shown::Heard { name, rev: 6 }, "hear Ann1 new 6\n"),
        4 => (
            Shown::Closed {
                verb: Verb::Push,
                name,
                word: Ended::UserDup,
            },
            "push Ann1 closed userdup\n",
        ),
        _ => (
            Shown::Closed {
                verb: Verb::Hear,
                name,
                word: Ended::BadChangeset,
            },
            "hear Ann1 closed badChangeset\n",
        ),
    }
}

fn prints_news(alloc: Global, row: u8) -> Result<bool, NoMemory> {
    let (shown, line) = of_news(row, name(alloc)?);
    is_printed(alloc, shown, line, "")
}

#[test]
fn news(rt: HostRuntime) {
    for row in 0..6 {
        assert_eq!(rt; prints_news(rt.alloc(), row), Ok(true), "row {row}");
    }
}

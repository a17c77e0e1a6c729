//! A client whose user takes back what it did, and makes it again.

use ep_apply::{Doc, apply, fits};
use ep_attr::AttrMap;
use ep_client::{Client, ClientBad, Heard, Told};
use ep_cs::{Change, MOST_UNITS};
use ep_invert::{SpliceBad, splice};
use ep_undo::UndoClient;
use ep_units::{NoMemory, Session, Units};
use std::alloc::Global;
use std::test::Fail;

const OWN: Session = Session { epoch: 1, count: 1 };

const OTHER: Session = Session { epoch: 1, count: 2 };

const AGAIN: Session = Session { epoch: 1, count: 3 };

/// What happens to a client.
#[derive(Clone, Copy, Debug)]
enum Step {
    /// Its user puts a text in the place of so many units.
    Edits(u32, u32, &'static str),
    /// It submits, and that becomes a revision.
    Commits(u64),
    /// Another's revision inserts a text.
    News(u64, u32, &'static str),
    /// Its connection is lost, and it comes back.
    Returns,
    Undoes,
    Redoes,
}

/// Why a step isn't taken.
#[derive(Clone, Copy, Debug, PartialEq, Eq)]
enum StepBad {
    NoMemory,
    /// It is refused for what it is.
    Refused,
    /// Memory was wanting, and the client isn't as it was before.
    Changed,
}

impl From<NoMemory> for StepBad {
    fn from(_error: NoMemory) -> StepBad {
        StepBad::NoMemory
    }
}

impl From<ClientBad> for StepBad {
    fn from(bad: ClientBad) -> StepBad {
        match bad {
            ClientBad::NoMemory => StepBad::NoMemory,
            _ => StepBad::Refused,
        }
    }
}

impl From<SpliceBad> for StepBad {
    fn from(bad: SpliceBad) -> StepBad {
        match bad {
            SpliceBad::NoMemory => StepBad::NoMemory,
            _ => StepBad::Refused,
        }
    }
}

fn spliced(alloc: Global, doc: &Doc, at: u32, units: u32, text: &str) -> Result<Change, SpliceBad> {
    let text = Units::from_str(alloc, text)?;
    if text.len() > (MOST_UNITS - doc.len()) as usize {
        return Err(SpliceBad::NoMemory);
    }
    splice(alloc, doc, at, units, &text, &AttrMap::none(alloc))
}

fn edit(
    alloc: Global,
    client: &mut UndoClient,
    at: u32,
    units: u32,
    text: &str,
) -> Result<bool, StepBad> {
    let change = spliced(alloc, client.client().view(), at, units, text)?;
    client.edit(alloc, &change)?;
    Ok(true)
}

/// It submits, where it hasn't yet, and hears of that.
fn commit(alloc: Global, client: &mut UndoClient, rev: u64) -> Result<bool, StepBad> {
    if client.client().submitted().1.is_none() {
        client.submit(alloc)?;
    }
    let submits = client.client().submitted().1.is_some();
    let told = client.hear(alloc, &Heard::Commit { rev })?;
    Ok(submits && told == Told::Commit)
}

/// Another's insertion into what the client shows, all of which is committed.
fn hear(
    alloc: Global,
    client: &mut UndoClient,
    rev: u64,
    at: u32,
    text: &str,
) -> Result<bool, StepBad> {
    let news = Heard::Rev {
        rev,
        change: spliced(alloc, client.client().view(), at, 0, text)?,
        session: OTHER,
    };
    Ok(client.hear(alloc, &news)? == Told::News)
}

/// Whether the step did something.
fn take(alloc: Global, client: &mut UndoClient, step: Step) -> Result<bool, StepBad> {
    match step {
        Step::Edits(at, units, text) => edit(alloc, client, at, units, text),
        Step::Commits(rev) => commit(alloc, client, rev),
        Step::News(rev, at, text) => hear(alloc, client, rev, at, text),
        Step::Returns => {
            client.lost();
            client.resume(AGAIN, 0);
            Ok(true)
        }
        Step::Undoes => Ok(client.undo(alloc)?.is_some()),
        Step::Redoes => Ok(client.redo(alloc)?.is_some()),
    }
}

fn shows(alloc: Global, client: &UndoClient, text: &str) -> Result<bool, NoMemory> {
    let shown = client.client().view().text(alloc)?;
    let text = Units::from_str(alloc, text)?;
    Ok(shown.as_slice() == text.as_slice())
}

/// Takes a step. Where memory is wanting the client is as before, and takes it again.
fn take_once(
    alloc: Global,
    client: &mut UndoClient,
    step: Step,
    before: &str,
) -> Result<bool, StepBad> {
    let can = (client.can_undo(), client.can_redo());
    let taken = take(alloc, client, step);
    if taken != Err(StepBad::NoMemory) {
        return taken;
    }
    if !shows(alloc, client, before)? || (client.can_undo(), client.can_redo()) != can {
        return Err(StepBad::Changed);
    }
    take(alloc, client, step)
}

/// A text and a newline.
fn text(alloc: Global, text: &str) -> Result<Doc, Fail> {
    let line = Doc::newline(alloc)?;
    let change = spliced(alloc, &line, 0, 0, text)?;
    fits(&line, &change)?;
    Ok(apply(alloc, &line, &change)?)
}

fn started(alloc: Global, doc: Doc) -> Result<UndoClient, NoMemory> {
    Ok(UndoClient::start(alloc, Client::start(alloc, doc, 0, OWN)?))
}

/// Whether a client shows these texts behind the steps, the first one before them, and just those steps that say so did
/// something.
fn comes_out(
    alloc: Global,
    client: &mut UndoClient,
    start: &str,
    steps: &[(Step, bool, &str)],
) -> Result<bool, StepBad> {
    let mut before = start;
    for (step, does, shown) in steps {
        if take_once(alloc, client, *step, before)? != *does || !shows(alloc, client, shown)? {
            return Ok(false);
        }
        before = *shown;
    }
    Ok(true)
}

/// Another inserts a Z in the midst of its own text, which goes and comes back round the Z, also in a later session.
#[test]
fn only_its_own_text_goes_and_comes_back(rt: HostRuntime) -> Result<(), Fail> {
    let steps = [
        (Step::Undoes, false, "ab\n"),
        (Step::Edits(1, 0, "XY"), true, "aXYb\n"),
        (Step::Commits(1), true, "aXYb\n"),
        (Step::News(2, 2, "Z"), true, "aXZYb\n"),
        (Step::Undoes, true, "aZb\n"),
        (Step::Redoes, true, "aXZYb\n"),
        (Step::Redoes, false, "aXZYb\n"),
        (Step::Returns, true, "aXZYb\n"),
        (Step::Undoes, true, "aZb\n"),
        (Step::Undoes, false, "aZb\n"),
    ];
    let alloc = rt.alloc();
    let mut client = started(alloc, text(alloc, "ab")?)?;
    assert!(rt; comes_out(alloc, &mut client, "ab\n", &steps)?);
    Ok(())
}

/// What it inserted and then deleted takes two undos, and an edit leaves nothing to be made again.
#[test]
fn one_after_the_other(rt: HostRuntime) -> Result<(), Fail> {
    let steps = [
        (Step::Edits(0, 0, "a"), true, "ab\n"),
        (Step::Edits(0, 1, ""), true, "b\n"),
        (Step::Undoes, true, "ab\n"),
        (Step::Undoes, true, "b\n"),
        (Step::Redoes, true, "ab\n"),
        (Step::Edits(2, 0, "c"), true, "abc\n"),
        (Step::Redoes, false, "abc\n"),
        (Step::Undoes, true, "ab\n"),
    ];
    let alloc = rt.alloc();
    let mut client = started(alloc, text(alloc, "b")?)?;
    assert!(rt; comes_out(alloc, &mut client, "b\n", &steps)?);
    Ok(())
}

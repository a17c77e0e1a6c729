//! A client that types while another does, is lost, and hears its commit.

use ep_apply::Doc;
use ep_client::{Client, ClientBad, Heard, Told};
use ep_cs::Change;
use ep_units::{NoMemory, Session};
use std::alloc::Global;
use std::test::Fail;

/// The change that inserts one newline into an empty document.
fn line(alloc: Global) -> Result<Change, NoMemory> {
    let newline = Doc::newline(alloc)?;
    newline.as_insert(alloc)
}

fn type_line(alloc: Global, client: &mut Client) -> Result<(), ClientBad> {
    let line = line(alloc)?;
    client.edit(alloc, &line)
}

/// The revision and the session with which a client submits.
fn submit(alloc: Global, client: &mut Client) -> Result<Option<(u64, Session)>, NoMemory> {
    match client.submit(alloc)? {
        None => Ok(None),
        Some(sent) => Ok(Some((sent.base, sent.session))),
    }
}

/// A client hears that a session has made the first revision, one newline.
fn hear_line(alloc: Global, client: &mut Client, session: Session) -> Result<Told, ClientBad> {
    let news = Heard::Rev {
        rev: 1,
        change: line(alloc)?,
        session,
    };
    client.hear(alloc, &news)
}

fn hear_commit(alloc: Global, client: &mut Client, rev: u64) -> Result<Told, ClientBad> {
    client.hear(alloc, &Heard::Commit { rev })
}

fn hear_nop(alloc: Global, client: &mut Client, rev: u64) -> Result<Told, ClientBad> {
    client.hear(alloc, &Heard::Nop { rev })
}

/// Each call once, with ample memory. A line is typed while another's comes in; the connection is lost before the
/// commit is heard.
#[test]
fn typed_submitted_lost_and_committed(rt: HostRuntime) -> Result<(), Fail> {
    let alloc = rt.alloc();
    let own = Session { epoch: 1, count: 1 };
    let other = Session { epoch: 1, count: 2 };
    let again = Session { epoch: 1, count: 3 };
    let mut client = Client::start(alloc, Doc::empty(alloc), 0, own)?;
    assert_eq!(rt; type_line(alloc, &mut client), Ok(()));
    assert_eq!(rt; submit(alloc, &mut client), Ok(Some((0, own))));
    assert_eq!(rt; hear_line(alloc, &mut client, other), Ok(Told::News));
    client.lost();
    client.resume(again, 1);
    assert_eq!(rt; submit(alloc, &mut client), Ok(Some((1, again))));
    assert_eq!(rt; hear_commit(alloc, &mut client, 2), Ok(Told::Commit));
    assert_eq!(rt; (client.rev(), client.view().len()), (2, 2));
    assert_eq!(rt; client.pending(), (false, false));
    assert_eq!(rt;
        hear_nop(alloc, &mut client, 2),
        Err(ClientBad::NotSubmitted)
    );
    Ok(())
}

//! Writers over a link and a source in memory.

use crate::messages::{COMMIT_1, DENY, EMPTY, coming};
use ep_disk_mem::MemSource;
use ep_link::{Coming, MemLink, Passed};
use ep_peer::{PeerBad, Reason, Written, write_session};
use ep_units::{NoMemory, Units};
use std::alloc::Global;
use std::sync::Wait;
use std::test::Fail;

const HI: &str =
    r#"{"data":{"birth":1,"collab_client_vars":{"apool":{"nextNum":0,"numToAttrib":{}},"initialAttributedText":{"attribs":"|1+3","text":"hi\n"},"rev":0,"time":5},"padId":"p","readonly":false,"session":"1.1","userId":"a.1"},"type":"CLIENT_VARS"}"#;

// Another's text at the front of an empty pad.
const NEWS: &str =
    r#"{"data":{"apool":{"nextNum":0,"numToAttrib":{}},"author":"a.2","changeset":"Z:1>1+1$x","currentTime":6,"newRev":1,"session":"1.2","timeDelta":1,"type":"NEW_CHANGES"},"type":"COLLABROOM"}"#;

// Another drops `hi`.
const DROPPED: &str =
    r#"{"data":{"apool":{"nextNum":0,"numToAttrib":{}},"author":"a.2","changeset":"Z:3<2-2$","currentTime":6,"newRev":1,"session":"1.2","timeDelta":1,"type":"NEW_CHANGES"},"type":"COLLABROOM"}"#;

const COMMIT_2: &str =
    r#"{"data":{"newRev":2,"session":"1.1","type":"ACCEPT_COMMIT"},"type":"COLLABROOM"}"#;

const COMMIT_3: &str =
    r#"{"data":{"newRev":3,"session":"1.1","type":"ACCEPT_COMMIT"},"type":"COLLABROOM"}"#;

/// What a writer sends beside another.
const SENT: [&str; 3] = [
    r#"{"padId":"p","token":"t.1","type":"CLIENT_READY"}"#,
    r#"{"data":{"apool":{"nextNum":0,"numToAttrib":{}},"baseRev":0,"changeset":"Z:1>2+2$hi","type":"USER_CHANGES"},"type":"COLLABROOM"}"#,
    r#"{"data":{"apool":{"nextNum":0,"numToAttrib":{}},"baseRev":2,"changeset":"Z:4>1=2+1$!","type":"USER_CHANGES"},"type":"COLLABROOM"}"#,
];

/// The revision and the text that a writer ends with, or why it stops.
type End<'a> = Result<(u64, &'a str), &'a str>;

/// A link on which at first nothing comes, and then these messages. Its calls of these numbers fail.
fn link(alloc: Global, texts: &[&str], fails: &[u64]) -> Result<MemLink, NoMemory> {
    let mut coming = coming(alloc, texts)?;
    coming.push_front(Coming::Nothing)?;
    Ok(MemLink::new(alloc, coming, Vec::from_slice(alloc, fails)?))
}

/// A source of a script. Its reads of these numbers fail.
fn source(alloc: Global, script: &str, fails: &[u64]) -> Result<MemSource, NoMemory> {
    let bytes = Vec::from_slice(alloc, script.as_bytes())?;
    Ok(MemSource::new(bytes, Vec::from_slice(alloc, fails)?))
}

/// What a writer answers.
fn write<R: Wait>(
    rt: &R,
    alloc: Global,
    link: &mut MemLink,
    source: &mut MemSource,
) -> Result<Result<Written, PeerBad>, NoMemory> {
    let pad = Units::from_str(alloc, "p")?;
    let token = Units::from_str(alloc, "t.1")?;
    Ok(write_session(rt, alloc, link, source, &pad, &token))
}

/// Why a writer stops, in a word.
fn word(bad: &PeerBad) -> &str {
    match bad {
        PeerBad::Script(1, Reason::Place) => "place 1",
        PeerBad::Script(2, Reason::Syntax) => "syntax 2",
        PeerBad::Script(_, _) => "script",
        PeerBad::SourceFault(_) => "source",
        PeerBad::LinkFault(_) => "link",
        PeerBad::LinkClosed => "closed",
        PeerBad::Refused(text) => text.as_str(),
        PeerBad::Wire(_) => "wire",
        PeerBad::Heard(_) => "heard",
        PeerBad::Turn => "turn",
        PeerBad::NoMemory => "no memory",
    }
}

fn is_end(alloc: Global, answer: &Result<Written, PeerBad>, wanted: End) -> Result<bool, NoMemory> {
    match (answer, wanted) {
        (Ok(written), Ok((rev, text))) => {
            let is_text = written.text.to_text_lossy(alloc)?.as_str() == text;
            Ok(is_text && written.rev == rev)
        }
        (Err(bad), Err(why)) => Ok(word(bad) == why),
        _ => Ok(false),
    }
}

/// What a writer of a script on a link ends with.
fn ends_so<R: Wait>(
    rt: &R,
    alloc: Global,
    link: &mut MemLink,
    source: &mut MemSource,
    wanted: End,
) -> Result<bool, NoMemory> {
    let answer = write(rt, alloc, link, source)?;
    is_end(alloc, &answer, wanted)
}

/// Whether these messages were sent, and no others.
fn has_sent(link: &MemLink, wanted: &[&str]) -> bool {
    let sent = link.passed().iter().filter_map(|passed| match passed {
        Passed::Sent(text) => Some(text.as_str()),
        Passed::Got(_) => None,
    });
    sent.eq(wanted.iter().copied())
}

/// Another's text comes in while a line waits; a line that alters nothing is not sent.
#[test]
fn writes_beside_another(rt: HostRuntime) -> Result<(), Fail> {
    let alloc = rt.alloc();
    let mut link = link(alloc, &[EMPTY, NEWS, COMMIT_2, COMMIT_3], &[])?;
    let script = "# to an empty pad\ninsert 0 hi\n\ndelete 1 0\ninsert 2 !\n";
    let mut source = source(alloc, script, &[])?;
    assert!(rt; ends_so(&rt, alloc, &mut link, &mut source, Ok((3, "xh!i\n")))?);
    assert!(rt; has_sent(&link, &SENT));
    Ok(())
}

/// Whether a writer of a script ends so, where these messages come, and these calls of the link and these reads fail.
fn ends<R: Wait>(
    rt: &R,
    alloc: Global,
    texts: &[&str],
    script: &str,
    fails: (&[u64], &[u64]),
    wanted: End,
) -> Result<bool, NoMemory> {
    let mut link = link(alloc, texts, fails.0)?;
    let mut source = source(alloc, script, fails.1)?;
    ends_so(rt, alloc, &mut link, &mut source, wanted)
}

/// A line to an empty pad; and one that has become nothing, which a commit of the revision that was heard last says.
#[test]
fn ends_with_what_it_sees(rt: HostRuntime) -> Result<(), Fail> {
    for (texts, script, text) in [
        ([EMPTY, COMMIT_1].as_slice(), "insert 0 hi", "hi\n"),
        (&[HI, DROPPED, COMMIT_1], "delete 0 2", "\n"),
    ] {
        let wanted = Ok((1, text));
        assert!(rt;
            ends(&rt, rt.alloc(), texts, script, (&[], &[]), wanted)?,
            "at {script}"
        );
    }
    Ok(())
}

/// Each cause once.
#[test]
fn stops_by_its_cause(rt: HostRuntime) -> Result<(), Fail> {
    const NEVER: (&[u64], &[u64]) = (&[], &[]);
    for (texts, script, fails, wanted) in [
        (
            [EMPTY, COMMIT_1].as_slice(),
            "insert 0 a",
            NEVER,
            Ok((1, "a\n")),
        ),
        (&[EMPTY], "insert 9 x", NEVER, Err("place 1")),
        (&[EMPTY], "\nhead", NEVER, Err("syntax 2")),
        (&[EMPTY], "insert 0 a", NEVER, Err("closed")),
        (&[DENY], "insert 0 a", NEVER, Err(DENY)),
        (&["{}"], "insert 0 a", NEVER, Err("wire")),
        (&[EMPTY, COMMIT_3], "insert 0 a", NEVER, Err("heard")),
        (&[EMPTY, EMPTY], "insert 0 a", NEVER, Err("turn")),
        (&[EMPTY], "insert 0 a", (&[2], &[]), Err("link")),
        (&[EMPTY], "insert 0 a", (&[], &[1]), Err("source")),
    ] {
        assert!(rt;
            ends(&rt, rt.alloc(), texts, script, fails, wanted)?,
            "at {wanted:?}"
        );
    }
    Ok(())
}

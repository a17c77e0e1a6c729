//! What a server's message is to a client.

ghost use Rattle.std.specs.Prelude.{◌≡◌};
ghost use Rattle.ep_hearing.specs.Meaning.{accepted, meant};

use ep_apply::Doc;
use ep_client::Heard;
use ep_cs::Change;
use ep_units::{Session, Units};
use ep_wire_words::{Listed, ServerMsg, Word};

/// The pad as it stands, with which a client starts.
#[derive(Drop)]
pub struct Welcome {
    /// Who the client is.
    pub author: Units,
    pub read_only: bool,
    pub session: Session,
    pub birth: u64,
    pub rev: u64,
    pub doc: Doc,
}

/// The next revision: its change of the document before it, the session that made it, and its author.
#[derive(Drop)]
pub struct News {
    pub rev: u64,
    pub change: Change,
    pub session: Session,
    pub by: Units,
}

/// A client is connected again: its session, and the birth of the pad with its head.
#[derive(Clone, Copy, Debug, PartialEq, Eq)]
pub struct Back {
    pub session: Session,
    pub birth: u64,
    pub head: u64,
}

/// Steps of the history.
#[derive(Drop)]
pub struct Slid {
    pub start: u64,
    pub reached: u64,
    pub granularity: u64,
    pub request: u64,
    pub forward: Listed<Change>,
    pub backward: Listed<Change>,
}

/// What a message is to a client.
#[derive(Drop)]
pub enum Meaning {
    Welcome(Welcome),
    /// Its submission is committed, or has become nothing.
    Own(Heard),
    /// The next revision.
    News(News),
    /// The next revision, to a client that comes back; or that it has heard all.
    Back(Back, Option<News>),
    Slid(Slid),
    Closing(Word),
}

/// A commit that names the client's own revision says that its submission has become nothing.
fn accepted(heard: u64, rev: u64) -> Heard
    ensures { result ≡ accepted heard rev }
{
    if rev == heard {
        Heard::Nop { rev }
    } else {
        Heard::Commit { rev }
    }
}

/// What a message is to a client that has heard this revision last.
pub fn meant(heard: u64, msg: ServerMsg) -> Meaning
    ensures { result ≡ meant heard msg }
{
    match msg {
        ServerMsg::Vars {
            author,
            read_only,
            session,
            birth,
            rev,
            doc,
            ..
        } => Meaning::Welcome(Welcome {
            author,
            read_only,
            session,
            birth,
            rev,
            doc,
        }),
        ServerMsg::Accepted { rev, .. } => Meaning::Own(accepted(heard, rev)),
        ServerMsg::News {
            rev,
            change,
            author,
            session,
            ..
        } => Meaning::News(News {
            rev,
            change,
            session,
            by: author,
        }),
        ServerMsg::Reconnect {
            current,
            birth,
            head,
            rev,
            change,
            author,
            session,
            ..
        } => Meaning::Back(
            Back {
                session: current,
                birth,
                head,
            },
            Some(News {
                rev,
                change,
                session,
                by: author,
            }),
        ),
        ServerMsg::ReconnectNone {
            current,
            birth,
            head,
            ..
        } => Meaning::Back(
            Back {
                session: current,
                birth,
                head,
            },
            None,
        ),
        ServerMsg::Slid {
            start,
            reached,
            granularity,
            request,
            forward,
            backward,
        } => Meaning::Slid(Slid {
            start,
            reached,
            granularity,
            request,
            forward,
            backward,
        }),
        ServerMsg::Closing(word) => Meaning::Closing(word),
    }
}

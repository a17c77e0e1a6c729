//! Why a session ended.

ghost use Rattle.std.specs.Prelude.{◌≡◌, Option};
ghost use Rattle.ep_session.specs.Ends.{closing_of, end_of_dead, is_gone, is_left};

use ep_dir_records::DirBad;
use ep_history::Why;
use ep_pad::PadBad;
use ep_slider::SlideBad;
use ep_units::{NoMemory, Session, Units};
use ep_wire_words::{WireBad, Word};

/// What was wrong with a message, or with the answer to it.
#[derive(Clone, Copy, Debug, PartialEq, Eq)]
pub enum BadKind {
    /// The first message is another one than it has to be, or a later one is a first one.
    NotReady,
    Binary,
    Wire(WireBad),
    Edit(PadBad),
    Slide(SlideBad),
}

/// Why a session ended.
#[derive(Drop)]
pub enum End {
    /// The other side is gone.
    Closed,
    Bad(BadKind),
    /// The author's newer session is this one.
    Replaced(Session),
    /// The pad of this birth was deleted.
    Deleted(u64),
    /// The pad was opened again, for the time of this number.
    Reopened(u64),
    /// Denied by the rule of this number.
    Denied(u64),
    /// There are so many sessions.
    Full(u64),
    Gone,
    /// The client's revision is above this head.
    BadRev(u64),
    /// So many pads are open.
    Pads(u64),
    IdsSpent,
    /// The journal would have so many bytes.
    JournalFull(u64),
    /// What is kept of the pad is broken.
    Broken(PadBad),
    /// What the directory keeps under this key is broken.
    Kept(Units),
    /// A refusal of the directory that it has for other calls, and that a keeper which tells never leads to.
    Directory(DirBad),
    LinkFault(u64),
    StoreFault(u64),
    ShelfFault(u64),
    KeeperFault(u64),
    NoMemory,
}

impl From<DirBad> for End {
    ghost use Rattle.std.specs.Prelude.{◌≡◌};
    ghost use Rattle.ep_session.specs.Ends.{end_of_dir};

    ghost from_gives = { λ bad e. e ≡ end_of_dir bad };

    fn from(bad: DirBad) -> End {
        match bad {
            DirBad::Keeper(count) => End::KeeperFault(count),
            DirBad::IdsSpent => End::IdsSpent,
            DirBad::Denied(rule) => End::Denied(rule),
            DirBad::Kept(key) => End::Kept(key),
            DirBad::NoMemory => End::NoMemory,
            DirBad::NoGroup => End::Directory(DirBad::NoGroup),
            DirBad::NoAuthor => End::Directory(DirBad::NoAuthor),
            DirBad::NoSession => End::Directory(DirBad::NoSession),
            DirBad::Past(now) => End::Directory(DirBad::Past(now)),
            DirBad::BadName => End::Directory(DirBad::BadName),
        }
    }
}

impl From<WireBad> for End {
    ghost use Rattle.std.specs.Prelude.{◌≡◌};
    ghost use Rattle.ep_session.specs.Ends.{end_of_wire};

    ghost from_gives = { λ bad e. e ≡ end_of_wire bad };

    fn from(bad: WireBad) -> End {
        match bad {
            WireBad::NoMemory => End::NoMemory,
            _ => End::Bad(BadKind::Wire(bad)),
        }
    }
}

impl From<NoMemory> for End {
    ghost use Rattle.std.specs.Prelude.{◌≡◌};
    ghost use Rattle.ep_session.specs.declared.end.End.TheVariants as ends;

    ghost from_gives = { λ _ e. e ≡ ends.NoMemory };

    fn from(_error: NoMemory) -> End {
        End::NoMemory
    }
}

fn dead(why: Why) -> End
    ensures { result ≡ end_of_dead why }
{
    match why {
        Why::Replaced(by) => End::Replaced(by),
        Why::Deleted(birth) => End::Deleted(birth),
        Why::Reopened(epoch) => End::Reopened(epoch),
        Why::Left => End::Bad(BadKind::Edit(PadBad::Dead(Why::Left))),
    }
}

impl From<PadBad> for End {
    ghost use Rattle.std.specs.Prelude.{◌≡◌};
    ghost use Rattle.ep_session.specs.Ends.{end_of};

    ghost from_gives = { λ bad e. e ≡ end_of bad };

    fn from(bad: PadBad) -> End {
        match bad {
            PadBad::Dead(why) => dead(why),
            PadBad::Denied(rule) => End::Denied(rule),
            PadBad::Full(n) => End::Full(n),
            PadBad::Gone => End::Gone,
            PadBad::BadRev(head) => End::BadRev(head),
            PadBad::JournalFull(bytes) => End::JournalFull(bytes),
            PadBad::Store(count) => End::StoreFault(count),
            PadBad::Foreign | PadBad::BadRecord(_) => End::Broken(bad),
            PadBad::NoMemory => End::NoMemory,
            PadBad::NoRev(_)
            | PadBad::Exists
            | PadBad::ReadOnly
            | PadBad::NoBase(_)
            | PadBad::Author(_)
            | PadBad::Fit(_)
            | PadBad::TooLong(_) => End::Bad(BadKind::Edit(bad)),
        }
    }
}

impl End {
    /// What the closing says, where it has one.
    pub fn closing(&self) -> Option<Word>
        ensures { result ≡ closing_of self.now }
    {
        match self {
            End::Replaced(_) => Some(Word::UserDup),
            End::Deleted(_) | End::Gone => Some(Word::Deleted),
            End::Bad(bad) => match bad {
                BadKind::Edit(PadBad::NoRev(_)) => Some(Word::BadMessage),
                BadKind::Edit(_) => Some(Word::BadChangeset),
                BadKind::Wire(WireBad::Pool(_) | WireBad::Changeset(_)) => Some(Word::BadChangeset),
                BadKind::Wire(_) | BadKind::NotReady | BadKind::Binary | BadKind::Slide(_) => {
                    Some(Word::BadMessage)
                }
            },
            End::BadRev(_) => Some(Word::BadMessage),
            End::Denied(_) => Some(Word::Deny),
            End::Full(_) | End::Pads(_) | End::IdsSpent | End::JournalFull(_) => Some(Word::Full),
            End::StoreFault(_)
            | End::ShelfFault(_)
            | End::KeeperFault(_)
            | End::Reopened(_)
            | End::Broken(_)
            | End::Kept(_)
            | End::Directory(_) => Some(Word::Store),
            End::Closed | End::LinkFault(_) | End::NoMemory => None,
        }
    }

    /// The session is no longer there, or its pad is closed.
    pub fn is_gone(&self) -> bool
        ensures { result ≡ is_gone self.now }
    {
        match self {
            End::Replaced(_)
            | End::Deleted(_)
            | End::Reopened(_)
            | End::StoreFault(_)
            | End::Broken(_)
            | End::Bad(BadKind::Edit(PadBad::Dead(_))) => true,
            _ => false,
        }
    }

    /// A session that ended so is left, where it is still there.
    pub fn is_left(&self) -> bool
        ensures { result ≡ is_left self.now }
    {
        match self {
            End::Closed | End::Bad(_) | End::JournalFull(_) | End::LinkFault(_) | End::NoMemory =>
                true,
            _ => false,
        }
    }
}

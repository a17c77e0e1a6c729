//! What those who call the directory know of it.

use ep_dir_records::{DirBad, Drawn, Listed, SessionInfo};
use ep_outside::Keeper;
use ep_units::{Grant, PadId, Units};
use std::sync::Wait;

/// A directory for many callers, each with a pass of its own. Each call waits for its turn, and is the next of
/// its pass in the one history of the directory.
pub trait DirPort {
    ghost use Rattle.std.specs.Prelude.{option_map};
    ghost use Rattle.ep_cell.specs.History.{pairs};
    ghost use Rattle.ep_cell.specs.Passes.{IsFresh, Known};
    ghost use Rattle.ep_dir_records.specs.Answers.{Seen};
    ghost use Rattle.ep_groups.specs.declared.entries.DirEntry.{DirEntry};
    ghost use Rattle.ep_groups.specs.declared.entries.DirEntry.TheVariants as entry;
    ghost use Rattle.ep_groups.specs.declared.entries.DirReply.{DirReply};
    ghost use Rattle.ep_groups.specs.declared.entries.DirReply.TheVariants as reply;
    ghost use Rattle.ep_groups.specs.History.{IsLegal};
    ghost use Rattle.ep_groups.specs.Asking.{Asks, AsksOrLacks};

    /// The keeper that the directory stands in.
    type Store: Keeper;

    type Pass: Drop;

    /// The directory as it began, before any call.
    ghost begun: { Self → Seen };

    /// The pass is of this port.
    ghost is_of: { Self → Self.Pass → Type 0 };

    /// The number of a pass, the history that it has seen, and how long that is at least.
    ghost known: { Self.Pass → Known DirEntry DirReply };

    /// A pass that has seen the history so far.
    fn pass<R: Wait>(&self, rt: &R) -> Self::Pass
        ensures of { is_of self.now result }
        ensures fresh { IsFresh (known result) }
        ensures legal { IsLegal Self.Store.always_tells (begun self.now) (pairs (known result).seen) };

    /// A new group.
    fn create_group<R: Wait>(
        &self,
        rt: &R,
        pass: &mut Self::Pass,
        drawn: Drawn,
    ) -> Result<Units, DirBad>
        requires of { is_of self.now pass.old }
        ensures of { is_of self.now pass.new }
        ensures asks { Asks (IsLegal Self.Store.always_tells (begun self.now)) (known pass.old) (entry.CreateGroup drawn) (reply.Text result) (known pass.new) };

    /// The group of a mapper, new at its first use.
    fn group_for<R: Wait>(
        &self,
        rt: &R,
        pass: &mut Self::Pass,
        mapper: &Units,
        drawn: Drawn,
    ) -> Result<Units, DirBad>
        requires of { is_of self.now pass.old }
        ensures of { is_of self.now pass.new }
        ensures asks { AsksOrLacks (IsLegal Self.Store.always_tells (begun self.now)) (known pass.old) (entry.GroupFor mapper.now drawn) reply.Text result (known pass.new) };

    /// Deletes a group with its sessions and its list of pads.
    fn delete_group<R: Wait>(
        &self,
        rt: &R,
        pass: &mut Self::Pass,
        group: &Units,
    ) -> Result<(), DirBad>
        requires of { is_of self.now pass.old }
        ensures of { is_of self.now pass.new }
        ensures asks { AsksOrLacks (IsLegal Self.Store.always_tells (begun self.now)) (known pass.old) (entry.DeleteGroup group.now) reply.Done result (known pass.new) };

    /// All groups.
    fn groups<R: Wait>(&self, rt: &R, pass: &mut Self::Pass) -> Result<Listed<Units>, DirBad>
        requires of { is_of self.now pass.old }
        ensures of { is_of self.now pass.new }
        ensures asks { Asks (IsLegal Self.Store.always_tells (begun self.now)) (known pass.old) entry.Groups (reply.Texts result) (known pass.new) };

    /// Lists a pad of a group.
    fn add_group_pad<R: Wait>(
        &self,
        rt: &R,
        pass: &mut Self::Pass,
        group: &Units,
        name: &Units,
    ) -> Result<PadId, DirBad>
        requires of { is_of self.now pass.old }
        ensures of { is_of self.now pass.new }
        ensures asks { AsksOrLacks (IsLegal Self.Store.always_tells (begun self.now)) (known pass.old) (entry.AddGroupPad group.now name.now) reply.Pad result (known pass.new) };

    /// Takes a pad off its group's list.
    fn drop_group_pad<R: Wait>(
        &self,
        rt: &R,
        pass: &mut Self::Pass,
        pad: &PadId,
    ) -> Result<(), DirBad>
        requires of { is_of self.now pass.old }
        ensures of { is_of self.now pass.new }
        ensures asks { AsksOrLacks (IsLegal Self.Store.always_tells (begun self.now)) (known pass.old) (entry.DropGroupPad pad.now) reply.Done result (known pass.new) };

    /// The pads that a group lists.
    fn group_pads<R: Wait>(
        &self,
        rt: &R,
        pass: &mut Self::Pass,
        group: &Units,
    ) -> Result<Listed<PadId>, DirBad>
        requires of { is_of self.now pass.old }
        ensures of { is_of self.now pass.new }
        ensures asks { AsksOrLacks (IsLegal Self.Store.always_tells (begun self.now)) (known pass.old) (entry.GroupPads group.now) reply.Pads result (known pass.new) };

    /// A new author.
    fn create_author<R: Wait>(
        &self,
        rt: &R,
        pass: &mut Self::Pass,
        name: &Units,
        drawn: Drawn,
    ) -> Result<Units, DirBad>
        requires of { is_of self.now pass.old }
        ensures of { is_of self.now pass.new }
        ensures asks { AsksOrLacks (IsLegal Self.Store.always_tells (begun self.now)) (known pass.old) (entry.CreateAuthor name.now drawn) reply.Text result (known pass.new) };

    /// The author of a mapper, new at its first use. A given name is set anew.
    fn author_for<R: Wait>(
        &self,
        rt: &R,
        pass: &mut Self::Pass,
        mapper: &Units,
        name: Option<&Units>,
        drawn: Drawn,
    ) -> Result<Units, DirBad>
        requires of { is_of self.now pass.old }
        ensures of { is_of self.now pass.new }
        ensures asks { AsksOrLacks (IsLegal Self.Store.always_tells (begun self.now)) (known pass.old) (entry.AuthorFor mapper.now (option_map (λ x. x.now) name.entry) drawn) reply.Text result (known pass.new) };

    /// The name of an author.
    fn author_name<R: Wait>(
        &self,
        rt: &R,
        pass: &mut Self::Pass,
        author: &Units,
    ) -> Result<Units, DirBad>
        requires of { is_of self.now pass.old }
        ensures of { is_of self.now pass.new }
        ensures asks { AsksOrLacks (IsLegal Self.Store.always_tells (begun self.now)) (known pass.old) (entry.AuthorName author.now) reply.Text result (known pass.new) };

    /// A new session of an author in a group. Moments are in seconds.
    fn create_session<R: Wait>(
        &self,
        rt: &R,
        pass: &mut Self::Pass,
        group: &Units,
        author: &Units,
        valid_until: u64,
        now: u64,
        drawn: Drawn,
    ) -> Result<Units, DirBad>
        requires of { is_of self.now pass.old }
        ensures of { is_of self.now pass.new }
        ensures asks { AsksOrLacks (IsLegal Self.Store.always_tells (begun self.now)) (known pass.old) (entry.CreateSession record { group = group.now; author = author.now; valid_until = valid_until; at = now; drawn = drawn }) reply.Text result (known pass.new) };

    /// Deletes a session.
    fn delete_session<R: Wait>(
        &self,
        rt: &R,
        pass: &mut Self::Pass,
        id: &Units,
    ) -> Result<(), DirBad>
        requires of { is_of self.now pass.old }
        ensures of { is_of self.now pass.new }
        ensures asks { AsksOrLacks (IsLegal Self.Store.always_tells (begun self.now)) (known pass.old) (entry.DeleteSession id.now) reply.Done result (known pass.new) };

    /// What a session stands for, also where its end is past.
    fn session<R: Wait>(
        &self,
        rt: &R,
        pass: &mut Self::Pass,
        id: &Units,
    ) -> Result<SessionInfo, DirBad>
        requires of { is_of self.now pass.old }
        ensures of { is_of self.now pass.new }
        ensures asks { AsksOrLacks (IsLegal Self.Store.always_tells (begun self.now)) (known pass.old) (entry.Session id.now) reply.Session result (known pass.new) };

    /// The sessions of a group.
    fn sessions_of_group<R: Wait>(
        &self,
        rt: &R,
        pass: &mut Self::Pass,
        group: &Units,
    ) -> Result<Listed<SessionInfo>, DirBad>
        requires of { is_of self.now pass.old }
        ensures of { is_of self.now pass.new }
        ensures asks { AsksOrLacks (IsLegal Self.Store.always_tells (begun self.now)) (known pass.old) (entry.SessionsOfGroup group.now) reply.Sessions result (known pass.new) };

    /// The sessions of an author.
    fn sessions_of_author<R: Wait>(
        &self,
        rt: &R,
        pass: &mut Self::Pass,
        author: &Units,
    ) -> Result<Listed<SessionInfo>, DirBad>
        requires of { is_of self.now pass.old }
        ensures of { is_of self.now pass.new }
        ensures asks { AsksOrLacks (IsLegal Self.Store.always_tells (begun self.now)) (known pass.old) (entry.SessionsOfAuthor author.now) reply.Sessions result (known pass.new) };

    /// The read-only id of a pad, the same at each call.
    fn read_only<R: Wait>(
        &self,
        rt: &R,
        pass: &mut Self::Pass,
        pad: &PadId,
        drawn: Drawn,
    ) -> Result<Units, DirBad>
        requires of { is_of self.now pass.old }
        ensures of { is_of self.now pass.new }
        ensures asks { AsksOrLacks (IsLegal Self.Store.always_tells (begun self.now)) (known pass.old) (entry.ReadOnly pad.now drawn) reply.Text result (known pass.new) };

    /// What a caller may do with the pad of an id, by sessions and a token. The moment is in seconds.
    fn grant<R: Wait>(
        &self,
        rt: &R,
        pass: &mut Self::Pass,
        asked: &Units,
        sessions: &[Units],
        token: &Units,
        now: u64,
        drawn: Drawn,
    ) -> Result<Grant, DirBad>
        requires of { is_of self.now pass.old }
        ensures of { is_of self.now pass.new }
        ensures asks { AsksOrLacks (IsLegal Self.Store.always_tells (begun self.now)) (known pass.old) (entry.Grant record { asked = asked.now; sessions = sessions.now; token = token.now; at = now; drawn = drawn }) reply.Grant result (known pass.new) };
}

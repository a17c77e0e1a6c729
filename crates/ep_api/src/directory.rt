//! The functions that the directory alone answers.

ghost use Rattle.std.specs.Prelude.{ℕ, List, Option};
ghost use Rattle.ep_ask.specs.declared.call.Call.TheVariants as call;
ghost use Rattle.ep_api.specs.Functions.{read_only, task_of};
ghost use Rattle.ep_api.specs.Legal.{Sits};
ghost use Rattle.ep_api.specs.Passes.{AtDesk};

use crate::causes::of_dir;
use crate::drawing::draw;
use ep_ask::{ApiBad, Data};
use ep_groups::DirPort;
use ep_outside::Draws;
use ep_units::{PadId, Units};
use std::sync::Wait;

/// A new group.
pub fn create_group<R: Wait, G: DirPort, D: Draws>(
    rt: &R,
    dir: &G,
    desk: &mut G::Pass,
    draws: &mut D,
) -> Result<Data, ApiBad>
    requires sits { Sits (G.is_of dir.now) G.Store.always_tells (G.begun dir.now) G.known desk.old }
    ensures sits { Sits (G.is_of dir.now) G.Store.always_tells (G.begun dir.now) G.known desk.new }
    ensures does { AtDesk (G.known desk.old) (D.to_come draws.old) (task_of 0 call.CreateGroup) result (G.known desk.new) (D.to_come draws.new) }
{
    let drawn = draw(draws);
    match dir.create_group(rt, desk, drawn) {
        Ok(id) => Ok(Data::Group(id)),
        Err(why) => Err(of_dir(why)),
    }
}

/// The group of a mapper.
pub fn group_for<R: Wait, G: DirPort, D: Draws>(
    rt: &R,
    dir: &G,
    desk: &mut G::Pass,
    mapper: &Units,
    draws: &mut D,
) -> Result<Data, ApiBad>
    requires sits { Sits (G.is_of dir.now) G.Store.always_tells (G.begun dir.now) G.known desk.old }
    ensures sits { Sits (G.is_of dir.now) G.Store.always_tells (G.begun dir.now) G.known desk.new }
    ensures does { AtDesk (G.known desk.old) (D.to_come draws.old) (task_of 0 (call.CreateGroupIfNotExistsFor mapper.now)) result (G.known desk.new) (D.to_come draws.new) }
{
    let drawn = draw(draws);
    match dir.group_for(rt, desk, mapper, drawn) {
        Ok(id) => Ok(Data::Group(id)),
        Err(why) => Err(of_dir(why)),
    }
}

/// The pads that a group lists.
pub fn list_pads<R: Wait, G: DirPort>(
    rt: &R,
    dir: &G,
    desk: &mut G::Pass,
    group: &Units,
) -> Result<Data, ApiBad>
    requires sits { Sits (G.is_of dir.now) G.Store.always_tells (G.begun dir.now) G.known desk.old }
    ensures sits { Sits (G.is_of dir.now) G.Store.always_tells (G.begun dir.now) G.known desk.new }
    ensures does { (t : Option (List ℕ)) → AtDesk (G.known desk.old) t (task_of 0 (call.ListPads group.now)) result (G.known desk.new) t }
{
    match dir.group_pads(rt, desk, group) {
        Ok(ids) => Ok(Data::Pads(ids)),
        Err(why) => Err(of_dir(why)),
    }
}

/// All groups.
pub fn list_groups<R: Wait, G: DirPort>(rt: &R, dir: &G, desk: &mut G::Pass) -> Result<Data, ApiBad>
    requires sits { Sits (G.is_of dir.now) G.Store.always_tells (G.begun dir.now) G.known desk.old }
    ensures sits { Sits (G.is_of dir.now) G.Store.always_tells (G.begun dir.now) G.known desk.new }
    ensures does { (t : Option (List ℕ)) → AtDesk (G.known desk.old) t (task_of 0 call.ListAllGroups) result (G.known desk.new) t }
{
    match dir.groups(rt, desk) {
        Ok(ids) => Ok(Data::Groups(ids)),
        Err(why) => Err(of_dir(why)),
    }
}

/// A new author.
pub fn create_author<R: Wait, G: DirPort, D: Draws>(
    rt: &R,
    dir: &G,
    desk: &mut G::Pass,
    name: &Units,
    draws: &mut D,
) -> Result<Data, ApiBad>
    requires sits { Sits (G.is_of dir.now) G.Store.always_tells (G.begun dir.now) G.known desk.old }
    ensures sits { Sits (G.is_of dir.now) G.Store.always_tells (G.begun dir.now) G.known desk.new }
    ensures does { AtDesk (G.known desk.old) (D.to_come draws.old) (task_of 0 (call.CreateAuthor name.now)) result (G.known desk.new) (D.to_come draws.new) }
{
    let drawn = draw(draws);
    match dir.create_author(rt, desk, name, drawn) {
        Ok(id) => Ok(Data::Author(id)),
        Err(why) => Err(of_dir(why)),
    }
}

/// The author of a mapper, whose name is set where one is given.
pub fn author_for<R: Wait, G: DirPort, D: Draws>(
    rt: &R,
    dir: &G,
    desk: &mut G::Pass,
    mapper: &Units,
    name: &Option<Units>,
    draws: &mut D,
) -> Result<Data, ApiBad>
    requires sits { Sits (G.is_of dir.now) G.Store.always_tells (G.begun dir.now) G.known desk.old }
    ensures sits { Sits (G.is_of dir.now) G.Store.always_tells (G.begun dir.now) G.known desk.new }
    ensures does { AtDesk (G.known desk.old) (D.to_come draws.old) (task_of 0 (call.CreateAuthorIfNotExistsFor mapper.now name.now)) result (G.known desk.new) (D.to_come draws.new) }
{
    let drawn = draw(draws);
    match dir.author_for(rt, desk, mapper, name.as_ref(), drawn) {
        Ok(id) => Ok(Data::Author(id)),
        Err(why) => Err(of_dir(why)),
    }
}

/// The name of an author.
pub fn author_name<R: Wait, G: DirPort>(
    rt: &R,
    dir: &G,
    desk: &mut G::Pass,
    author: &Units,
) -> Result<Data, ApiBad>
    requires sits { Sits (G.is_of dir.now) G.Store.always_tells (G.begun dir.now) G.known desk.old }
    ensures sits { Sits (G.is_of dir.now) G.Store.always_tells (G.begun dir.now) G.known desk.new }
    ensures does { (t : Option (List ℕ)) → AtDesk (G.known desk.old) t (task_of 0 (call.GetAuthorName author.now)) result (G.known desk.new) t }
{
    match dir.author_name(rt, desk, author) {
        Ok(name) => Ok(Data::AuthorName(name)),
        Err(why) => Err(of_dir(why)),
    }
}

/// A new session. The moment is in milliseconds, its end in seconds.
pub fn create_session<R: Wait, G: DirPort, D: Draws>(
    rt: &R,
    dir: &G,
    desk: &mut G::Pass,
    group: &Units,
    author: &Units,
    valid_until: u64,
    now: u64,
    draws: &mut D,
) -> Result<Data, ApiBad>
    requires sits { Sits (G.is_of dir.now) G.Store.always_tells (G.begun dir.now) G.known desk.old }
    ensures sits { Sits (G.is_of dir.now) G.Store.always_tells (G.begun dir.now) G.known desk.new }
    ensures does { AtDesk (G.known desk.old) (D.to_come draws.old) (task_of now (call.CreateSession group.now author.now valid_until)) result (G.known desk.new) (D.to_come draws.new) }
{
    let drawn = draw(draws);
    match dir.create_session(rt, desk, group, author, valid_until, now / 1000, drawn) {
        Ok(id) => Ok(Data::Session(id)),
        Err(why) => Err(of_dir(why)),
    }
}

/// Deletes a session.
pub fn delete_session<R: Wait, G: DirPort>(
    rt: &R,
    dir: &G,
    desk: &mut G::Pass,
    id: &Units,
) -> Result<Data, ApiBad>
    requires sits { Sits (G.is_of dir.now) G.Store.always_tells (G.begun dir.now) G.known desk.old }
    ensures sits { Sits (G.is_of dir.now) G.Store.always_tells (G.begun dir.now) G.known desk.new }
    ensures does { (t : Option (List ℕ)) → AtDesk (G.known desk.old) t (task_of 0 (call.DeleteSession id.now)) result (G.known desk.new) t }
{
    match dir.delete_session(rt, desk, id) {
        Ok(()) => Ok(Data::Nothing),
        Err(why) => Err(of_dir(why)),
    }
}

/// What a session stands for.
pub fn session_info<R: Wait, G: DirPort>(
    rt: &R,
    dir: &G,
    desk: &mut G::Pass,
    id: &Units,
) -> Result<Data, ApiBad>
    requires sits { Sits (G.is_of dir.now) G.Store.always_tells (G.begun dir.now) G.known desk.old }
    ensures sits { Sits (G.is_of dir.now) G.Store.always_tells (G.begun dir.now) G.known desk.new }
    ensures does { (t : Option (List ℕ)) → AtDesk (G.known desk.old) t (task_of 0 (call.GetSessionInfo id.now)) result (G.known desk.new) t }
{
    match dir.session(rt, desk, id) {
        Ok(info) => Ok(Data::Info(info)),
        Err(why) => Err(of_dir(why)),
    }
}

/// The sessions of a group.
pub fn sessions_of_group<R: Wait, G: DirPort>(
    rt: &R,
    dir: &G,
    desk: &mut G::Pass,
    group: &Units,
) -> Result<Data, ApiBad>
    requires sits { Sits (G.is_of dir.now) G.Store.always_tells (G.begun dir.now) G.known desk.old }
    ensures sits { Sits (G.is_of dir.now) G.Store.always_tells (G.begun dir.now) G.known desk.new }
    ensures does { (t : Option (List ℕ)) → AtDesk (G.known desk.old) t (task_of 0 (call.ListSessionsOfGroup group.now)) result (G.known desk.new) t }
{
    match dir.sessions_of_group(rt, desk, group) {
        Ok(all) => Ok(Data::Infos(all)),
        Err(why) => Err(of_dir(why)),
    }
}

/// The sessions of an author.
pub fn sessions_of_author<R: Wait, G: DirPort>(
    rt: &R,
    dir: &G,
    desk: &mut G::Pass,
    author: &Units,
) -> Result<Data, ApiBad>
    requires sits { Sits (G.is_of dir.now) G.Store.always_tells (G.begun dir.now) G.known desk.old }
    ensures sits { Sits (G.is_of dir.now) G.Store.always_tells (G.begun dir.now) G.known desk.new }
    ensures does { (t : Option (List ℕ)) → AtDesk (G.known desk.old) t (task_of 0 (call.ListSessionsOfAuthor author.now)) result (G.known desk.new) t }
{
    match dir.sessions_of_author(rt, desk, author) {
        Ok(all) => Ok(Data::Infos(all)),
        Err(why) => Err(of_dir(why)),
    }
}

/// The read-only id of a pad.
pub fn read_only<R: Wait, G: DirPort, D: Draws>(
    rt: &R,
    dir: &G,
    desk: &mut G::Pass,
    pad: &PadId,
    draws: &mut D,
) -> Result<Data, ApiBad>
    requires sits { Sits (G.is_of dir.now) G.Store.always_tells (G.begun dir.now) G.known desk.old }
    ensures sits { Sits (G.is_of dir.now) G.Store.always_tells (G.begun dir.now) G.known desk.new }
    ensures does { AtDesk (G.known desk.old) (D.to_come draws.old) (read_only pad.now) result (G.known desk.new) (D.to_come draws.new) }
{
    let drawn = draw(draws);
    match dir.read_only(rt, desk, pad, drawn) {
        Ok(id) => Ok(Data::ReadOnly(id)),
        Err(why) => Err(of_dir(why)),
    }
}

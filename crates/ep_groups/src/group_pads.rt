//! The pads of groups.

ghost use Rattle.std.specs.Prelude.{◌≡◌, ◌∷◌, [], IfOk, Ok};
ghost use Rattle.ep_units.specs.PadId.{group_of};
ghost use Rattle.ep_dir_records.specs.Keys.{key, put};
ghost use Rattle.ep_dir_records.specs.Answers.{Answers, Reads, only};
ghost use Rattle.ep_groups.specs.Directory.{add_group_pad, drop_group_pad, dropped, group_pads, listed_pad_gone, pad_named};
ghost use Rattle.ep_dir_records.specs.Values.{empty_in};
ghost use Rattle.ep_dir_records.specs.Readings.{read};

use crate::dir_machine::DirMachine;
use crate::groups::text_of;
use ep_dir_records::{DirBad, Kind, Listed, Puts, with_dollar};
use ep_outside::Keeper;
use ep_units::{NoMemory, PadId, Units};
use std::alloc::Global;

impl<K: Keeper> DirMachine<K> {
    fn pad_named(&self, group: &Units, name: &Units) -> Result<PadId, DirBad>
        ensures { Reads self.now self.now (λ _. pad_named group.now name.now) result }
    {
        let mut id = with_dollar(self.alloc, group)?;
        id.push_all(name.as_slice())?;
        let found = PadId::read(self.alloc, &id)?;
        self.records.needed(found, DirBad::BadName)
    }

    fn planned_pad(&mut self, group: &Units, name: &Units) -> Result<(PadId, Puts), DirBad>
        ensures { Reads self.old self.new (add_group_pad group.now name.now) result }
    {
        self.records.in_group(group)?;
        let pad = self.pad_named(group, name)?;
        let puts = pad_puts(self.alloc, &pad)?;
        Ok((pad, puts))
    }

    /// Lists a pad of a group by its name, also where it is listed already.
    pub fn add_group_pad(&mut self, group: &Units, name: &Units) -> Result<PadId, DirBad>
        ensures { Answers self.old self.new (add_group_pad group.now name.now) result }
    {
        let (pad, puts) = self.planned_pad(group, name)?;
        self.records.commit(pad, puts)
    }

    fn planned_drop(&mut self, pad: &PadId) -> Result<((), Puts), DirBad>
        ensures { Reads self.old self.new (drop_group_pad pad.now) result }
    {
        if pad.group().is_none() {
            return Ok(((), Puts::new(self.alloc)));
        }
        let name = text_of(self.alloc, pad)?;
        let mark = self.records.read_mark(Kind::GroupPad, &name)?;
        let puts = unlisted_puts(self.alloc, pad, mark)?;
        Ok(((), puts))
    }

    /// Takes a pad from its group's list. One that is not listed is dropped already.
    pub fn drop_group_pad(&mut self, pad: &PadId) -> Result<(), DirBad>
        ensures { Answers self.old self.new (drop_group_pad pad.now) result }
    {
        let ((), puts) = self.planned_drop(pad)?;
        self.records.commit((), puts)
    }

    fn pads_in_group(&mut self, group: &Units) -> Result<Listed<PadId>, DirBad>
        ensures { Reads self.old self.new (group_pads group.now) result }
    {
        self.records.in_group(group)?;
        self.records.pads_of(group)
    }

    /// The pads of a group.
    pub fn group_pads(&mut self, group: &Units) -> Result<Listed<PadId>, DirBad>
        ensures { Answers self.old self.new (only (group_pads group.now)) result }
    {
        self.pads_in_group(group)
    }
}

fn pad_puts(alloc: Global, pad: &PadId) -> Result<Puts, NoMemory>
    ensures { IfOk result (λ puts. puts ≡ put (key Kind.GroupPad pad.now) [] ∷ []) }
{
    let name = text_of(alloc, pad)?;
    let mut puts = Puts::new(alloc);
    puts.put_mark(alloc, Kind::GroupPad, &name)?;
    Ok(puts)
}

fn unlisted_puts(alloc: Global, pad: &PadId, mark: Option<()>) -> Result<Puts, NoMemory>
    ensures { IfOk result (λ puts. puts ≡ listed_pad_gone pad.now mark) }
{
    let name = text_of(alloc, pad)?;
    let mut puts = Puts::new(alloc);
    if mark.is_some() {
        puts.remove(alloc, Kind::GroupPad, &name)?;
    }
    Ok(puts)
}

//! Groups.

ghost use Rattle.std.specs.Prelude.{◌≡◌, ◌++◌, ◌∷◌, [], IfOk, OnOk, Ok, None, Some, if◌then◌else◌, is_some, map};
ghost use Rattle.ep_dir_records.specs.Keys.{count_put, gone, key};
ghost use Rattle.ep_dir_records.specs.declared.ids.IdKind.TheVariants as id;
ghost use Rattle.ep_dir_records.specs.Answers.{Answers, Reads, only};
ghost use Rattle.ep_groups.specs.Directory.{create_group, delete_group, group_for, group_gone, group_put, live_group, made, mapped_group, mapped_group_put, old_or};
ghost use Rattle.ep_dir_records.specs.Readings.{groups, of_group, pads_of, sessions};

use crate::dir_machine::DirMachine;
use ep_dir_records::{DirBad, Drawn, IdKind, Kind, Listed, Puts, SessionInfo};
use ep_outside::Keeper;
use ep_units::{NoMemory, PadId, Units};
use std::alloc::Global;

impl<K: Keeper> DirMachine<K> {
    fn planned_group(&mut self, drawn: &Drawn) -> Result<(Units, Puts), DirBad>
        ensures { Reads self.old self.new (create_group drawn.now.digits) result }
    {
        let (group, n) = self.records.new_id(IdKind::Group, drawn)?;
        let puts = group_puts(self.alloc, &group, n)?;
        Ok((group, puts))
    }

    /// A new group.
    pub fn create_group(&mut self, drawn: Drawn) -> Result<Units, DirBad>
        ensures { Answers self.old self.new (create_group drawn.digits) result }
    {
        let (group, puts) = self.planned_group(&drawn)?;
        self.records.commit(group, puts)
    }

    fn mapped_group(&mut self, mapper: &Units) -> Result<Option<Units>, DirBad>
        ensures { Reads self.old self.new (mapped_group mapper.now) result }
    {
        let old = self
            .records
            .read_id(IdKind::Group, Kind::GroupMapper, mapper)?;
        let Some(group) = old else { return Ok(None) };
        match self.records.read_mark(Kind::Group, &group)? {
            Some(()) => Ok(Some(group)),
            None => Ok(None),
        }
    }

    fn planned_group_for(&mut self, mapper: &Units, drawn: &Drawn) -> Result<(Units, Puts), DirBad>
        ensures { Reads self.old self.new (group_for mapper.now drawn.now.digits) result }
    {
        if let Some(group) = self.mapped_group(mapper)? {
            return Ok((group, Puts::new(self.alloc)));
        }
        let (group, n) = self.records.new_id(IdKind::Group, drawn)?;
        let puts = mapped_group_puts(self.alloc, mapper, &group, n)?;
        Ok((group, puts))
    }

    /// The group of a mapper: a new one at its first use, and where its old one is gone.
    pub fn group_for(&mut self, mapper: &Units, drawn: Drawn) -> Result<Units, DirBad>
        ensures { Answers self.old self.new (group_for mapper.now drawn.digits) result }
    {
        let (group, puts) = self.planned_group_for(mapper, &drawn)?;
        self.records.commit(group, puts)
    }

    /// All groups.
    pub fn groups(&mut self) -> Result<Listed<Units>, DirBad>
        ensures { Answers self.old self.new (only groups) result }
    {
        self.records.all_groups()
    }

    fn planned_deletion(&mut self, group: &Units) -> Result<((), Puts), DirBad>
        ensures { Reads self.old self.new (delete_group group.now) result }
    {
        self.records.in_group(group)?;
        let infos = self.records.all_sessions()?;
        let pads = self.records.pads_of(group)?;
        let infos = only_of_group(infos, group);
        let puts = gone_puts(self.alloc, group, infos.as_slice(), pads.as_slice())?;
        Ok(((), puts))
    }

    /// Deletes a group with its sessions and its list of pads. The pads themselves stay.
    pub fn delete_group(&mut self, group: &Units) -> Result<(), DirBad>
        ensures { Answers self.old self.new (delete_group group.now) result }
    {
        let ((), puts) = self.planned_deletion(group)?;
        self.records.commit((), puts)
    }
}

fn group_puts(alloc: Global, group: &Units, n: u64) -> Result<Puts, NoMemory>
    ensures { IfOk result (λ puts. puts ≡ count_put n ∷ group_put group.now) }
{
    let mut puts = Puts::new(alloc);
    puts.put_count(alloc, n)?;
    puts.put_mark(alloc, Kind::Group, group)?;
    Ok(puts)
}

fn mapped_group_puts(alloc: Global, mapper: &Units, group: &Units, n: u64) -> Result<Puts, NoMemory>
    ensures { IfOk result (λ puts. puts ≡ count_put n ∷ mapped_group_put mapper.now group.now) }
{
    let mut puts = Puts::new(alloc);
    puts.put_count(alloc, n)?;
    puts.put_mark(alloc, Kind::Group, group)?;
    puts.put_text(alloc, Kind::GroupMapper, mapper, group)?;
    Ok(puts)
}

/// The sessions of a group.
pub(crate) fn only_of_group(infos: Listed<SessionInfo>, group: &Units) -> Listed<SessionInfo>
    ensures { result ≡ of_group group.now infos }
{
    let mut items = infos.items;
    items.retain(|info| info.group == *group);
    Listed { items }
}

fn remove_sessions(alloc: Global, puts: &mut Puts, infos: &[SessionInfo]) -> Result<(), NoMemory>
    ensures { OnOk result (puts.new ≡ puts.old ++ map (λ i. gone (key Kind.Session i.id)) infos.now) }
{
    for info in infos {
        puts.remove(alloc, Kind::Session, &info.id)?;
    }
    Ok(())
}

/// The text of a pad's id.
pub(crate) fn text_of(alloc: Global, pad: &PadId) -> Result<Units, NoMemory>
    ensures { IfOk result (λ text. text ≡ pad.now) }
{
    Units::from_slice(alloc, pad.as_slice())
}

fn remove_pads(alloc: Global, puts: &mut Puts, pads: &[PadId]) -> Result<(), NoMemory>
    ensures { OnOk result (puts.new ≡ puts.old ++ map (λ p. gone (key Kind.GroupPad p)) pads.now) }
{
    for pad in pads {
        let name = text_of(alloc, pad)?;
        puts.remove(alloc, Kind::GroupPad, &name)?;
    }
    Ok(())
}

fn gone_puts(
    alloc: Global,
    group: &Units,
    infos: &[SessionInfo],
    pads: &[PadId],
) -> Result<Puts, NoMemory>
    ensures { IfOk result (λ puts. puts ≡ group_gone group.now infos.now pads.now) }
{
    let mut puts = Puts::new(alloc);
    puts.remove(alloc, Kind::Group, group)?;
    remove_sessions(alloc, &mut puts, infos)?;
    remove_pads(alloc, &mut puts, pads)?;
    Ok(puts)
}

//! Authors.

ghost use Rattle.std.specs.Prelude.{◌≡◌, ◌∷◌, [], IfOk, Ok, option_map};
ghost use Rattle.ep_dir_records.specs.Keys.{count_put};
ghost use Rattle.ep_dir_records.specs.declared.ids.IdKind.TheVariants as id;
ghost use Rattle.ep_dir_records.specs.Answers.{Answers, Reads, only};
ghost use Rattle.ep_groups.specs.Directory.{author_for, author_put, create_author, made, mapped_author_put, old_author_or, renamed};
ghost use Rattle.ep_dir_records.specs.Readings.{name_of};

use crate::dir_machine::DirMachine;
use ep_dir_records::{DirBad, Drawn, IdKind, Kind, Puts};
use ep_outside::Keeper;
use ep_units::{NoMemory, Units};
use std::alloc::Global;

impl<K: Keeper> DirMachine<K> {
    fn planned_author(&mut self, name: &Units, drawn: &Drawn) -> Result<(Units, Puts), DirBad>
        ensures { Reads self.old self.new (create_author name.now drawn.now.digits) result }
    {
        let (author, n) = self.records.new_id(IdKind::Author, drawn)?;
        let puts = author_puts(self.alloc, name, &author, n)?;
        Ok((author, puts))
    }

    /// A new author with this name.
    pub fn create_author(&mut self, name: &Units, drawn: Drawn) -> Result<Units, DirBad>
        ensures { Answers self.old self.new (create_author name.now drawn.digits) result }
    {
        let (author, puts) = self.planned_author(name, &drawn)?;
        self.records.commit(author, puts)
    }

    fn planned_author_for(
        &mut self,
        mapper: &Units,
        name: Option<&Units>,
        drawn: &Drawn,
    ) -> Result<(Units, Puts), DirBad>
        ensures { Reads self.old self.new (author_for mapper.now (option_map (λ x. x.now) name.entry) drawn.now.digits) result }
    {
        let old = self
            .records
            .read_id(IdKind::Author, Kind::AuthorMapper, mapper)?;
        if let Some(author) = old {
            let puts = renamed_puts(self.alloc, &author, name)?;
            return Ok((author, puts));
        }
        let (author, n) = self.records.new_id(IdKind::Author, drawn)?;
        let puts = mapped_author_puts(self.alloc, mapper, name, &author, n)?;
        Ok((author, puts))
    }

    /// The author of a mapper, a new one at its first use. A name that is given is set anew.
    pub fn author_for(
        &mut self,
        mapper: &Units,
        name: Option<&Units>,
        drawn: Drawn,
    ) -> Result<Units, DirBad>
        ensures { Answers self.old self.new (author_for mapper.now (option_map (λ x. x.now) name.entry) drawn.digits) result }
    {
        let (author, puts) = self.planned_author_for(mapper, name, &drawn)?;
        self.records.commit(author, puts)
    }

    /// The name of an author.
    pub fn author_name(&mut self, author: &Units) -> Result<Units, DirBad>
        ensures { Answers self.old self.new (only (name_of author.now)) result }
    {
        self.records.name_of(author)
    }
}

fn author_puts(alloc: Global, name: &Units, author: &Units, n: u64) -> Result<Puts, NoMemory>
    ensures { IfOk result (λ puts. puts ≡ count_put n ∷ author_put name.now author.now) }
{
    let mut puts = Puts::new(alloc);
    puts.put_count(alloc, n)?;
    puts.put_text(alloc, Kind::Author, author, name)?;
    Ok(puts)
}

fn mapped_author_puts(
    alloc: Global,
    mapper: &Units,
    name: Option<&Units>,
    author: &Units,
    n: u64,
) -> Result<Puts, NoMemory>
    ensures { IfOk result (λ puts. puts ≡ count_put n ∷ mapped_author_put mapper.now (option_map (λ x. x.now) name.entry) author.now) }
{
    let mut puts = Puts::new(alloc);
    puts.put_count(alloc, n)?;
    match name {
        Some(name) => puts.put_text(alloc, Kind::Author, author, name)?,
        None => puts.put_text(alloc, Kind::Author, author, &Units::new(alloc))?,
    }
    puts.put_text(alloc, Kind::AuthorMapper, mapper, author)?;
    Ok(puts)
}

fn renamed_puts(alloc: Global, author: &Units, name: Option<&Units>) -> Result<Puts, NoMemory>
    ensures { IfOk result (λ puts. puts ≡ renamed author.now (option_map (λ x. x.now) name.entry)) }
{
    let mut puts = Puts::new(alloc);
    if let Some(name) = name {
        puts.put_text(alloc, Kind::Author, author, name)?;
    }
    Ok(puts)
}

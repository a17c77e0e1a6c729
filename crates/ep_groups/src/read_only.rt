//! Read-only ids of pads.

ghost use Rattle.std.specs.Prelude.{◌≡◌, ◌∷◌, [], IfOk, Ok};
ghost use Rattle.ep_dir_records.specs.Keys.{count_put};
ghost use Rattle.ep_dir_records.specs.declared.ids.IdKind.TheVariants as id;
ghost use Rattle.ep_dir_records.specs.Answers.{Answers, Reads};
ghost use Rattle.ep_groups.specs.Directory.{made, old_or, read_only, read_only_put};

use crate::dir_machine::DirMachine;
use crate::groups::text_of;
use ep_dir_records::{DirBad, Drawn, IdKind, Kind, Puts};
use ep_outside::Keeper;
use ep_units::{NoMemory, PadId, Units};
use std::alloc::Global;

impl<K: Keeper> DirMachine<K> {
    fn planned_read_only(&mut self, pad: &PadId, drawn: &Drawn) -> Result<(Units, Puts), DirBad>
        ensures { Reads self.old self.new (read_only pad.now drawn.now.digits) result }
    {
        let pad = text_of(self.alloc, pad)?;
        let old = self.records.read_id(IdKind::ReadOnly, Kind::Pad, &pad)?;
        if let Some(id) = old {
            return Ok((id, Puts::new(self.alloc)));
        }
        let (id, n) = self.records.new_id(IdKind::ReadOnly, drawn)?;
        let puts = read_only_puts(self.alloc, &pad, &id, n)?;
        Ok((id, puts))
    }

    /// The read-only id of a pad, which need not be there.
    pub fn read_only(&mut self, pad: &PadId, drawn: Drawn) -> Result<Units, DirBad>
        ensures { Answers self.old self.new (read_only pad.now drawn.digits) result }
    {
        let (id, puts) = self.planned_read_only(pad, &drawn)?;
        self.records.commit(id, puts)
    }
}

fn read_only_puts(alloc: Global, pad: &Units, id: &Units, n: u64) -> Result<Puts, NoMemory>
    ensures { IfOk result (λ puts. puts ≡ count_put n ∷ read_only_put pad.now id.now) }
{
    let mut puts = Puts::new(alloc);
    puts.put_count(alloc, n)?;
    puts.put_text(alloc, Kind::Pad, pad, id)?;
    puts.put_text(alloc, Kind::ReadOnly, id, pad)?;
    Ok(puts)
}

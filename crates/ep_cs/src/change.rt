//! Changes.

ghost use Rattle.std.specs.Prelude.{◌≡◌, [], IfOk};
ghost use Rattle.ep_cs.specs.Edit.{identity};
ghost use Rattle.ep_cs.specs.Change.{bank_of};
ghost use Rattle.ep_cs.specs.Fits.{is_identity};
ghost use Rattle.ep_cs.specs.NormalRuns.{IsNormal};
ghost use Rattle.ep_cs.specs.Spelling.{old_len, new_len};

use crate::op::Op;
use crate::packed::Packed;
use ep_units::{NoMemory, Units};
use std::alloc::Global;
use std::marker::Model;
use std::sync::Arc;

/// What is kept of a change: of one that alters nothing the length alone, and a bank without units.
#[derive(Drop)]
pub(crate) enum Kept {
    Nothing { units: u32, bank: Units },
    Runs(Arc<Packed>),
}

/// A change: its normal runs, and the units that they insert. Copies share them.
pub struct Change {
    kept: Kept,
}

impl Drop for Change {
    fn drop(self) {
        let Change { kept: _ } = self;
    }
}

impl Model for Change {
    ghost use Rattle.ep_cs.specs.Change.{Change};
    ghost use Rattle.ep_cs.specs.Codes.{coded_change};

    ghost Value = { Change };

    ghost coded = { coded_change };

    ghost use Rattle.ep_cs.specs.Kept.{kept_change, IsKept};

    ghost view = { λ c. kept_change c.kept };

    ghost invariant = { λ c. IsKept c.kept };
}

impl Change {
    /// The change of so many UTF-16 units that alters nothing.
    pub fn identity(alloc: Global, units: u32) -> Change
        ensures edit { result.edit ≡ identity units }
        ensures runs { result.runs ≡ [] }
    {
        Change {
            kept: Kept::Nothing {
                units,
                bank: Units::new(alloc),
            },
        }
    }

    /// The change of packed runs, which its copies are to share.
    pub(crate) fn packed(alloc: Global, packed: Packed) -> Result<Change, NoMemory>
        ensures { IfOk result (λ c. c ≡ packed) }
    {
        Ok(Change {
            kept: Kept::Runs(Arc::new(alloc, packed)?),
        })
    }

    /// How many UTF-16 units a document has before the change.
    pub fn old_len(&self) -> u32
        ensures { result ≡ old_len self.now.edit }
    {
        match &self.kept {
            Kept::Nothing { units, .. } => *units,
            Kept::Runs(packed) => packed.old_len(),
        }
    }

    /// How many UTF-16 units a document has after the change.
    pub fn new_len(&self) -> u32
        ensures { result ≡ new_len self.now.edit }
    {
        match &self.kept {
            Kept::Nothing { units, .. } => *units,
            Kept::Runs(packed) => packed.new_len(),
        }
    }

    /// Whether the change alters nothing.
    pub fn is_identity(&self) -> bool
        ensures { result ≡ is_identity self.now.edit }
    {
        match &self.kept {
            Kept::Nothing { .. } => true,
            Kept::Runs(packed) => packed.is_identity(),
        }
    }

    /// The operations of the normal spelling.
    pub fn ops(&self) -> &[Op]
        ensures runs { result.now ≡ self.now.runs }
        ensures normal { IsNormal self.now }
    {
        match &self.kept {
            Kept::Nothing { .. } => &[],
            Kept::Runs(packed) => packed.ops(),
        }
    }

    /// The units that the change inserts, in order.
    pub fn bank(&self) -> &Units
        ensures { result.now ≡ bank_of self.now.edit }
    {
        match &self.kept {
            Kept::Nothing { bank, .. } => bank,
            Kept::Runs(packed) => packed.bank(),
        }
    }

    /// The same change, with the maps of another in the place of equal ones, so that both keep one; but for one of which
    /// there are copies. It takes no memory.
    pub fn share_maps(&mut self, alloc: Global, other: &Change)
        ensures { self.new ≡ self.old }
    {
        if let Kept::Runs(packed) = &mut self.kept {
            if let Some(own) = Arc::get_mut(packed) {
                own.share_maps(alloc, other.ops());
            }
        }
    }

    /// The same change again, in a time that doesn't depend on it.
    pub fn copy(&self, alloc: Global) -> Result<Change, NoMemory>
        ensures { IfOk result (λ c. c ≡ self.now) }
    {
        match &self.kept {
            Kept::Nothing { units, .. } => Ok(Change::identity(alloc, *units)),
            Kept::Runs(packed) => Ok(Change {
                kept: Kept::Runs(Arc::try_clone(packed)?),
            }),
        }
    }
}

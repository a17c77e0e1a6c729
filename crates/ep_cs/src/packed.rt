//! The runs of a change, packed.

ghost use Rattle.std.specs.Prelude.{◌≡◌, IfSome};
ghost use Rattle.ep_cs.specs.Change.{bank_of};
ghost use Rattle.ep_cs.specs.Fits.{is_identity};
ghost use Rattle.ep_cs.specs.NormalRuns.{IsNormal};
ghost use Rattle.ep_cs.specs.Spelling.{old_len, new_len};

use crate::op::Op;
use ep_attr::AttrMap;
use ep_units::Units;
use std::alloc::Global;
use std::marker::Model;

/// The normal runs of a change, and the units that they insert.
#[derive(Drop)]
pub struct Packed {
    pub(crate) old_len: u32,
    pub(crate) new_len: u32,
    pub(crate) ops: Vec<Op>,
    pub(crate) bank: Units,
}

impl Model for Packed {
    ghost use Rattle.ep_cs.specs.Change.{Change};
    ghost use Rattle.ep_cs.specs.Codes.{coded_change};

    ghost Value = { Change };

    ghost coded = { coded_change };

    ghost use Rattle.ep_cs.specs.Packed.{packed_change, IsPacked};

    ghost view = { packed_change };

    ghost invariant = { IsPacked };
}

/// A map of these operations that is equal to this one, where there is one that can be copied.
#[tactic(auto, using(ep_attr::proofs::SameMap::exact_map))]
fn equal_map(alloc: Global, map: &AttrMap, ops: &[Op]) -> Option<AttrMap>
    ensures { IfSome result (λ m. m ≡ map.now) }
{
    if map.is_none() {
        return None;
    }
    for op in ops {
        if op.attrs == *map {
            return op.attrs.copy(alloc).ok();
        }
    }
    None
}

/// Puts maps of these operations in the place of equal ones.
fn share(alloc: Global, ops: &mut [Op], others: &[Op])
    ensures { ops.new ≡ ops.old }
{
    for i in 0..ops.len() {
        if let Some(map) = equal_map(alloc, &ops[i].attrs, others) {
            ops[i].attrs = map;
        }
    }
}

impl Packed {
    pub fn old_len(&self) -> u32
        ensures { result ≡ old_len self.now.edit }
    {
        self.old_len
    }

    pub fn new_len(&self) -> u32
        ensures { result ≡ new_len self.now.edit }
    {
        self.new_len
    }

    /// Whether the change alters nothing.
    pub fn is_identity(&self) -> bool
        ensures { result ≡ is_identity self.now.edit }
    {
        match self.ops.as_slice() {
            [] => true,
            [_, ..] => false,
        }
    }

    pub fn ops(&self) -> &[Op]
        ensures runs { result.now ≡ self.now.runs }
        ensures normal { IsNormal self.now }
    {
        self.ops.as_slice()
    }

    pub fn bank(&self) -> &Units
        ensures { result.now ≡ bank_of self.now.edit }
    {
        &self.bank
    }

    /// Puts maps of these operations in the place of equal ones. It takes no memory.
    pub fn share_maps(&mut self, alloc: Global, others: &[Op])
        ensures { self.new ≡ self.old }
    {
        share(alloc, &mut self.ops, others);
    }
}

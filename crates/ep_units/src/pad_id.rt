//! Ids of pads.

ghost use Rattle.std.specs.Prelude.{◌≡◌, ◌<◌, length, IsTrue, not, ◌&&◌, true, is_some, option_map, IfOk, IfSome, nat_eq, codes};
ghost use Rattle.std.specs.List.{starts_with, list_all};
ghost use Rattle.ep_units.specs.PadId.{is_alphanumeric, has_group, group_of, name_of, is_name, is_own_id};
ghost use Rattle.ep_units.specs.Text.{is_well_formed};

use crate::no_memory::NoMemory;
use crate::units::Units;
use std::alloc::Global;
use std::marker::Model;

// `$`, `g.` and `r.`
const DOLLAR: u16 = 36;

const GROUP: [u16; 2] = [103, 46];

const READ_ONLY: [u16; 2] = [114, 46];

const GROUP_UNITS: usize = 18;

const MOST_NAME_UNITS: usize = 50;

/// In UTF-8.
const MOST_NAME_BYTES: usize = 100;

/// The own id of a pad.
#[derive(Drop)]
pub struct PadId {
    id: Units,
}

impl Model for PadId {
    ghost use Rattle.std.specs.Prelude.{◌≡◌, List, ℕ, true};
    ghost use Rattle.ep_units.specs.PadId.{is_own_id};

    ghost Value = { List ℕ };

    ghost view = { λ p. p.id };

    ghost invariant = { λ p. is_own_id p.id ≡ true };
}

impl PadId {
    /// `None` where the text is no own id.
    pub fn read(alloc: Global, id: &Units) -> Result<Option<PadId>, NoMemory>
        ensures own { IfOk result (λ read. is_some read ≡ is_own_id id.now) }
        ensures same { IfOk result (λ read. IfSome read (λ p. p ≡ id.now)) }
    {
        if !id.well_formed() || !has_form(id.as_slice()) {
            return Ok(None);
        }
        let name = Units::from_slice(alloc, name_of(id.as_slice()))?;
        if name.to_text_lossy(alloc)?.len() > MOST_NAME_BYTES {
            return Ok(None);
        }
        Ok(Some(PadId {
            id: id.copy(alloc)?,
        }))
    }

    pub fn as_slice(&self) -> &[u16]
        ensures units { result.now ≡ self.now }
        ensures own { is_own_id self.now ≡ true }
    {
        self.id.as_slice()
    }

    /// The id of its group.
    pub fn group(&self) -> Option<&[u16]>
        ensures { option_map (λ group. group.now) result ≡ group_of self.now }
    {
        let id = self.as_slice();
        if has_group(id) {
            Some(&id[..GROUP_UNITS])
        } else {
            None
        }
    }

    pub fn copy(&self, alloc: Global) -> Result<PadId, NoMemory>
        ensures { IfOk result (λ p. p ≡ self.now) }
    {
        Ok(PadId {
            id: self.id.copy(alloc)?,
        })
    }
}

fn has_form(id: &[u16]) -> bool
    ensures { result ≡ (is_name (name_of id.now) && not (starts_with nat_eq id.now (codes "r."))) }
{
    is_name(name_of(id)) && !id.starts_with(&READ_ONLY)
}

#[tactic(auto, using(std::proofs::lemmas::List::take_rest))]
fn name_of(id: &[u16]) -> &[u16]
    ensures { result.now ≡ name_of id.now }
{
    if has_group(id) {
        &id[GROUP_UNITS + 1..]
    } else {
        id
    }
}

fn is_name(name: &[u16]) -> bool
    ensures { result ≡ is_name name.now }
{
    1 <= name.len() && name.len() <= MOST_NAME_UNITS && !name.contains(&DOLLAR)
}

fn has_group(id: &[u16]) -> bool
    ensures group { result ≡ has_group id.now }
    ensures long { IsTrue result → 18 < length id.now }
{
    if id.len() <= GROUP_UNITS {
        return false;
    }
    id.starts_with(&GROUP) && are_alphanumeric(&id[2..GROUP_UNITS]) && id[GROUP_UNITS] == DOLLAR
}

fn are_alphanumeric(units: &[u16]) -> bool
    ensures { result ≡ list_all is_alphanumeric units.now }
{
    units.iter().all(|unit| is_alphanumeric(*unit))
}

fn is_alphanumeric(unit: u16) -> bool
    ensures { result ≡ is_alphanumeric unit }
{
    (48 <= unit && unit <= 57) || (65 <= unit && unit <= 90) || (97 <= unit && unit <= 122)
}

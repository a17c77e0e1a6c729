//! Changes written from left to right.

ghost use Rattle.std.specs.Prelude.{◌≡◌, true, false, ◌+◌, ◌≤◌, ◌^◌, ◌<◌, length, OnOk, OnErr, IfOk};
ghost use Rattle.ep_attr.specs.AttrMap.{none};
ghost use Rattle.ep_cs.specs.Steps.{passed};
ghost use Rattle.ep_cs.specs.Draft.{blank, keeping, dropping, inserting, drafted, inserted_by, new_length};
ghost use Rattle.ep_cs.specs.Fits.{AreDocuments};
ghost use Rattle.ep_cs.specs.Runs.{all_passed};
ghost use Rattle.ep_cs.specs.Longer.{LastGoesOn};

use crate::change::Change;
use crate::new_map::without_empty;
use crate::normal::normal;
use crate::op::{Kind, Op};
use crate::packed::Packed;
use ep_attr::AttrMap;
use ep_units::{NoMemory, Units};
use std::alloc::Global;
use std::marker::Model;

/// A change that is being written, from left to right. Each call is one operation of changeset text.
pub struct Builder {
    alloc: Global,
    old_len: u32,
    new_len: u64,
    ops: Vec<Op>,
    bank: Units,
}

impl Drop for Builder {
    fn drop(self) {
        let Builder {
            alloc: _,
            old_len: _,
            new_len: _,
            ops: _,
            bank: _,
        } = self;
    }
}

impl Model for Builder {
    ghost use Rattle.ep_cs.specs.Draft.{Draft};
    ghost use Rattle.ep_cs.specs.Codes.{coded_draft};

    ghost Value = { Draft };

    ghost coded = { coded_draft };

    ghost use Rattle.ep_cs.specs.Packed.{begun, IsBegun};

    ghost view = { begun };

    ghost invariant = { IsBegun };
}

/// Lengthens the last operation by kept units, where it keeps units without newlines with the same map.
fn go_on(ops: &mut Vec<Op>, units: u32, lines: u32, attrs: &AttrMap) -> bool
    requires room { all_passed ops.old.items + units < 2 ^ 32 }
    ensures longer { result ≡ true → LastGoesOn ops.old.items units lines attrs.now ops.new.items }
    ensures same { result ≡ false → ops.new.items ≡ ops.old.items }
{
    match ops.last_mut() {
        Some(last) => last.go_on(units, lines, attrs),
        None => false,
    }
}

/// The same with no attributes.
fn go_on_bare(ops: &mut Vec<Op>, units: u32, lines: u32) -> bool
    requires room { all_passed ops.old.items + units < 2 ^ 32 }
    ensures longer { result ≡ true → LastGoesOn ops.old.items units lines none ops.new.items }
    ensures same { result ≡ false → ops.new.items ≡ ops.old.items }
{
    match ops.last_mut() {
        Some(last) => last.go_on_bare(units, lines),
        None => false,
    }
}

impl Builder {
    /// Nothing written, of a change of so many UTF-16 units.
    pub fn new(alloc: Global, old_len: u32) -> Builder
        ensures { result ≡ blank old_len }
    {
        Builder {
            alloc,
            old_len,
            new_len: u64::from(old_len),
            ops: Vec::new(alloc),
            bank: Units::new(alloc),
        }
    }

    /// Nothing written, with room for so many runs and inserted units.
    pub fn with_capacity(
        alloc: Global,
        old_len: u32,
        runs: usize,
        units: usize,
    ) -> Result<Builder, NoMemory>
        ensures { IfOk result (λ builder. builder ≡ blank old_len) }
    {
        Ok(Builder {
            alloc,
            old_len,
            new_len: u64::from(old_len),
            ops: Vec::with_capacity(alloc, runs)?,
            bank: Units::with_capacity(alloc, units)?,
        })
    }

    /// Keeps so many units with a map. Where they hold newlines, the last is their last unit.
    pub fn keep(&mut self, units: u32, lines: u32, attrs: &AttrMap) -> Result<(), NoMemory>
        requires inside { passed self.old.steps + units ≤ self.old.old }
        requires lined { lines ≤ units }
        ensures ok { OnOk result (self.new ≡ keeping self.old units lines attrs.now) }
        ensures err { OnErr result (self.new ≡ self.old) }
    {
        if attrs.is_none() {
            return self.keep_bare(units, lines);
        }
        let attrs = attrs.copy(self.alloc)?;
        self.keep_owned(units, lines, attrs)
    }

    /// The same with a map that is given away.
    pub fn keep_owned(&mut self, units: u32, lines: u32, attrs: AttrMap) -> Result<(), NoMemory>
        requires inside { passed self.old.steps + units ≤ self.old.old }
        requires lined { lines ≤ units }
        ensures ok { OnOk result (self.new ≡ keeping self.old units lines attrs) }
        ensures err { OnErr result (self.new ≡ self.old) }
    {
        if units == 0 {
            return Ok(());
        }
        if go_on(&mut self.ops, units, lines, &attrs) {
            return Ok(());
        }
        self.ops.push(Op {
            kind: Kind::Keep,
            units,
            lines,
            attrs,
        })?;
        Ok(())
    }

    /// The same with the map without pairs.
    pub fn keep_bare(&mut self, units: u32, lines: u32) -> Result<(), NoMemory>
        requires inside { passed self.old.steps + units ≤ self.old.old }
        requires lined { lines ≤ units }
        ensures ok { OnOk result (self.new ≡ keeping self.old units lines none) }
        ensures err { OnErr result (self.new ≡ self.old) }
    {
        if units == 0 {
            return Ok(());
        }
        if go_on_bare(&mut self.ops, units, lines) {
            return Ok(());
        }
        self.ops.reserve(1)?;
        self.ops.push_reserved(Op {
            kind: Kind::Keep,
            units,
            lines,
            attrs: AttrMap::none(self.alloc),
        });
        Ok(())
    }

    /// Drops so many units. Where they hold newlines, the last is their last unit.
    pub fn drop_units(&mut self, units: u32, lines: u32) -> Result<(), NoMemory>
        requires inside { passed self.old.steps + units ≤ self.old.old }
        requires lined { lines ≤ units }
        ensures ok { OnOk result (self.new ≡ dropping self.old units lines) }
        ensures err { OnErr result (self.new ≡ self.old) }
    {
        if units > 0 {
            self.ops.push(Op {
                kind: Kind::Drop,
                units,
                lines,
                attrs: AttrMap::none(self.alloc),
            })?;
            self.new_len -= units as u64;
        }
        Ok(())
    }

    /// Inserts a text with a map, of which empty values fall away.
    pub fn insert(&mut self, text: &[u16], attrs: &AttrMap) -> Result<(), NoMemory>
        requires { inserted_by self.old.steps + length text.now < 2 ^ 32 }
        ensures ok { OnOk result (self.new ≡ inserting self.old text.now attrs.now) }
        ensures err { OnErr result (self.new ≡ self.old) }
    {
        let attrs = attrs.copy(self.alloc)?;
        self.insert_owned(text, attrs)
    }

    /// The same with a map that is given away.
    pub fn insert_owned(&mut self, text: &[u16], attrs: AttrMap) -> Result<(), NoMemory>
        requires { inserted_by self.old.steps + length text.now < 2 ^ 32 }
        ensures ok { OnOk result (self.new ≡ inserting self.old text.now attrs) }
        ensures err { OnErr result (self.new ≡ self.old) }
    {
        if text.is_empty() {
            return Ok(());
        }
        let attrs = without_empty(self.alloc, attrs)?;
        let units = text.len() as u32;
        self.ops.reserve(1)?;
        self.bank.push_all(text)?;
        self.ops.push_reserved(Op {
            kind: Kind::Insert,
            units,
            lines: 0,
            attrs,
        });
        self.new_len += units as u64;
        Ok(())
    }

    /// The change that was written. Its new length is below 2^32, though it may have been longer in between. Each
    /// piece that it inserts is a document: it is well-formed, and the halves of a pair have equal maps.
    pub fn finish(self) -> Result<Change, NoMemory>
        requires short { new_length self < 2 ^ 32 }
        requires pieces { AreDocuments (drafted self).edit.places (drafted self).edit.last }
        ensures { IfOk result (λ c. c ≡ drafted self) }
    {
        let Builder {
            alloc,
            old_len,
            new_len,
            ops,
            bank,
        } = self;
        let ops = normal(alloc, old_len, ops, bank.as_slice())?;
        Change::packed(
            alloc,
            Packed {
                old_len,
                new_len: new_len as u32,
                ops,
                bank,
            },
        )
    }
}

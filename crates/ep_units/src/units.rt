//! A text as its UTF-16 units.

ghost use Rattle.std.specs.Prelude.{◌≡◌, List, ℕ, [], ◌∷◌, ◌++◌, length, true, ◌↔◌, IsTrue, OnOk, OnErr, IfOk};
ghost use Rattle.std.specs.Char.Escape.{encode_utf16};
ghost use Rattle.ep_units.specs.Text.{is_well_formed};
ghost use Rattle.ep_units.specs.Utf8.{units_of, is_ascii};

use crate::no_memory::NoMemory;
use std::alloc::Global;
use std::marker::Model;

/// A text as its UTF-16 units.
#[derive(Drop)]
pub struct Units {
    units: Vec<u16>,
}

impl Model for Units {
    ghost Value = { List ℕ };

    ghost view = { λ u. u.units.items };
}

impl Units {
    pub fn new(alloc: Global) -> Units
        ensures { result ≡ [] }
    {
        Units {
            units: Vec::new(alloc),
        }
    }

    /// No units, with room for so many.
    pub fn with_capacity(alloc: Global, units: usize) -> Result<Units, NoMemory>
        ensures { IfOk result (λ u. u ≡ []) }
    {
        Ok(Units {
            units: Vec::with_capacity(alloc, units)?,
        })
    }

    /// The units of a text in UTF-8.
    pub fn from_str(alloc: Global, text: &str) -> Result<Units, NoMemory>
        ensures units { IfOk result (λ u. u ≡ units_of text.now) }
        ensures well_formed { IfOk result (λ u. is_well_formed u ≡ true) }
    {
        let mut units = Vec::with_capacity(alloc, text.len())?;
        units.resize(text.len(), 0u16)?;
        if widen(text.as_bytes(), &mut units) {
            return Ok(Units { units });
        }
        Units::from_chars(alloc, text)
    }

    /// The same, character by character.
    fn from_chars(alloc: Global, text: &str) -> Result<Units, NoMemory>
        ensures units { IfOk result (λ u. u ≡ units_of text.now) }
        ensures well_formed { IfOk result (λ u. is_well_formed u ≡ true) }
    {
        let mut units = Units::new(alloc);
        for c in text.chars() {
            units.push_char(c)?;
        }
        Ok(units)
    }

    pub fn from_slice(alloc: Global, units: &[u16]) -> Result<Units, NoMemory>
        ensures { IfOk result (λ u. u ≡ units.now) }
    {
        Ok(Units {
            units: units.to_vec(alloc)?,
        })
    }

    pub fn len(&self) -> usize
        ensures { result ≡ length self.now }
    {
        self.units.len()
    }

    pub fn is_empty(&self) -> bool
        ensures { IsTrue result ↔ (self.now ≡ []) }
    {
        self.units.is_empty()
    }

    fn push_char(&mut self, c: char) -> Result<(), NoMemory>
        ensures { OnOk result (self.new ≡ self.old ++ encode_utf16 c) }
    {
        let mut pair = [0u16; 2];
        self.push_all(c.encode_utf16(&mut pair))
    }

    pub fn as_slice(&self) -> &[u16]
        ensures { result.now ≡ self.now }
    {
        self.units.as_slice()
    }

    pub fn push(&mut self, unit: u16) -> Result<(), NoMemory>
        ensures ok { OnOk result (self.new ≡ self.old ++ unit ∷ []) }
        ensures err { OnErr result (self.new ≡ self.old) }
    {
        self.units.push(unit)?;
        Ok(())
    }

    pub fn push_all(&mut self, units: &[u16]) -> Result<(), NoMemory>
        ensures ok { OnOk result (self.new ≡ self.old ++ units.now) }
        ensures err { OnErr result (self.new ≡ self.old) }
    {
        self.units.extend_from_slice(units)?;
        Ok(())
    }

    pub fn copy(&self, alloc: Global) -> Result<Units, NoMemory>
        ensures { IfOk result (λ u. u ≡ self.now) }
    {
        Units::from_slice(alloc, self.as_slice())
    }
}

/// Sets each unit to its byte, and says whether all bytes are ASCII, so that these are the units of the text.
fn widen(bytes: &[u8], units: &mut [u16]) -> bool
    requires { length bytes.now ≡ length units.old }
    ensures ascii { result ≡ is_ascii bytes.now }
    ensures units { units.new ≡ bytes.now }
{
    let mut ascii = true;
    for i in 0..bytes.len() {
        ascii &= bytes[i] < 128;
        units[i] = u16::from(bytes[i]);
    }
    ascii
}

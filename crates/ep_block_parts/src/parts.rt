//! A text in stretches of one map each.

ghost use Rattle.std.specs.Prelude.{◌≡◌, ◌≤◌, ◌<◌, ◌^◌, ◌+◌, ◌++◌, [], true, length, take, drop, IfOk, OnOk};
ghost use Rattle.ep_cs.specs.Doc.{text_of};
ghost use Rattle.ep_cs.specs.Runs.{cells};
ghost use Rattle.ep_block_parts.specs.Splices.{spliced};

use crate::span::{Span, add_span, first_units, join_span};
use crate::within::{Stretch, Within, take_spans};
use ep_attr::AttrMap;
use ep_units::{NoMemory, Units};
use std::alloc::Global;
use std::marker::Model;

/// For how many stretches there is room at first.
const FEW: usize = 16;

/// A text, and its stretches in order.
#[derive(Drop)]
pub struct Parts {
    text: Units,
    spans: Vec<Span>,
}

impl Model for Parts {
    ghost use Rattle.std.specs.Prelude.{List};
    ghost use Rattle.std.specs.Coded.{coded_list};
    ghost use Rattle.ep_cs.specs.Doc.{Cell};
    ghost use Rattle.ep_cs.specs.Codes.{coded_cell};

    ghost Value = { List Cell };

    ghost coded = { coded_list coded_cell };

    ghost use Rattle.ep_block_parts.specs.Inside.{parted, IsParted};

    ghost view = { parted };

    ghost invariant = { IsParted };
}

impl Parts {
    pub fn empty(alloc: Global) -> Parts
        ensures { result ≡ [] }
    {
        Parts {
            text: Units::new(alloc),
            spans: Vec::new(alloc),
        }
    }

    /// Nothing, with room for so many units.
    pub fn with_room(alloc: Global, units: usize) -> Result<Parts, NoMemory>
        ensures { IfOk result (λ p. p ≡ []) }
    {
        Ok(Parts {
            text: Units::with_capacity(alloc, units)?,
            spans: Vec::with_capacity(alloc, FEW)?,
        })
    }

    pub fn len(&self) -> u32
        ensures { result ≡ length self.now }
    {
        self.text.len() as u32
    }

    pub fn text(&self) -> &[u16]
        ensures text { result.now ≡ text_of self.now }
        ensures short { length result.now < 2 ^ 32 }
    {
        self.text.as_slice()
    }

    /// All of it, to be read.
    pub fn within(&self) -> Within<'_>
        ensures { result ≡ self.now }
    {
        let spans = self.spans.as_slice();
        Within {
            spans,
            left: first_units(spans),
            text: self.text.as_slice(),
        }
    }

    /// Adds a text with a map. Where memory is wanting nothing may be left.
    pub fn push(&mut self, alloc: Global, text: &[u16], attrs: &AttrMap) -> Result<(), NoMemory>
        requires some { 1 ≤ length text.now }
        requires short { length self.old + length text.now < 2 ^ 32 }
        ensures { OnOk result (self.new ≡ self.old ++ cells attrs.now text.now) }
    {
        self.text.push_all(text)?;
        match join_span(alloc, &mut self.spans, text.len() as u32, attrs) {
            Ok(()) => Ok(()),
            Err(no_memory) => {
                *self = Parts::empty(alloc);
                Err(no_memory)
            }
        }
    }

    /// Moves the next units of another text, so many.
    pub fn take_from(
        &mut self,
        alloc: Global,
        rest: &mut Within<'_>,
        units: u32,
    ) -> Result<(), NoMemory>
        requires inside { units ≤ length rest.old }
        requires short { length self.old + units < 2 ^ 32 }
        ensures done { OnOk result (self.new ≡ self.old ++ take units rest.old) }
        ensures rest { OnOk result (rest.new ≡ drop units rest.old) }
    {
        if units == 0 {
            return Ok(());
        }
        match rest.take(units) {
            None => Ok(()),
            Some(first) => {
                self.push(alloc, first.text, first.attrs)?;
                self.take_more(alloc, rest, units - first.text.len() as u32)
            }
        }
    }

    /// Moves the next units of another text, so many, whose next stretch has another map than the last one here.
    fn take_more(
        &mut self,
        alloc: Global,
        rest: &mut Within<'_>,
        units: u32,
    ) -> Result<(), NoMemory>
        requires inside { units ≤ length rest.old }
        requires short { length self.old + units < 2 ^ 32 }
        ensures done { OnOk result (self.new ≡ self.old ++ take units rest.old) }
        ensures rest { OnOk result (rest.new ≡ drop units rest.old) }
    {
        if units == 0 {
            return Ok(());
        }
        self.text.push_all(&rest.text()[..units as usize])?;
        match take_spans(alloc, &mut self.spans, rest, units) {
            Ok(()) => Ok(()),
            Err(no_memory) => {
                *self = Parts::empty(alloc);
                Err(no_memory)
            }
        }
    }

    /// Whether all of it is one stretch with this map.
    fn is_all_of(&self, attrs: &AttrMap) -> bool
        ensures { result ≡ true → self.now ≡ cells attrs.now (text_of self.now) }
    {
        match self.spans.as_slice() {
            [span] => span.attrs == *attrs,
            _ => false,
        }
    }

    /// Text in three pieces, with one map.
    fn of_one_map(
        alloc: Global,
        front: &[u16],
        new: &[u16],
        rear: &[u16],
        attrs: &AttrMap,
    ) -> Result<Parts, NoMemory>
        requires short { length front.now + length new.now + length rear.now < 2 ^ 32 }
        ensures { IfOk result (λ p. p ≡ cells attrs.now ((front.now ++ new.now) ++ rear.now)) }
    {
        let units = front.len() + new.len() + rear.len();
        if units == 0 {
            return Ok(Parts::empty(alloc));
        }
        let mut text = Units::with_capacity(alloc, units)?;
        text.push_all(front)?;
        text.push_all(new)?;
        text.push_all(rear)?;
        let mut spans = Vec::with_capacity(alloc, 1)?;
        add_span(alloc, &mut spans, units as u32, attrs)?;
        Ok(Parts { text, spans })
    }

    /// All of it after a splice, stretch by stretch.
    fn spliced_apart(
        &self,
        alloc: Global,
        at: u32,
        dropped: u32,
        new: Stretch<'_>,
    ) -> Result<Parts, NoMemory>
        requires inside { at + dropped ≤ length self.now }
        requires short { length self.now + length new.text.now < 2 ^ 32 }
        ensures { IfOk result (λ p. p ≡ spliced at dropped (cells new.entry.attrs.now new.entry.text.now) self.now) }
    {
        let left = self.len() - dropped;
        let mut parts = Parts::with_room(alloc, left as usize + new.text.len())?;
        let mut rest = self.within();
        parts.take_from(alloc, &mut rest, at)?;
        rest.skip(dropped);
        if !new.text.is_empty() {
            parts.push(alloc, new.text, new.attrs)?;
        }
        parts.take_from(alloc, &mut rest, left - at)?;
        Ok(parts)
    }

    /// All of it after a splice: other text in the place of so many units.
    pub fn spliced(
        &self,
        alloc: Global,
        at: u32,
        dropped: u32,
        new: Stretch<'_>,
    ) -> Result<Parts, NoMemory>
        requires inside { at + dropped ≤ length self.now }
        requires short { length self.now + length new.text.now < 2 ^ 32 }
        ensures { IfOk result (λ p. p ≡ spliced at dropped (cells new.entry.attrs.now new.entry.text.now) self.now) }
    {
        if !self.is_all_of(new.attrs) {
            return self.spliced_apart(alloc, at, dropped, new);
        }
        let (front, rest) = self.text().split_at(at as usize);
        let (_, rear) = rest.split_at(dropped as usize);
        Parts::of_one_map(alloc, front, new.text, rear, new.attrs)
    }
}

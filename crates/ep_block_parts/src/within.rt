//! Stretches that are read from the first to the last.

ghost use Rattle.std.specs.Prelude.{◌≡◌, ◌≤◌, ◌++◌, [], length, take, drop, MatchBool, MatchOption, IfOk, OnOk};
ghost use Rattle.ep_cs.specs.Doc.{text_of};
ghost use Rattle.ep_cs.specs.Runs.{cells};
ghost use Rattle.ep_block_parts.specs.Spans.{AddsCells};

use crate::span::{Span, add_span, first_units};
use ep_attr::AttrMap;
use ep_units::NoMemory;
use std::alloc::Global;
use std::marker::Model;

/// A text with one map.
#[derive(Clone, Copy)]
pub struct Stretch<'a> {
    pub text: &'a [u16],
    pub attrs: &'a AttrMap,
}

/// What is left: stretches, of whose first so many units are left, and their text.
#[derive(Drop)]
pub struct Within<'a> {
    pub(crate) spans: &'a [Span],
    pub(crate) left: u32,
    pub(crate) text: &'a [u16],
}

impl<'a> Model for Within<'a> {
    ghost use Rattle.std.specs.Prelude.{List};
    ghost use Rattle.std.specs.Coded.{coded_list};
    ghost use Rattle.ep_cs.specs.Doc.{Cell};
    ghost use Rattle.ep_cs.specs.Codes.{coded_cell};

    ghost Value = { List Cell };

    ghost coded = { coded_list coded_cell };

    ghost use Rattle.ep_block_parts.specs.Inside.{left_within, IsWithin};

    ghost view = { left_within };

    ghost invariant = { IsWithin };
}

impl<'a> Within<'a> {
    /// Nothing.
    pub fn nothing() -> Within<'a>
        ensures { result ≡ [] }
    {
        Within {
            spans: &[],
            left: 0,
            text: &[],
        }
    }

    /// How many units are left.
    pub fn len(&self) -> u32
        ensures { result ≡ length self.now }
    {
        self.text.len() as u32
    }

    /// The text that is left.
    pub(crate) fn text(&self) -> &'a [u16]
        ensures { result.now ≡ text_of self.now }
    {
        self.text
    }

    /// Whether nothing is left.
    pub fn is_over(&self) -> bool
        ensures { MatchBool result (self.now ≡ []) (1 ≤ length self.now) }
    {
        self.spans.is_empty()
    }

    /// Takes the next stretch of one map, of at most so many units.
    pub fn take(&mut self, most: u32) -> Option<Stretch<'a>>
        requires { 1 ≤ most }
        ensures { MatchOption result ((self.old ≡ []) × (self.new ≡ []))
            (λ s. (self.old ≡ cells s.attrs.now s.text.now ++ self.new) × (1 ≤ length s.text.now) × (length s.text.now ≤ most)) }
    {
        match self.spans {
            [] => None,
            [span, later @ ..] => {
                let attrs = &span.attrs;
                let units = self.left.min(most);
                let (text, behind) = self.text.split_at(units as usize);
                self.text = behind;
                if units < self.left {
                    self.left -= units;
                    return Some(Stretch { text, attrs });
                }
                self.spans = later;
                self.left = first_units(later);
                Some(Stretch { text, attrs })
            }
        }
    }

    /// Leaves out the next stretch, of at most so many units, and answers how many it has.
    fn skip_stretch(&mut self, most: u32) -> u32
        requires some { 1 ≤ most }
        requires inside { most ≤ length self.old }
        ensures units { (1 ≤ result) × (result ≤ most) }
        ensures rest { self.new ≡ drop result self.old }
    {
        match self.take(most) {
            None => most,
            Some(stretch) => stretch.text.len() as u32,
        }
    }

    /// Leaves out the next units, so many.
    pub(crate) fn skip(&mut self, units: u32)
        requires { units ≤ length self.old }
        ensures { self.new ≡ drop units self.old }
    {
        let mut left = units;
        'stretches: while left > 0 {
            left -= self.skip_stretch(left);
        }
    }
}

/// Moves the next stretch, of at most so many units, behind others, and answers how many it has.
fn take_span(
    alloc: Global,
    spans: &mut Vec<Span>,
    rest: &mut Within<'_>,
    most: u32,
) -> Result<u32, NoMemory>
    requires some { 1 ≤ most }
    requires inside { most ≤ length rest.old }
    ensures units { IfOk result (λ n. (1 ≤ n) × (n ≤ most)) }
    ensures done { IfOk result (λ n. AddsCells spans.old.items (take n rest.old) spans.new.items) }
    ensures rest { IfOk result (λ n. rest.new ≡ drop n rest.old) }
{
    match rest.take(most) {
        None => Ok(most),
        Some(stretch) => {
            let units = stretch.text.len() as u32;
            add_span(alloc, spans, units, stretch.attrs)?;
            Ok(units)
        }
    }
}

/// Moves the stretches of the next units, so many, behind others.
pub(crate) fn take_spans(
    alloc: Global,
    spans: &mut Vec<Span>,
    rest: &mut Within<'_>,
    units: u32,
) -> Result<(), NoMemory>
    requires { units ≤ length rest.old }
    ensures done { OnOk result (AddsCells spans.old.items (take units rest.old) spans.new.items) }
    ensures rest { OnOk result (rest.new ≡ drop units rest.old) }
{
    let mut left = units;
    'stretches: while left > 0 {
        left -= take_span(alloc, spans, rest, left)?;
    }
    Ok(())
}

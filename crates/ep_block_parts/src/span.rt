//! Stretches of units with one map each.

ghost use Rattle.std.specs.Prelude.{◌≡◌, ◌<◌, ◌^◌, ◌+◌, ◌++◌, ◌∷◌, [], IfOk, OnOk};
ghost use Rattle.ep_block_parts.specs.Spans.{Adds, all_units, first_units};

use ep_attr::AttrMap;
use ep_units::NoMemory;
use std::alloc::Global;

/// How many of the last stretches are looked at for an equal map.
const NEAR: usize = 4;

/// So many units with one map.
#[derive(Drop)]
pub struct Span {
    pub units: u32,
    pub attrs: AttrMap,
}

/// How many units the first stretch has, if there is one.
pub fn first_units(spans: &[Span]) -> u32
    ensures { result ≡ first_units spans.now }
{
    match spans {
        [] => 0,
        [span, ..] => span.units,
    }
}

/// Adds a stretch behind the last one.
pub fn add_span(
    alloc: Global,
    spans: &mut Vec<Span>,
    units: u32,
    attrs: &AttrMap,
) -> Result<(), NoMemory>
    ensures { OnOk result (spans.new.items ≡ spans.old.items ++ record { units = units; attrs = attrs.now } ∷ []) }
{
    spans.reserve(1)?;
    let attrs = attrs.copy(alloc)?;
    spans.push_reserved(Span { units, attrs });
    Ok(())
}

/// The map again: that of one of the last stretches where it is equal, which both share then.
#[tactic(auto, using(ep_attr::proofs::SameMap::exact_map))]
fn shared_map(alloc: Global, spans: &[Span], attrs: &AttrMap) -> Result<AttrMap, NoMemory>
    ensures { IfOk result (λ m. m ≡ attrs.now) }
{
    for i in spans.len().saturating_sub(NEAR)..spans.len() {
        if spans[i].attrs == *attrs {
            return spans[i].attrs.copy(alloc);
        }
    }
    attrs.copy(alloc)
}

/// Adds a stretch, to the last one where both have one map.
pub fn join_span(
    alloc: Global,
    spans: &mut Vec<Span>,
    units: u32,
    attrs: &AttrMap,
) -> Result<(), NoMemory>
    requires short { all_units spans.old.items + units < 2 ^ 32 }
    ensures { OnOk result (Adds spans.old.items (record { units = units; attrs = attrs.now }) spans.new.items) }
{
    if let Some(last) = spans.last_mut() {
        if last.attrs == *attrs {
            last.units += units;
            return Ok(());
        }
    }
    let attrs = shared_map(alloc, spans, attrs)?;
    add_span(alloc, spans, units, &attrs)
}

//! A place, and the four bytes in which it is kept.

ghost use Rattle.std.specs.Prelude.{◌≡◌, ◌<◌, ◌^◌};
ghost use Rattle.ep_places.specs.Places.{kept, place_in};

/// Where the record of a revision stands in a journal: its index, the format by which it is read, and whether it holds the
/// document after the revision.
#[derive(Clone, Copy, Debug, PartialEq, Eq)]
pub struct Place {
    pub index: u64,
    pub format: u8,
    pub framed: bool,
}

/// Of a revision without a place.
const NO_PLACE: u32 = u32::MAX;

/// From this index on a place has too few bytes.
const TOO_FAR: u64 = (1 << 30) - 1;

/// A place in four bytes. One whose index is too large for them is none.
pub(crate) fn packed(place: Option<Place>) -> u32
    ensures { place_in result ≡ kept place }
{
    let Some(place) = place else {
        return NO_PLACE;
    };
    if place.index >= TOO_FAR {
        return NO_PLACE;
    }
    let format = if place.format == 1 { 0 } else { 2 };
    let framed = if place.framed { 1 } else { 0 };
    place.index as u32 * 4 + format + framed
}

/// The place that four bytes stand for.
pub(crate) fn unpacked(slot: u32) -> Option<Place>
    ensures { result ≡ place_in slot }
{
    if slot == NO_PLACE {
        return None;
    }
    Some(Place {
        index: u64::from(slot / 4),
        format: if slot % 4 < 2 { 1 } else { 2 },
        framed: slot % 2 == 1,
    })
}

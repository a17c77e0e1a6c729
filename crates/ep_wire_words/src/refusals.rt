//! Refusals of pools and changesets, as those of a message.

use crate::bad::WireBad;
use ep_csread::ReadBad;
use ep_pool::PoolBad;

impl From<PoolBad> for WireBad {
    ghost use Rattle.std.specs.Prelude.{◌≡◌};
    ghost use Rattle.ep_wire_words.specs.Pools.{pool_refusal};

    ghost from_gives = { λ why e. e ≡ pool_refusal why };

    fn from(why: PoolBad) -> WireBad {
        match why {
            PoolBad::NoMemory => WireBad::NoMemory,
            _ => WireBad::Pool(why),
        }
    }
}

impl From<ReadBad> for WireBad {
    ghost use Rattle.std.specs.Prelude.{◌≡◌};
    ghost use Rattle.ep_wire_words.specs.Pools.{changeset_refusal};

    ghost from_gives = { λ why e. e ≡ changeset_refusal why };

    fn from(why: ReadBad) -> WireBad {
        match why {
            ReadBad::NoMemory => WireBad::NoMemory,
            _ => WireBad::Changeset(why),
        }
    }
}

ghost use Rattle.std.specs.Prelude.{refl};
ghost use Rattle.orders.specs.Four.{fewest, lowest, oldest, worn};

use crate::items::{FreeZone, Victim};
use crate::keyed::Keyed;

// Each order gives its definition and its key; that the two agree is `is_by_key`, by computation.

// The victim that writes the fewest blocks; of two alike, the lowest chunk.
#[derive(Clone, Copy)]
pub struct Fewest;

// The victim with the oldest stamp; of two alike, the lowest chunk.
#[derive(Clone, Copy)]
pub struct Oldest;

// The lowest zone.
#[derive(Clone, Copy)]
pub struct Lowest;

// The zone with the fewest resets; of two alike, the lowest zone.
#[derive(Clone, Copy)]
pub struct Worn;

impl Keyed for Fewest {
    type Item = Victim;

    ghost key = { λ v. v.blocks };

    ghost precedes = { fewest };

    ghost is_by_key = { refl };

    fn key(victim: &Victim) -> u32 {
        victim.blocks
    }
}

impl Keyed for Oldest {
    type Item = Victim;

    ghost key = { λ v. v.stamp };

    ghost precedes = { oldest };

    ghost is_by_key = { refl };

    fn key(victim: &Victim) -> u32 {
        victim.stamp
    }
}

// All keys are equal, so the number alone decides.
impl Keyed for Lowest {
    type Item = FreeZone;

    ghost key = { λ _. 0 };

    ghost precedes = { lowest };

    ghost is_by_key = { refl };

    fn key(_zone: &FreeZone) -> u32 {
        0
    }
}

impl Keyed for Worn {
    type Item = FreeZone;

    ghost key = { λ f. f.resets };

    ghost precedes = { worn };

    ghost is_by_key = { refl };

    fn key(zone: &FreeZone) -> u32 {
        zone.resets
    }
}

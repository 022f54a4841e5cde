ghost use Rattle.std.specs.Prelude.{◌≡◌, ◌≤◌, true};
ghost use Rattle.zoned.specs.Limits.{fits};

use crate::counts::Counts;

// The counts of a drive that are within the limits, or else all 0: a drive with no zone and no chunk.
#[derive(Clone, Copy)]
pub struct Geometry {
    pub counts: Counts,
    ghost limits: { fits counts ≡ true },
    ghost few_zones: { counts.zones ≤ 64 },
    ghost few_blocks: { counts.blocks ≤ 64 },
    ghost few_bytes: { counts.bytes ≤ 512 },
}

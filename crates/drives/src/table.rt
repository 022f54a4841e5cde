ghost use Rattle.std.specs.Prelude.{◌≡◌, ℕ, ◌<◌, ◌≤◌, true, map, vec_len, slice_index_or};
ghost use Rattle.zoned.specs.Report.{no_zone, open_count, possible_at};
ghost use Rattle.drives.specs.Zones.{state_of};

use crate::zones::DriveZone;
use zoned::geometry::Geometry;

// All of a drive but its bytes: each zone with its trip, and the misuse mark.
// It has no `impl Model`: contracts would see it without its facts, and a drive has to keep the laws of its traits by them.
#[derive(Drop)]
pub struct ZoneTable {
    pub(crate) geometry: Geometry,
    pub(crate) zones: Vec<DriveZone>,
    pub(crate) misused: bool,
    ghost all_zones: { vec_len zones ≡ geometry.counts.zones },
    ghost possible: { (z : ℕ) → z < geometry.counts.zones → possible_at geometry.counts z (slice_index_or (map state_of zones.items) z no_zone) ≡ true },
    ghost few_open: { open_count (map state_of zones.items) ≤ geometry.counts.open_limit },
}

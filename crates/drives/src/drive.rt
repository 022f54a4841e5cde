ghost use Rattle.std.specs.Prelude.{◌≡◌, ◌+◌};
ghost use Rattle.drives.specs.Kinds.{first_zones};

use crate::area::Area;
use crate::kind::DriveKind;
use crate::table::ZoneTable;

// A drive of either kind: its first zones lie in one area, and the rest in another. Like its table, it has no `impl Model`.
// The second area of a magnetic drive has no zone, and is no `Option`: so every call goes by the zones of the first alone.
#[derive(Drop)]
pub struct Drive {
    pub(crate) kind: DriveKind,
    pub(crate) zones: ZoneTable,
    pub(crate) first: Area,
    pub(crate) rest: Area,
    ghost first_fits: { first.geometry.counts ≡ zones.geometry.counts },
    ghost rest_fits: { rest.geometry.counts ≡ zones.geometry.counts },
    ghost split: { first.zones ≡ first_zones kind zones.geometry.counts },
    ghost all_zones: { first.zones + rest.zones ≡ zones.geometry.counts.zones },
}

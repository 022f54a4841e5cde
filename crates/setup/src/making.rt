ghost use Rattle.std.specs.Prelude.{◌≡◌, IfOk};
ghost use Rattle.drives.specs.Drives.{drive_kind, drive_store, drive_table, new_table};
ghost use Rattle.setup.specs.Setup.{zero_blocks};
ghost use Rattle.zoned.specs.Limits.{kept};

use crate::bytes::filled;
use crate::line::Setup;
use drives::drive::Drive;
use std::alloc::{AllocError, Global};
use zoned::geometry::Geometry;

impl Setup {
    // The drive that is asked for, new, with all bytes 0. With counts outside the limits it has no zones.
    pub fn make(self, heap: Global) -> Result<Drive, AllocError>
        ensures kind { IfOk result (λ d. drive_kind d ≡ self.kind) }
        ensures zones { IfOk result (λ d. drive_table d ≡ new_table (kept self.counts)) }
        ensures store { IfOk result (λ d. drive_store d ≡ zero_blocks (kept self.counts)) }
    {
        let geometry = Geometry::new(self.counts);
        let first = self.kind.first_zones(geometry.counts);
        let rest = geometry.counts.zones.saturating_sub(first);
        let first_area = filled(heap, geometry.bytes_of(first), 0)?;
        let rest_area = filled(heap, geometry.bytes_of(rest), 0)?;
        Drive::new(heap, self.kind, self.counts, first_area, rest_area)
    }
}

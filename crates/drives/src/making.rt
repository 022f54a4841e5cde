ghost use Rattle.std.specs.Prelude.{◌≡◌, ◌-◌, IfOk, vec_len};
ghost use Rattle.drives.specs.declared.kind.DriveKind.TheVariants.{Flash, Magnetic};
ghost use Rattle.drives.specs.Drives.{areas_checked, drive_kind, drive_store, drive_table, held, new_table, new_zones, taken, untripped};
ghost use Rattle.drives.specs.Drives.{flash_blocks, flash_fits, magnetic_blocks, magnetic_fits, split_blocks, split_fits};
ghost use Rattle.drives.specs.Kinds.{first_zones};
ghost use Rattle.drives.specs.Table.{table_of};
ghost use Rattle.zoned.specs.Limits.{bytes_of};

use crate::area::Area;
use crate::drive::Drive;
use crate::kind::DriveKind;
use crate::table::ZoneTable;
use crate::trips::Trip;
use crate::zones::DriveZone;
use std::alloc::{AllocError, Global};
use zoned::conditions::{Bad, Condition, ZoneState};
use zoned::counts::Counts;
use zoned::geometry::Geometry;
use zoned::refusals::InputRefusal;

impl Drive {
    // Turns away counts outside the limits, and then areas of another length than their zones have. The second area of a magnetic drive is
    // that of no zone. Kind and areas stay three parameters: a check borrows the areas, and making a drive takes them.
    pub fn check(
        kind: DriveKind,
        counts: Counts,
        first: &[u8],
        rest: &[u8],
    ) -> Result<(), InputRefusal>
        ensures { result ≡ areas_checked counts (split_fits counts (first_zones kind counts) first.now rest.now) }
    {
        counts.check()?;
        let geometry = Geometry::new(counts);
        let zones = kind.first_zones(counts);
        if first.len() == geometry.bytes_of(zones)
            && rest.len() == geometry.bytes_of(counts.zones.saturating_sub(zones))
        {
            Ok(())
        } else {
            Err(InputRefusal::Length)
        }
    }

    // Those for one kind are there for whoever has that kind, with the areas that it has.
    pub fn check_magnetic(counts: Counts, area: &[u8]) -> Result<(), InputRefusal>
        ensures { result ≡ areas_checked counts (magnetic_fits counts area.now) }
    {
        Drive::check(DriveKind::Magnetic, counts, area, &[])
    }

    pub fn check_flash(
        counts: Counts,
        conventional: &[u8],
        sequential: &[u8],
    ) -> Result<(), InputRefusal>
        ensures { result ≡ areas_checked counts (flash_fits counts conventional.now sequential.now) }
    {
        Drive::check(DriveKind::Flash, counts, conventional, sequential)
    }

    // A new drive over these areas: plain and empty zones, no trip, the mark down. With what the check refuses, a drive with no zones.
    // Heap and counts stay two parameters: the one is the process's, and the other is told of a drive.
    pub fn new(
        heap: Global,
        kind: DriveKind,
        counts: Counts,
        first: Vec<u8>,
        rest: Vec<u8>,
    ) -> Result<Drive, AllocError>
        ensures kind { IfOk result (λ d. drive_kind d ≡ kind) }
        ensures zones { IfOk result (λ d. drive_table d ≡ new_table (taken counts (split_fits counts (first_zones kind counts) first.items rest.items))) }
        ensures blocks { IfOk result (λ d. drive_store d ≡ held counts (split_fits counts (first_zones kind counts) first.items rest.items) (split_blocks counts (first_zones kind counts) first.items rest.items)) }
    {
        match Drive::check(kind, counts, &first, &rest) {
            Ok(()) => Drive::over(heap, kind, Geometry::new(counts), first, rest),
            Err(_) => Drive::over(heap, kind, Geometry::none(), Vec::new(heap), Vec::new(heap)),
        }
    }

    pub fn magnetic(heap: Global, counts: Counts, area: Vec<u8>) -> Result<Drive, AllocError>
        ensures kind { IfOk result (λ d. drive_kind d ≡ Magnetic) }
        ensures zones { IfOk result (λ d. drive_table d ≡ new_table (taken counts (magnetic_fits counts area.items))) }
        ensures blocks { IfOk result (λ d. drive_store d ≡ held counts (magnetic_fits counts area.items) (magnetic_blocks counts area.items)) }
    {
        Drive::new(heap, DriveKind::Magnetic, counts, area, Vec::new(heap))
    }

    pub fn flash(
        heap: Global,
        counts: Counts,
        conventional: Vec<u8>,
        sequential: Vec<u8>,
    ) -> Result<Drive, AllocError>
        ensures kind { IfOk result (λ d. drive_kind d ≡ Flash) }
        ensures zones { IfOk result (λ d. drive_table d ≡ new_table (taken counts (flash_fits counts conventional.items sequential.items))) }
        ensures blocks { IfOk result (λ d. drive_store d ≡ held counts (flash_fits counts conventional.items sequential.items) (flash_blocks counts conventional.items sequential.items)) }
    {
        Drive::new(heap, DriveKind::Flash, counts, conventional, sequential)
    }

    fn over(
        heap: Global,
        kind: DriveKind,
        geometry: Geometry,
        first: Vec<u8>,
        rest: Vec<u8>,
    ) -> Result<Drive, AllocError>
        requires first { vec_len first ≡ bytes_of geometry.counts (first_zones kind geometry.counts) }
        requires rest { vec_len rest ≡ bytes_of geometry.counts (geometry.counts.zones - first_zones kind geometry.counts) }
        ensures kind { IfOk result (λ d. drive_kind d ≡ kind) }
        ensures zones { IfOk result (λ d. drive_table d ≡ new_table geometry.counts) }
        ensures blocks { IfOk result (λ d. drive_store d ≡ split_blocks geometry.counts (first_zones kind geometry.counts) first.items rest.items) }
    {
        let table = ZoneTable::new(heap, geometry)?;
        let zones = kind.first_zones(geometry.counts);
        Ok(Drive {
            kind,
            zones: table,
            first: Area {
                geometry,
                zones,
                cells: first,
            },
            rest: Area {
                geometry,
                zones: geometry.counts.zones.saturating_sub(zones),
                cells: rest,
            },
        })
    }
}

impl ZoneTable {
    // Plain and empty zones, with no trip and the mark down.
    pub(crate) fn new(heap: Global, geometry: Geometry) -> Result<ZoneTable, AllocError>
        ensures zones { IfOk result (λ t. table_of t ≡ new_table geometry.counts) }
        ensures geometry { IfOk result (λ t. t.geometry ≡ geometry) }
    {
        let zones = new_zones(heap, geometry)?;
        Ok(ZoneTable {
            geometry,
            zones,
            misused: false,
        })
    }
}

fn new_zones(heap: Global, geometry: Geometry) -> Result<Vec<DriveZone>, AllocError>
    ensures { IfOk result (λ v. v.items ≡ new_zones geometry.counts) }
{
    let counts = geometry.counts;
    let mut zones = vec![in heap; new_zone(Condition::Plain); counts.conventional as usize]?;
    zones.resize(counts.zones as usize, new_zone(Condition::Empty))?;
    Ok(zones)
}

fn new_zone(condition: Condition) -> DriveZone
    ensures { result ≡ untripped (record { condition = condition; pointer = 0 }) }
{
    DriveZone {
        state: ZoneState {
            condition,
            pointer: 0,
        },
        trip: Trip {
            count: 0,
            into: Bad::Offline,
        },
    }
}

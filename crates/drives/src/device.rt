ghost use Rattle.std.specs.Prelude.{◌≡◌, length};
ghost use Rattle.drives.specs.Areas.{HasBlock};
ghost use Rattle.drives.specs.Drives.{drive_kind, drive_report, drive_state, drive_store, drive_table, trip_set};
ghost use Rattle.drives.specs.Shapes.{drive_shaped, lawful_table};
ghost use Rattle.drives.specs.Table.{table_outcome, table_verdict};
ghost use Rattle.zoned.specs.Commands.{manage as managing, read as reading, write as writing};
ghost use Rattle.zoned.specs.Rules.{block_at, blocks_after, buffer_after, outcome, with_block};
ghost use Rattle.std.proofs.Common.{rules};

use crate::drive::Drive;
use crate::kind::DriveKind;
use crate::machine::Request;
use crate::trips::Trip;
use zoned::commands::Action;
use zoned::conditions::ZoneState;
use zoned::device::{Reporter, ZonedDevice};
use zoned::geometry::Geometry;
use zoned::numbers::{Place, Zone};
use zoned::refusals::{DeviceRefusal, InputRefusal};

impl Reporter for Drive {
    ghost report = { drive_report };

    ghost lawful = { λ d. lawful_table d.zones };

    fn geometry(&self) -> Geometry {
        self.zones.geometry
    }

    fn zone(&self, zone: Zone) -> ZoneState {
        self.zones.zone(zone)
    }
}

// Besides what every device promises, each command says what it leaves of the zones with their trips, and of the blocks. That a call keeps
// the kind and the blocks is said by each that does, as it is no fact of a value.
impl ZonedDevice for Drive {
    ghost state = { drive_state };

    ghost told = { Prim.search rules };

    ghost shaped = { drive_shaped };

    fn manage(&mut self, zone: Zone, action: Action) -> Result<(), DeviceRefusal>
        ensures outcome { outcome (drive_state self.old) (managing action zone.0) ≡ (result, drive_state self.new) }
        ensures zones { table_outcome (drive_table self.old) (managing action zone.0) ≡ (result, drive_table self.new) }
        ensures store { drive_store self.new ≡ drive_store self.old }
        ensures kind { drive_kind self.new ≡ drive_kind self.old }
    {
        self.zones.take(zone, Request::Manage(action))
    }

    fn write(&mut self, zone: Zone, place: Place, block: &[u8]) -> Result<(), DeviceRefusal>
        ensures outcome { outcome (drive_state self.old) (writing zone.0 place.0 block.now) ≡ (result, drive_state self.new) }
        ensures zones { table_outcome (drive_table self.old) (writing zone.0 place.0 block.now) ≡ (result, drive_table self.new) }
        ensures store { drive_store self.new ≡ blocks_after (drive_store self.old) (writing zone.0 place.0 block.now) (table_verdict (drive_table self.old) (writing zone.0 place.0 block.now)) }
        ensures kind { drive_kind self.new ≡ drive_kind self.old }
    {
        let bytes = block.len();
        self.zones.take(zone, Request::Write { place, bytes })?;
        self.put(zone, place, block);
        Ok(())
    }

    fn read(&mut self, zone: Zone, place: Place, buffer: &mut [u8]) -> Result<(), DeviceRefusal>
        ensures outcome { outcome (drive_state self.old) (reading zone.0 place.0 (length buffer.old)) ≡ (result, drive_state self.new) }
        ensures buffer { buffer.new ≡ buffer_after (drive_state self.old) zone.0 place.0 buffer.old }
        ensures zones { table_outcome (drive_table self.old) (reading zone.0 place.0 (length buffer.old)) ≡ (result, drive_table self.new) }
        ensures store { drive_store self.new ≡ drive_store self.old }
        ensures kind { drive_kind self.new ≡ drive_kind self.old }
    {
        let bytes = buffer.len();
        self.zones.take(zone, Request::Read { place, bytes })?;
        self.get(zone, place, buffer);
        Ok(())
    }

    fn misused(&self) -> bool {
        self.zones.misused
    }
}

impl Drive {
    pub fn kind(&self) -> DriveKind
        ensures { result ≡ drive_kind self.now }
    {
        self.kind
    }

    // Gives a zone a trip, in place of the one that it has.
    pub fn set_trip(&mut self, zone: Zone, trip: Trip) -> Result<(), InputRefusal>
        ensures zones { trip_set (drive_table self.old) zone.0 trip ≡ (result, drive_table self.new) }
        ensures store { drive_store self.new ≡ drive_store self.old }
        ensures kind { drive_kind self.new ≡ drive_kind self.old }
    {
        self.zones.set_trip(zone, trip)
    }

    // Writes a block, in the area where its zone lies. The reading below is alike, but for one the area changes and for the other it does not.
    #[tactic(auto, using(crate::specs::Joined::put_first, crate::specs::Joined::put_second, crate::specs::Shapes::zones_held))]
    fn put(&mut self, zone: Zone, place: Place, block: &[u8])
        requires { HasBlock self.old.zones.geometry.counts.zones self.old.zones.geometry.counts zone.0 place.0 (length block.now) }
        ensures blocks { drive_store self.new ≡ with_block (drive_store self.old) zone.0 place.0 block.now }
        ensures zones { self.new.zones ≡ self.old.zones }
        ensures kind { drive_kind self.new ≡ drive_kind self.old }
    {
        let first = self.first.zones;
        if zone.0 < first {
            self.first.put(zone, place, block);
        } else {
            self.rest.put(Zone(zone.0 - first), place, block);
        }
    }

    // Reads a block, from the area where its zone lies.
    #[tactic(auto, using(crate::specs::Joined::block_first, crate::specs::Joined::block_second, crate::specs::Shapes::zones_held))]
    fn get(&self, zone: Zone, place: Place, buffer: &mut [u8])
        requires { HasBlock self.now.zones.geometry.counts.zones self.now.zones.geometry.counts zone.0 place.0 (length buffer.old) }
        ensures { buffer.new ≡ block_at (drive_store self.now) zone.0 place.0 }
    {
        let first = self.first.zones;
        if zone.0 < first {
            self.first.get(zone, place, buffer);
        } else {
            self.rest.get(Zone(zone.0 - first), place, buffer);
        }
    }
}

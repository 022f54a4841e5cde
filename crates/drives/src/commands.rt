ghost use Rattle.std.specs.Prelude.{◌≡◌, not, ◌&&◌, count_by};
ghost use Rattle.zoned.specs.Conditions.{is_open};
ghost use Rattle.drives.specs.declared.zones.DriveZone.{DriveZone};
ghost use Rattle.drives.specs.Drives.{trip_set};
ghost use Rattle.drives.specs.Machine.{crowded, is_opening};
ghost use Rattle.drives.specs.Requests.{asked, operation};
ghost use Rattle.drives.specs.Table.{ruled, table_of, table_outcome};
ghost use Rattle.zoned.specs.Report.{zone_at};
ghost use Rattle.zoned.specs.Rules.{outside};

use crate::machine::{Request, next_state};
use crate::table::ZoneTable;
use crate::trips::Trip;
use zoned::commands::Action;
use zoned::conditions::{Condition, ZoneState};
use zoned::numbers::Zone;
use zoned::refusals::{DeviceRefusal, InputRefusal};

// What is told of a zone that the drive has not.
const NO_ZONE: ZoneState = ZoneState {
    condition: Condition::Offline,
    pointer: 0,
};

// The zone stays beside the request, since much of what is asked of a request is the same for every zone.
impl ZoneTable {
    // What a command does to the zones; all refusals but a bad zone's raise the misuse mark.
    pub(crate) fn take(&mut self, zone: Zone, request: Request) -> Result<(), DeviceRefusal>
        ensures outcome { table_outcome (table_of self.old) (asked zone.0 request) ≡ (result, table_of self.new) }
        ensures geometry { self.new.geometry ≡ self.old.geometry }
    {
        match self.next(zone, request) {
            Ok(next) => {
                let at = zone.0 as usize;
                let (answer, after) = self.zones[at].passed(request, next);
                self.zones[at] = after;
                answer
            }
            Err(refusal) => {
                if refusal != DeviceRefusal::Fault {
                    self.misused = true;
                }
                Err(refusal)
            }
        }
    }

    // What the zone rules make of the zone, or why they turn the request away.
    fn next(&self, zone: Zone, request: Request) -> Result<ZoneState, DeviceRefusal>
        ensures { result ≡ ruled (table_of self.now).told zone.0 request }
    {
        if !self.has(zone, request) {
            return Err(DeviceRefusal::OutOfRange);
        }
        next_state(
            self.geometry,
            self.is_crowded(request),
            zone,
            self.zones[zone.0 as usize].state,
            request,
        )
    }

    // Whether the drive has the zone and, for a write or a read, the place with so many bytes.
    fn has(&self, zone: Zone, request: Request) -> bool
        ensures { result ≡ not (outside self.now.geometry.counts (asked zone.0 request)) }
    {
        let counts = self.geometry.counts;
        zone.0 < counts.zones
            && match request {
                Request::Manage(_) => true,
                Request::Write { place, bytes } | Request::Read { place, bytes } => {
                    place.0 < counts.blocks && bytes == counts.bytes as usize
                }
            }
    }

    // Whether the request opens a zone where as many are open as may be.
    fn is_crowded(&self, request: Request) -> bool
        ensures { result ≡ (is_opening (operation request) && crowded (table_of self.now).told) }
    {
        matches!(request, Request::Manage(Action::Open))
            && self.open_zones() >= self.geometry.counts.open_limit as usize
    }

    fn open_zones(&self) -> usize
        ensures { result ≡ count_by (λ (z : DriveZone). is_open z.state.condition) self.now.zones.items }
    {
        // No `filter` and `count`: over 64 zones an opening then takes seven tenths longer.
        let mut open = 0;
        for zone in &self.zones {
            if zone.state.condition == Condition::Open {
                open += 1;
            }
        }
        open
    }

    // What is told of a zone: offline, pointer 0, where the drive has no such zone.
    pub(crate) fn zone(&self, zone: Zone) -> ZoneState
        ensures { result ≡ zone_at (table_of self.now).told zone.0 }
    {
        // By the geometry, which a listing has asked already, and through a reference: by `get` a listing takes twice as long.
        let found = if zone.0 < self.geometry.counts.zones {
            &self.zones[zone.0 as usize].state
        } else {
            &NO_ZONE
        };
        *found
    }

    pub(crate) fn set_trip(&mut self, zone: Zone, trip: Trip) -> Result<(), InputRefusal>
        ensures outcome { trip_set (table_of self.old) zone.0 trip ≡ (result, table_of self.new) }
        ensures geometry { self.new.geometry ≡ self.old.geometry }
    {
        let Some(found) = self.zones.get_mut(zone.0 as usize) else {
            return Err(InputRefusal::Zone);
        };
        found.trip = trip;
        Ok(())
    }
}

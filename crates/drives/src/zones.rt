ghost use Rattle.std.specs.Prelude.{◌≡◌};
ghost use Rattle.drives.specs.Requests.{operation};
ghost use Rattle.drives.specs.Zones.{due, zone_passed};
ghost use Rattle.zoned.specs.Rules.{fault_condition};

use crate::machine::Request;
use crate::trips::Trip;
use zoned::conditions::{Bad, Condition, ZoneState};
use zoned::refusals::DeviceRefusal;

// A zone of a drive, with the trip that it carries.
#[derive(Clone, Copy)]
pub struct DriveZone {
    pub(crate) state: ZoneState,
    pub(crate) trip: Trip,
}

impl DriveZone {
    // The answer to a request that passed the checks, and the zone after it: it faults where the trip is due, else it is in the next state.
    pub(crate) fn passed(
        self,
        request: Request,
        next: ZoneState,
    ) -> (Result<(), DeviceRefusal>, DriveZone)
        ensures { result ≡ zone_passed self (operation request) next (due self.trip) }
    {
        let DriveZone { state, trip } = self;
        let (answer, state) = if trip.count == 1 {
            let condition = after_fault(request, trip.into);
            (Err(DeviceRefusal::Fault), ZoneState { condition, ..state })
        } else {
            (Ok(()), next)
        };
        let trip = Trip {
            count: trip.count.saturating_sub(1),
            ..trip
        };
        (answer, DriveZone { state, trip })
    }
}

// The condition of a zone after a fault: offline after a read.
fn after_fault(request: Request, into: Bad) -> Condition
    ensures { result ≡ fault_condition (operation request) into }
{
    match request {
        Request::Read { .. } => Condition::Offline,
        Request::Manage(_) | Request::Write { .. } => Condition::from(into),
    }
}

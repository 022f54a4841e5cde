ghost use Rattle.std.specs.Prelude.{◌≡◌, ◌≤◌};
ghost use Rattle.drives.specs.Machine.{at as at_state, machine as machine_of};
ghost use Rattle.drives.specs.Requests.{operation, place};
ghost use Rattle.zoned.specs.Limits.{is_conventional};

use zoned::commands::Action;
use zoned::conditions::Condition::{Closed, Empty, Full, Offline, Open, Plain, ReadOnly};
use zoned::conditions::{Condition, ZoneState};
use zoned::geometry::Geometry;
use zoned::numbers::{Place, Zone};
use zoned::refusals::DeviceRefusal;

// What a command asks of a zone: the command but for its zone, and of its bytes only how many there are.
#[derive(Clone, Copy)]
pub(crate) enum Request {
    Manage(Action),
    Write { place: Place, bytes: usize },
    Read { place: Place, bytes: usize },
}

// The zone machine: what a request makes of a zone in this state, or why the zone does not take it. The drive is crowded where as many zones
// are open as may be.
pub(crate) fn next_state(
    geometry: Geometry,
    crowded: bool,
    zone: Zone,
    state: ZoneState,
    request: Request,
) -> Result<ZoneState, DeviceRefusal>
    requires { state.pointer ≤ geometry.counts.blocks }
    ensures { result ≡ machine_of (is_conventional geometry.counts zone.0) geometry.counts.blocks crowded state.condition state.pointer (operation request) (place request) }
{
    let ZoneState { condition, pointer } = state;
    let blocks = geometry.counts.blocks;
    match (condition, request) {
        (Offline, _) => Err(DeviceRefusal::Fault),
        (_, Request::Read { place, .. }) if geometry.is_conventional(zone) || place.0 < pointer =>
            Ok(state),
        (_, Request::Read { .. }) => Err(DeviceRefusal::Unwritten),
        (ReadOnly, _) => Err(DeviceRefusal::Fault),
        (Plain, Request::Write { .. }) => Ok(state),
        (Open, Request::Manage(Action::Open)) => Ok(state),
        (Empty | Closed, Request::Manage(Action::Open)) if crowded => Err(DeviceRefusal::OpenLimit),
        (Empty | Closed, Request::Manage(Action::Open)) => at(Open, pointer),
        (Open, Request::Manage(Action::Close)) if pointer == 0 => at(Empty, pointer),
        (Open, Request::Manage(Action::Close)) => at(Closed, pointer),
        (Empty | Open | Closed, Request::Manage(Action::Finish)) => at(Full, blocks),
        (Empty | Open | Closed | Full, Request::Manage(Action::Reset)) => at(Empty, 0),
        (Open, Request::Write { place, .. }) if place.0 != pointer => Err(
            DeviceRefusal::OffPointer,
        ),
        (Open, Request::Write { .. }) if pointer + 1 == blocks => at(Full, blocks),
        (Open, Request::Write { .. }) => at(Open, pointer + 1),
        _ => Err(DeviceRefusal::WrongCondition),
    }
}

fn at(condition: Condition, pointer: u32) -> Result<ZoneState, DeviceRefusal>
    ensures { result ≡ at_state condition pointer }
{
    Ok(ZoneState { condition, pointer })
}

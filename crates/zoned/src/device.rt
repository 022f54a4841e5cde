ghost use Rattle.std.specs.Prelude.{◌≡◌, length};
ghost use Rattle.zoned.specs.Commands.{manage as managing, write as writing, read as reading};
ghost use Rattle.zoned.specs.Report.{Report, Lawful, zone_at};
ghost use Rattle.zoned.specs.Rules.{State, Shaped, outcome, buffer_after};

use crate::commands::Action;
use crate::conditions::ZoneState;
use crate::geometry::Geometry;
use crate::numbers::{Place, Zone};
use crate::refusals::DeviceRefusal;

// Tells its fixed geometry, and each zone's condition and pointer.
pub trait Reporter {
    ghost report: { Self → Report };

    fn geometry(&self) -> Geometry
        ensures { result.counts ≡ (report self.now).counts };

    // Of a zone that the drive has not: offline, pointer 0, and no `Option`, since to every reader such a zone is a bad one.
    fn zone(&self, zone: Zone) -> ZoneState
        ensures { result ≡ zone_at (report self.now) zone.0 };

    ghost lawful: { (s : Self) → Lawful (report s) };
}

// A reporter that also takes commands.
// Zone and place stay two parameters: `manage` has a zone alone, and whoever looks a zone up does so apart from the place.
pub trait ZonedDevice: Reporter {
    ghost state: { Self → State };

    // Opens, closes, finishes or resets a zone.
    fn manage(&mut self, zone: Zone, action: Action) -> Result<(), DeviceRefusal>
        ensures { outcome (state self.old) (managing action zone.0) ≡ (result, state self.new) };

    // Writes one block.
    fn write(&mut self, zone: Zone, place: Place, block: &[u8]) -> Result<(), DeviceRefusal>
        ensures { outcome (state self.old) (writing zone.0 place.0 block.now) ≡ (result, state self.new) };

    // Reads one block into the buffer.
    fn read(&mut self, zone: Zone, place: Place, buffer: &mut [u8]) -> Result<(), DeviceRefusal>
        ensures outcome { outcome (state self.old) (reading zone.0 place.0 (length buffer.old)) ≡ (result, state self.new) }
        ensures buffer { buffer.new ≡ buffer_after (state self.old) zone.0 place.0 buffer.old };

    // Whether a command ever broke a zone rule: the misuse mark.
    fn misused(&self) -> bool
        ensures { result ≡ (state self.now).meaning.misused };

    ghost told: { (s : Self) → Self.Reporter.report s ≡ (state s).meaning.told };

    ghost shaped: { (s : Self) → Shaped (state s).meaning };
}

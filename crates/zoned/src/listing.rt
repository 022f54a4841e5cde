ghost use Rattle.std.specs.Prelude.{◌≡◌, ◌+◌, ◌*◌, ◌<◌, ◌≤◌, length};
ghost use Rattle.zoned.specs.Listing.{listed, listed_at};

use crate::device::Reporter;
use crate::numbers::Zone;
use crate::refusals::InputRefusal;

// Lists the zones into the slice, three bytes a zone: its number, its condition's code, its pointer.
pub fn list_zones<R: Reporter>(reporter: &R, out: &mut [u8]) -> Result<(), InputRefusal>
    ensures { listed (R.Reporter.report reporter.now) out.old ≡ (result, out.new) }
{
    let zones = reporter.geometry().counts.zones;
    if out.len() != zones as usize * 3 {
        return Err(InputRefusal::Length);
    }
    // Not over `chunks_exact_mut`: tried, and the proof of what the slice holds in the end did not close.
    for z in 0..zones {
        list_zone(reporter, Zone(z), out);
    }
    Ok(())
}

fn list_zone<R: Reporter>(reporter: &R, zone: Zone, out: &mut [u8])
    requires zone { zone.0 < (R.Reporter.report reporter.now).counts.zones }
    requires room { zone.0 * 3 + 3 ≤ length out.old }
    ensures { out.new ≡ listed_at (R.Reporter.report reporter.now) zone.0 out.old }
{
    let state = reporter.zone(zone);
    let at = zone.0 as usize * 3;
    out[at] = zone.0 as u8;
    out[at + 1] = u8::from(state.condition);
    out[at + 2] = state.pointer as u8;
}

ghost use Rattle.std.specs.Prelude.{◌≡◌, length, OnOk};
ghost use Rattle.drill.specs.declared.instruction.Instruction.TheVariants as To;
ghost use Rattle.drill.specs.Playing.{bytes_of, obeyed, printed};

use crate::drill::Drill;
use crate::instruction::Instruction;
use crate::printing::{put_answer, put_mark, put_read, put_threes};
use setup::bytes::filled;
use std::alloc::AllocError;
use text::replies::{put_number, put_ok};
use zoned::device::{Reporter, ZonedDevice};
use zoned::listing::list_zones;
use zoned::numbers::{Place, Zone};

impl Drill {
    // Does what an instruction asks for; what it prints is added to `out`.
    pub(crate) fn obey(
        &mut self,
        instruction: Instruction,
        out: &mut Vec<u8>,
    ) -> Result<(), AllocError>
        ensures { OnOk result (printed (obeyed self.old instruction) out.old.items ≡ (self.new, out.new.items)) }
    {
        match instruction {
            Instruction::SetTrip(zone, trip) => match self.drive.set_trip(zone, trip) {
                Ok(()) => put_ok(out),
                Err(refusal) => put_number(out, u8::from(refusal)),
            },
            Instruction::Manage(zone, action) => put_answer(out, self.drive.manage(zone, action)),
            Instruction::Write(zone, place, byte) => self.write(zone, place, byte, out),
            Instruction::Read(zone, place) => self.read(zone, place, out),
            Instruction::List => self.list(out),
            Instruction::Mark => put_mark(out, self.drive.misused()),
        }
    }

    fn write(
        &mut self,
        zone: Zone,
        place: Place,
        byte: u8,
        out: &mut Vec<u8>,
    ) -> Result<(), AllocError>
        ensures { OnOk result (printed (obeyed self.old (To.Write zone place byte)) out.old.items ≡ (self.new, out.new.items)) }
    {
        let bytes = self.drive.geometry().counts.bytes;
        let block = filled(self.heap, bytes as usize, byte)?;
        put_answer(out, self.drive.write(zone, place, &block))
    }

    fn read(&mut self, zone: Zone, place: Place, out: &mut Vec<u8>) -> Result<(), AllocError>
        ensures { OnOk result (printed (obeyed self.old (To.Read zone place)) out.old.items ≡ (self.new, out.new.items)) }
    {
        let bytes = self.drive.geometry().counts.bytes;
        let mut buffer = filled(self.heap, bytes as usize, 0)?;
        self.read_into(zone, place, &mut buffer, out)
    }

    // Of a slice: written out in `read`, the goal on the vector did not close.
    fn read_into(
        &mut self,
        zone: Zone,
        place: Place,
        buffer: &mut [u8],
        out: &mut Vec<u8>,
    ) -> Result<(), AllocError>
        requires { length buffer.old ≡ bytes_of self.old }
        ensures { OnOk result (printed (obeyed self.old (To.Read zone place)) out.old.items ≡ (self.new, out.new.items)) }
    {
        let answer = self.drive.read(zone, place, buffer);
        put_read(out, answer, buffer)
    }

    fn list(&mut self, out: &mut Vec<u8>) -> Result<(), AllocError>
        ensures { OnOk result (printed (obeyed self.old To.List) out.old.items ≡ (self.new, out.new.items)) }
    {
        let zones = self.drive.geometry().counts.zones as usize;
        let mut listing = filled(self.heap, zones * 3, 0)?;
        // The listing has the length that is due, so this is never refused.
        let _ = list_zones(&self.drive, &mut listing);
        put_threes(out, &listing)
    }
}

use drives::trips::Trip;
use zoned::commands::Action;
use zoned::numbers::{Place, Zone};

// What a line asks for. Each case holds what it needs, so that a line is read whole before anything is done.
#[derive(Clone, Copy)]
pub enum Instruction {
    SetTrip(Zone, Trip),
    Manage(Zone, Action),
    // a block whose bytes are all this one
    Write(Zone, Place, u8),
    Read(Zone, Place),
    List,
    Mark,
}

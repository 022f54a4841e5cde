ghost use Rattle.std.specs.Prelude.{◌≡◌, Some};
ghost use Rattle.std.specs.Fmt.{decimal};
ghost use Rattle.zoned.specs.Codes.{device_number, input_number};

use std::fmt;

// Why an input is turned away before anything is done. Each refusal has a number of its own.
#[derive(Clone, Copy, PartialEq, Eq, Debug)]
pub enum InputRefusal {
    // counts outside the limits of a geometry
    Geometry = 1,
    // a buffer, a slice or an area of another length than is due
    Length = 3,
    // a zone that the drive has not
    Zone = 4,
}

// Why a device turns a command away, or breaks it off, by its number.
#[derive(Clone, Copy, PartialEq, Eq, Debug)]
pub enum DeviceRefusal {
    // a zone, a place or a length that the drive has not
    OutOfRange = 21,
    // a write at another place than the zone's pointer
    OffPointer = 22,
    // a condition in which the zone does not take the command
    WrongCondition = 23,
    // one open zone too many
    OpenLimit = 24,
    // a read at or past the zone's pointer
    Unwritten = 25,
    // a bad zone, or a fault that makes it one
    Fault = 26,
}

impl From<InputRefusal> for u8 {
    ghost from_gives = { λ refusal number. number ≡ input_number refusal };

    fn from(refusal: InputRefusal) -> u8 {
        refusal as u8
    }
}

impl From<DeviceRefusal> for u8 {
    ghost from_gives = { λ refusal number. number ≡ device_number refusal };

    fn from(refusal: DeviceRefusal) -> u8 {
        refusal as u8
    }
}

// A refusal is printed as its number. The two impls have one text: one for all refusals would be for types that are not of this crate.
impl fmt::Display for InputRefusal {
    ghost output = { λ refusal. Some (decimal (input_number refusal)) };

    fn fmt<W: fmt::Write>(&self, f: &mut fmt::Formatter<W>) -> fmt::Result {
        u8::from(*self).fmt(f)
    }
}

impl fmt::Display for DeviceRefusal {
    ghost output = { λ refusal. Some (decimal (device_number refusal)) };

    fn fmt<W: fmt::Write>(&self, f: &mut fmt::Formatter<W>) -> fmt::Result {
        u8::from(*self).fmt(f)
    }
}

ghost use Rattle.std.specs.Prelude.{◌≡◌};
ghost use Rattle.drill.specs.Reading.{fault_word, instruction_of, lettered, manage_of, read_of, trip_of, write_of};
ghost use Rattle.text.specs.Pieces.{fields};

use crate::instruction::Instruction;
use drives::trips::Trip;
use text::fields::{Fields, FromField};
use zoned::commands::Action;
use zoned::conditions::Bad;
use zoned::numbers::{Place, Zone};

// What a line asks for, if it is understood.
pub fn read_instruction(line: &[u8]) -> Option<Instruction>
    ensures { result ≡ instruction_of (fields line.now) }
{
    let mut rest = Fields::new(line);
    let letter = rest.next_field()?;
    read_lettered(letter, &mut rest)
}

// The instruction of a letter and the fields after it.
fn read_lettered(letter: &[u8], rest: &mut Fields) -> Option<Instruction>
    ensures { result ≡ lettered letter.now rest.old }
{
    let [b] = letter else {
        return None;
    };
    match char::from(*b) {
        't' => read_trip(rest),
        'o' => read_manage(Action::Open, rest),
        'c' => read_manage(Action::Close, rest),
        'f' => read_manage(Action::Finish, rest),
        'x' => read_manage(Action::Reset, rest),
        'w' => read_write(rest),
        'r' => read_read(rest),
        'l' => {
            rest.end()?;
            Some(Instruction::List)
        }
        'q' => {
            rest.end()?;
            Some(Instruction::Mark)
        }
        _ => None,
    }
}

fn read_trip(rest: &mut Fields) -> Option<Instruction>
    ensures { result ≡ trip_of rest.old }
{
    let zone = rest.take()?;
    let count = rest.take()?;
    let FaultWord(into) = rest.take()?;
    rest.end()?;
    Some(Instruction::SetTrip(Zone(zone), Trip { count, into }))
}

fn read_manage(action: Action, rest: &mut Fields) -> Option<Instruction>
    ensures { result ≡ manage_of action rest.old }
{
    let zone = rest.take()?;
    rest.end()?;
    Some(Instruction::Manage(Zone(zone), action))
}

fn read_write(rest: &mut Fields) -> Option<Instruction>
    ensures { result ≡ write_of rest.old }
{
    let zone = rest.take()?;
    let place = rest.take()?;
    let byte = rest.take()?;
    rest.end()?;
    Some(Instruction::Write(Zone(zone), Place(place), byte))
}

fn read_read(rest: &mut Fields) -> Option<Instruction>
    ensures { result ≡ read_of rest.old }
{
    let zone = rest.take()?;
    let place = rest.take()?;
    rest.end()?;
    Some(Instruction::Read(Zone(zone), Place(place)))
}

// The word of a script for the condition that a fault sets: a type of its own, since the enum and the trait are both of other crates.
struct FaultWord(Bad);

impl FromField for FaultWord {
    ghost reads = { fault_word };

    fn from_field(field: &[u8]) -> Option<FaultWord> {
        match field {
            b"ro" => Some(FaultWord(Bad::ReadOnly)),
            b"off" => Some(FaultWord(Bad::Offline)),
            _ => None,
        }
    }
}

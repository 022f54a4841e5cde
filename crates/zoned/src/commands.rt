ghost use Rattle.std.specs.Prelude.{◌≡◌};
ghost use Rattle.zoned.specs.Codes.{action_code};
ghost use Rattle.zoned.specs.Commands.{action_operation};

// What a command that manages a zone does to it, by the code by which ZBC and NVMe name it.
#[derive(Clone, Copy, PartialEq, Eq, Debug)]
pub enum Action {
    Close = 0x01,
    Finish = 0x02,
    Open = 0x03,
    Reset = 0x04,
}

// What a command does, whichever zone, place and bytes it names.
// The actions stand among the other two, and not in a case of their own: the tables of the rules have a column for each of the six.
#[derive(Clone, Copy, PartialEq, Eq, Debug)]
pub enum Operation {
    Open,
    Close,
    Finish,
    Reset,
    Write,
    Read,
}

// Each enum with codes or numbers has such an impl of its own: one for all would be for a type that is not of this crate.
impl From<Action> for u8 {
    ghost from_gives = { λ action code. code ≡ action_code action };

    fn from(action: Action) -> u8 {
        action as u8
    }
}

impl From<Action> for Operation {
    ghost from_gives = { λ action operation. operation ≡ action_operation action };

    fn from(action: Action) -> Operation {
        match action {
            Action::Open => Operation::Open,
            Action::Close => Operation::Close,
            Action::Finish => Operation::Finish,
            Action::Reset => Operation::Reset,
        }
    }
}

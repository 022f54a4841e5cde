ghost use Rattle.std.specs.Prelude.{◌≡◌};
ghost use Rattle.zoned.specs.Codes.{bad_condition, condition_code};
ghost use Rattle.zoned.specs.Conditions.{is_bad};

// The condition of a zone, by the code by which ZBC and NVMe name it. A conventional zone is plain, read-only or offline, and a sequential
// one any other than plain.
#[derive(Clone, Copy, PartialEq, Eq, Debug)]
pub enum Condition {
    Plain = 0x00,
    Empty = 0x01,
    Open = 0x03,
    Closed = 0x04,
    ReadOnly = 0x0d,
    Full = 0x0e,
    Offline = 0x0f,
}

// What a medium fault makes of a zone. A zone in such a condition is called bad. It is a type of its own, so that no fault makes a zone
// anything else.
#[derive(Clone, Copy, PartialEq, Eq, Debug)]
pub enum Bad {
    ReadOnly,
    Offline,
}

// What a reporter tells of a zone: its condition, and the place that its next write takes.
// The pointer is no value inside the condition: it is told of every zone, whatever its condition.
#[derive(Clone, Copy, PartialEq, Eq, Debug)]
pub struct ZoneState {
    pub condition: Condition,
    pub pointer: u32,
}

impl Condition {
    pub fn is_bad(self) -> bool
        ensures { result ≡ is_bad self }
    {
        matches!(self, Condition::ReadOnly | Condition::Offline)
    }
}

impl From<Condition> for u8 {
    ghost from_gives = { λ condition code. code ≡ condition_code condition };

    fn from(condition: Condition) -> u8 {
        condition as u8
    }
}

impl From<Bad> for Condition {
    ghost from_gives = { λ bad condition. condition ≡ bad_condition bad };

    fn from(bad: Bad) -> Condition {
        match bad {
            Bad::ReadOnly => Condition::ReadOnly,
            Bad::Offline => Condition::Offline,
        }
    }
}

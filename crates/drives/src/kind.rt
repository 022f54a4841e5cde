ghost use Rattle.std.specs.Prelude.{◌≡◌};
ghost use Rattle.drives.specs.Kinds.{first_zones};

use zoned::counts::Counts;

// Which of the two drives.
#[derive(Clone, Copy, PartialEq, Eq, Debug)]
pub enum DriveKind {
    Magnetic,
    Flash,
}

impl DriveKind {
    // How many zones lie in the first area of a drive: of a magnetic drive all, and of a flash drive the conventional ones.
    pub fn first_zones(self, counts: Counts) -> u32
        ensures { result ≡ first_zones self counts }
    {
        match self {
            DriveKind::Magnetic => counts.zones,
            DriveKind::Flash => counts.conventional,
        }
    }
}

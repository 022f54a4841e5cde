ghost use Rattle.std.specs.Prelude.{◌≡◌};
ghost use Rattle.setup.specs.Setup.{kind_word, setup_checked, setup_taken};

use drives::kind::DriveKind;
use text::fields::{Fields, FromField};
use zoned::counts::Counts;
use zoned::geometry::Geometry;
use zoned::refusals::InputRefusal;

// What the first line of a script asks for.
#[derive(Clone, Copy)]
pub struct Setup {
    pub kind: DriveKind,
    pub counts: Counts,
}

// The bytes of all blocks of a script's drive are at most so many.
pub const MOST_BYTES: usize = 65536;

// Takes the seven fields of a setup: `smr` or `zns`, then zones, conventional zones, blocks, bytes, open limit and reserve.
pub fn read_setup(line: &mut Fields) -> Option<Setup>
    ensures { setup_taken line.old ≡ (result, line.new) }
{
    let KindWord(kind) = line.take()?;
    Some(Setup {
        kind,
        counts: Counts {
            zones: line.take()?,
            conventional: line.take()?,
            blocks: line.take()?,
            bytes: line.take()?,
            open_limit: line.take()?,
            reserve: line.take()?,
        },
    })
}

impl Setup {
    // Turns away counts outside the limits, and drives of too many bytes.
    pub fn check(self) -> Result<(), InputRefusal>
        ensures { result ≡ setup_checked self }
    {
        self.counts.check()?;
        if Geometry::new(self.counts).bytes_of(self.counts.zones) > MOST_BYTES {
            return Err(InputRefusal::Geometry);
        }
        Ok(())
    }
}

// The word of a script for a kind of drive: a type of its own, since the enum and the trait are both of other crates.
struct KindWord(DriveKind);

impl FromField for KindWord {
    ghost reads = { kind_word };

    fn from_field(field: &[u8]) -> Option<KindWord> {
        match field {
            b"smr" => Some(KindWord(DriveKind::Magnetic)),
            b"zns" => Some(KindWord(DriveKind::Flash)),
            _ => None,
        }
    }
}

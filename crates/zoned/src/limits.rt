ghost use Rattle.std.specs.Prelude.{◌≡◌, ℕ, ◌+◌, ◌-◌, ◌*◌, ◌<◌, ◌≤◌, MatchOption};
ghost use Rattle.zoned.specs.Limits.{none as no_counts, within, checked, kept, chunk_count, buffer_count, bytes_of, is_conventional};
ghost use Rattle.zoned.specs.Blocks.{located, Located};

use crate::counts::Counts;
use crate::geometry::Geometry;
use crate::numbers::{Chunk, LogicalBlock, Place, Zone};
use crate::refusals::InputRefusal;

impl Counts {
    // Whether each count is within its limits.
    fn within(self) -> bool
        ensures { result ≡ within self }
    {
        let Counts {
            zones,
            conventional,
            blocks,
            bytes,
            open_limit,
            reserve,
        } = self;
        (4..=64).contains(&zones)
            && (2..zones).contains(&conventional)
            && (2..=64).contains(&blocks)
            && (16..=512).contains(&bytes)
            && (1..=64).contains(&open_limit)
            && (1..=zones.saturating_sub(conventional)).contains(&reserve)
    }

    // Turns counts outside the limits away.
    pub fn check(self) -> Result<(), InputRefusal>
        ensures { result ≡ checked self }
    {
        if self.within() {
            Ok(())
        } else {
            Err(InputRefusal::Geometry)
        }
    }
}

impl Geometry {
    // The geometry of these counts, or that of no zone where they are outside the limits: no `Option`, so that all above has one case less.
    pub fn new(counts: Counts) -> Geometry
        ensures { result.counts ≡ kept counts }
    {
        if !counts.within() {
            return Geometry::none();
        }
        Geometry { counts }
    }

    // The geometry of a drive with no zone and no chunk.
    pub fn none() -> Geometry
        ensures { result.counts ≡ no_counts }
    {
        Geometry {
            counts: Counts::default(),
        }
    }

    // The chunks of a volume: all zones but zone 0 and the reserve.
    pub fn chunks(self) -> u32
        ensures { result ≡ chunk_count self.counts }
    {
        self.counts
            .zones
            .saturating_sub(1)
            .saturating_sub(self.counts.reserve)
    }

    // The conventional zones that a volume may use: all but zone 0.
    pub fn buffers(self) -> u32
        ensures { result ≡ buffer_count self.counts }
    {
        self.counts.conventional.saturating_sub(1)
    }

    // The bytes of so many zones.
    pub fn bytes_of(self, zones: u32) -> usize
        ensures { result ≡ bytes_of self.counts zones }
    {
        zones as usize * self.counts.blocks as usize * self.counts.bytes as usize
    }

    pub fn is_conventional(self, zone: Zone) -> bool
        ensures { result ≡ is_conventional self.counts zone.0 }
    {
        zone.0 < self.counts.conventional
    }

    // The chunk of a logical block and its place there; none where the volume has no such block.
    pub fn locate(self, block: LogicalBlock) -> Option<(Chunk, Place)>
        ensures value { result ≡ located self.counts block.0 }
        ensures split { MatchOption result (chunk_count self.counts * self.counts.blocks ≤ block.0) (λ at. Located self.counts block.0 at.0.0 at.1.0) }
    {
        if block.0 >= self.chunks() * self.counts.blocks {
            return None;
        }
        Some((
            Chunk(block.0 / self.counts.blocks),
            Place(block.0 % self.counts.blocks),
        ))
    }
}

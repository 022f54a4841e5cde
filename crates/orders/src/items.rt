ghost use Rattle.std.specs.Prelude.{◌≡◌, ℕ};
ghost use Rattle.orders.specs.Items.{victim_number, zone_number};

use zoned::numbers::{Chunk, Zone};

// An item that has a number: that of the chunk or the zone that it stands for.
pub trait Numbered {
    ghost number: { Self → ℕ };

    fn number(&self) -> u32
        ensures { result ≡ number self.now };
}

// How a chunk is reclaimed.
#[derive(Clone, Copy, PartialEq, Eq, Debug)]
pub enum Kind {
    Drop,
    Move,
    Append,
    Merge,
}

// A chunk that may be reclaimed.
#[derive(Clone, Copy, PartialEq, Eq, Debug)]
pub struct Victim {
    pub chunk: Chunk,
    pub kind: Kind,
    // blocks that the reclaim writes
    pub blocks: u32,
    // writes accepted before the chunk's last one
    pub stamp: u32,
}

// A zone that may be claimed.
#[derive(Clone, Copy, PartialEq, Eq, Debug)]
pub struct FreeZone {
    pub zone: Zone,
    // resets accepted for the zone
    pub resets: u32,
}

impl Numbered for Victim {
    ghost number = { victim_number };

    fn number(&self) -> u32 {
        self.chunk.0
    }
}

impl Numbered for FreeZone {
    ghost number = { zone_number };

    fn number(&self) -> u32 {
        self.zone.0
    }
}

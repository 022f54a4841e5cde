ghost use Rattle.std.specs.Prelude.{◌≡◌, ◌+◌, ◌*◌, ◌≤◌, length, take, drop, vec_len};
ghost use Rattle.std.proofs.Math.Seq.{paste};
ghost use Rattle.drives.specs.Areas.{area_blocks, HasBlock, SameShape};
ghost use Rattle.zoned.specs.Rules.{block_at, with_block};

use crate::area::Area;
use zoned::numbers::{Place, Zone};

// The blocks of an area. Its zones are counted from its own first one.
impl Area {
    // Writes a block over the one that stands there.
    pub(crate) fn put(&mut self, zone: Zone, place: Place, block: &[u8])
        requires { HasBlock self.old.zones self.old.geometry.counts zone.0 place.0 (length block.now) }
        ensures blocks { area_blocks self.new ≡ with_block (area_blocks self.old) zone.0 place.0 block.now }
        ensures shape { SameShape self.old self.new }
    {
        let at = self.start(zone, place);
        put_at(&mut self.cells, at, block);
    }

    // Reads the block that stands there.
    pub(crate) fn get(&self, zone: Zone, place: Place, buffer: &mut [u8])
        requires { HasBlock self.now.zones self.now.geometry.counts zone.0 place.0 (length buffer.old) }
        ensures { buffer.new ≡ block_at (area_blocks self.now) zone.0 place.0 }
    {
        let at = self.start(zone, place);
        get_at(&self.cells, at, buffer);
    }

    // Where a block begins.
    fn start(&self, zone: Zone, place: Place) -> usize
        requires { HasBlock self.now.zones self.now.geometry.counts zone.0 place.0 self.now.geometry.counts.bytes }
        ensures value { result ≡ (zone.0 * self.now.geometry.counts.blocks + place.0) * self.now.geometry.counts.bytes }
        ensures within { result + self.now.geometry.counts.bytes ≤ vec_len self.now.cells }
    {
        let counts = self.geometry.counts;
        (zone.0 as usize * counts.blocks as usize + place.0 as usize) * counts.bytes as usize
    }
}

// Of a slice alone, as is the next one: written out in `put` and `get`, the goals on ranges of the vector did not close.

// Writes bytes over those that stand from `at` on.
fn put_at(cells: &mut [u8], at: usize, bytes: &[u8])
    requires { at + length bytes.now ≤ length cells.old }
    ensures { cells.new ≡ paste cells.old at bytes.now (length bytes.now) }
{
    let end = at + bytes.len();
    cells[at..end].copy_from_slice(bytes);
}

// Reads the bytes that stand from `at` on.
fn get_at(cells: &[u8], at: usize, buffer: &mut [u8])
    requires { at + length buffer.old ≤ length cells.now }
    ensures { buffer.new ≡ take (length buffer.old) (drop at cells.now) }
{
    let end = at + buffer.len();
    buffer.copy_from_slice(&cells[at..end]);
}

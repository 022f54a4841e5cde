ghost use Rattle.std.specs.Prelude.{◌≡◌, ◌≤◌, vec_len};
ghost use Rattle.zoned.specs.Limits.{bytes_of};

use zoned::geometry::Geometry;

// The bytes of some zones of a drive: zone after zone, block after block.
// It holds the geometry too, so that its facts are of itself.
// How many zones there are stands beside the bytes: it says in which area a zone lies, and of an area of no bytes the length does not tell it.
#[derive(Drop)]
pub struct Area {
    pub(crate) geometry: Geometry,
    pub(crate) zones: u32,
    pub(crate) cells: Vec<u8>,
    ghost whole: { vec_len cells ≡ bytes_of geometry.counts zones },
    ghost few: { zones ≤ 64 },
}

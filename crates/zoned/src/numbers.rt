// The four numbers that count different things. Each has a type of its own, so that none is passed where another is due. One generic type
// with a mark would keep them apart as well, and have two names at each use.

// A zone of a drive, from 0.
#[derive(Clone, Copy, PartialEq, Eq, Debug)]
pub struct Zone(pub u32);

// A chunk of a volume, from 0: as many blocks as a zone has, wherever they are stored.
#[derive(Clone, Copy, PartialEq, Eq, Debug)]
pub struct Chunk(pub u32);

// A block of a volume, from 0, as its user counts them.
#[derive(Clone, Copy, PartialEq, Eq, Debug)]
pub struct LogicalBlock(pub u32);

// A block of a zone or of a chunk, from 0.
#[derive(Clone, Copy, PartialEq, Eq, Debug)]
pub struct Place(pub u32);

// The six counts of a drive as they are given, within the limits or not.
#[derive(Clone, Copy, PartialEq, Eq, Debug, Default)]
pub struct Counts {
    // zones of the drive
    pub zones: u32,
    // conventional zones, which come first; the others are sequential
    pub conventional: u32,
    // blocks of a zone
    pub blocks: u32,
    // bytes of a block
    pub bytes: u32,
    // zones that may be open at a time
    pub open_limit: u32,
    // sequential zones that a volume keeps in reserve
    pub reserve: u32,
}

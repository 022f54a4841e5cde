use zoned::counts::Counts;
use zoned::geometry::Geometry;
use zoned::numbers::{Chunk, LogicalBlock, Place};

fn counts(
    zones: u32,
    conventional: u32,
    blocks: u32,
    bytes: u32,
    open_limit: u32,
    reserve: u32,
) -> Counts {
    Counts {
        zones,
        conventional,
        blocks,
        bytes,
        open_limit,
        reserve,
    }
}

// Each limit at both ends, and one past it.
#[test]
fn limits(rt: HostRuntime) {
    let accepted = [
        counts(4, 2, 4, 16, 1, 1),
        counts(64, 2, 4, 16, 1, 1),
        counts(8, 2, 4, 16, 1, 1),
        counts(8, 7, 4, 16, 1, 1),
        counts(8, 2, 2, 16, 1, 1),
        counts(8, 2, 64, 16, 1, 1),
        counts(8, 2, 4, 512, 1, 1),
        counts(8, 2, 4, 16, 64, 1),
        counts(8, 2, 4, 16, 1, 6),
    ];
    for c in accepted {
        assert!(rt; c.check().is_ok());
    }
    let refused = [
        counts(3, 2, 4, 16, 1, 1),
        counts(65, 2, 4, 16, 1, 1),
        counts(8, 1, 4, 16, 1, 1),
        counts(8, 8, 4, 16, 1, 1),
        counts(8, 2, 1, 16, 1, 1),
        counts(8, 2, 65, 16, 1, 1),
        counts(8, 2, 4, 15, 1, 1),
        counts(8, 2, 4, 513, 1, 1),
        counts(8, 2, 4, 16, 0, 1),
        counts(8, 2, 4, 16, 65, 1),
        counts(8, 2, 4, 16, 1, 0),
        counts(8, 2, 4, 16, 1, 7),
    ];
    for c in refused {
        assert!(rt; c.check().is_err());
        assert_eq!(rt; Geometry::new(c).chunks(), 0);
    }
}

// A volume of two chunks of four blocks has the blocks 0 to 7.
#[test]
fn blocks(rt: HostRuntime) {
    let geometry = Geometry::new(counts(4, 2, 4, 16, 1, 1));
    assert_eq!(rt; geometry.chunks(), 2);
    assert_eq!(rt; geometry.buffers(), 1);
    assert_eq!(rt;
        geometry.locate(LogicalBlock(7)),
        Some((Chunk(1), Place(3)))
    );
    assert_eq!(rt; geometry.locate(LogicalBlock(8)), None);
}

use drives::drive::Drive;
use drives::trips::Trip;
use std::test::Fail;
use zoned::commands::Action;
use zoned::conditions::{Bad, Condition, ZoneState};
use zoned::counts::Counts;
use zoned::device::{Reporter, ZonedDevice};
use zoned::listing::list_zones;
use zoned::numbers::{Place, Zone};
use zoned::refusals::{DeviceRefusal, InputRefusal};

const COUNTS: Counts = Counts {
    zones: 4,
    conventional: 2,
    blocks: 2,
    bytes: 16,
    open_limit: 1,
    reserve: 1,
};

const NO_RESERVE: Counts = Counts {
    reserve: 0,
    ..COUNTS
};

// The counts are looked at before the area, and a drive that is made all the same has no zones.
#[test]
fn refused_areas(rt: HostRuntime) -> Result<(), Fail> {
    let short = [0u8; 127].to_vec(rt.alloc())?;
    assert_eq!(rt;
        Drive::check_magnetic(COUNTS, &short),
        Err(InputRefusal::Length)
    );
    assert_eq!(rt;
        Drive::check_magnetic(NO_RESERVE, &short),
        Err(InputRefusal::Geometry)
    );
    let mut drive = Drive::magnetic(rt.alloc(), COUNTS, short)?;
    assert_eq!(rt; drive.geometry().counts.zones, 0);
    assert_eq!(rt;
        drive.zone(Zone(0)),
        ZoneState {
            condition: Condition::Offline,
            pointer: 0,
        }
    );
    assert_eq!(rt;
        drive.manage(Zone(0), Action::Open),
        Err(DeviceRefusal::OutOfRange)
    );
    assert!(rt; drive.misused());
    Ok(())
}

// A new drive holds what its areas hold.
#[test]
fn areas_are_kept(rt: HostRuntime) -> Result<(), Fail> {
    let conventional = [7u8; 64].to_vec(rt.alloc())?;
    let sequential = [9u8; 64].to_vec(rt.alloc())?;
    assert_eq!(rt;
        Drive::check_flash(COUNTS, &conventional, &sequential),
        Ok(())
    );
    let mut drive = Drive::flash(rt.alloc(), COUNTS, conventional, sequential)?;
    let mut buffer = [0u8; 16];
    assert_eq!(rt; drive.read(Zone(1), Place(1), &mut buffer), Ok(()));
    assert_eq!(rt; buffer.as_slice(), [7u8; 16].as_slice());
    assert_eq!(rt;
        drive.read(Zone(2), Place(0), &mut buffer),
        Err(DeviceRefusal::Unwritten)
    );
    assert_eq!(rt; drive.manage(Zone(2), Action::Finish), Ok(()));
    assert_eq!(rt; drive.read(Zone(2), Place(1), &mut buffer), Ok(()));
    assert_eq!(rt; buffer.as_slice(), [9u8; 16].as_slice());
    Ok(())
}

// A slice of another length than three bytes a zone stays as it was.
#[test]
fn listings(rt: HostRuntime) -> Result<(), Fail> {
    let mut drive = Drive::magnetic(rt.alloc(), COUNTS, [0u8; 128].to_vec(rt.alloc())?)?;
    assert_eq!(rt; drive.manage(Zone(2), Action::Open), Ok(()));
    let mut short = [5u8; 11];
    assert_eq!(rt; list_zones(&drive, &mut short), Err(InputRefusal::Length));
    assert_eq!(rt; short.as_slice(), [5u8; 11].as_slice());
    let mut whole = [5u8; 12];
    assert_eq!(rt; list_zones(&drive, &mut whole), Ok(()));
    assert_eq!(rt;
        whole.as_slice(),
        [0u8, 0, 0, 1, 0, 0, 2, 3, 0, 3, 1, 0].as_slice()
    );
    Ok(())
}

// The second command that passes faults; one that is turned away does not count.
#[test]
fn trips(rt: HostRuntime) -> Result<(), Fail> {
    let mut drive = Drive::magnetic(rt.alloc(), COUNTS, [0u8; 128].to_vec(rt.alloc())?)?;
    assert_eq!(rt;
        drive.set_trip(
            Zone(4),
            Trip {
                count: 1,
                into: Bad::Offline,
            },
        ),
        Err(InputRefusal::Zone)
    );
    assert_eq!(rt;
        drive.set_trip(
            Zone(2),
            Trip {
                count: 2,
                into: Bad::ReadOnly,
            },
        ),
        Ok(())
    );
    assert_eq!(rt;
        drive.manage(Zone(2), Action::Close),
        Err(DeviceRefusal::WrongCondition)
    );
    assert_eq!(rt; drive.manage(Zone(2), Action::Open), Ok(()));
    assert_eq!(rt;
        drive.write(Zone(2), Place(0), &[1u8; 16]),
        Err(DeviceRefusal::Fault)
    );
    assert_eq!(rt;
        drive.zone(Zone(2)),
        ZoneState {
            condition: Condition::ReadOnly,
            pointer: 0,
        }
    );
    Ok(())
}

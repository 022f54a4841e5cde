use drives::drive::Drive;
use std::alloc::Global;
use std::marker::Model;

// A drive that is drilled. Contracts see it as the zones with their trips, and the blocks.
#[derive(Drop)]
pub struct Drill {
    pub(crate) drive: Drive,
    pub(crate) heap: Global,
}

impl Model for Drill {
    ghost use Rattle.drill.specs.Drilled.{Drilled};
    ghost use Rattle.drives.specs.Drives.{drive_store, drive_table};

    ghost Value = { Drilled };

    ghost view = { λ d. record { zones = drive_table d.drive; blocks = drive_store d.drive } };
}

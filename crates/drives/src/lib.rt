// Zoned drives in memory: a magnetic one, with all its zones in one byte area, and a flash one, with its conventional and its sequential
// zones in two. Zones may carry a trip, by which a test has them fault.
#![tactic(auto)]

pub mod area;
pub mod blocks;
pub mod commands;
pub mod device;
pub mod drive;
pub mod kind;
pub mod machine;
pub mod making;
pub mod table;
pub mod trip_laws;
pub mod trips;
pub mod zones;

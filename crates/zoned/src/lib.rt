// Zoned drives: their numbers, their geometry, the zone rules, and the traits of a reporter and of a device.
#![tactic(auto)]

pub mod commands;
pub mod conditions;
pub mod counts;
pub mod device;
pub mod geometry;
pub mod laws;
pub mod limits;
pub mod listing;
pub mod numbers;
pub mod refusals;

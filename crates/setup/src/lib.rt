// The drive that the first line of a script sets up: its kind and its counts, and the drive itself, with all bytes 0.
#![tactic(auto)]

pub mod bytes;
pub mod line;
pub mod making;

// A drill: a script of commands, played on a drive, and what it prints.
#![tactic(auto)]

pub mod drill;
pub mod instruction;
pub mod obeying;
pub mod playing;
pub mod printing;
pub mod reading;

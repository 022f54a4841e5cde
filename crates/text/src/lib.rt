// The lines of a script: their numbers, their fields, and what is answered to them.
#![tactic(auto)]

pub mod cut;
pub mod decimal;
pub mod fields;
pub mod hex;
pub mod lines;
pub mod replies;

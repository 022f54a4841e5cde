// Orders: what precedes what, the search for the item that precedes all others, and the four orders of a volume.
#![tactic(auto)]

pub mod four;
pub mod items;
pub mod keyed;
pub mod order;
pub mod search;

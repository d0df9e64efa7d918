//! Pieces that are taken in their order, by a caller who makes them together with threads that go ahead. A piece is made in parts, of
//! which several threads may make one each.
#![tactic(auto)]

mod ahead;
mod joining;
mod made;
mod part;
mod parted_work;
mod shelf;
mod window;

pub use ahead::Ahead;
pub use made::Makeable;
pub use parted_work::PartedWork;

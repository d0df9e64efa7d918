//! How a block is related to the accepted block of its number: whether it is that block, or one that would have been
//! accepted in its place.
#![tactic(auto)]

mod in_place;
mod known;
mod laws;
mod relation;

pub use known::{Known, KnownAs};
pub use laws::{linked_in_place_is_linked_before, one_relation};
pub use relation::how_known;

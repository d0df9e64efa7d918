//! Whether a block is the next one of a world, and where its items come from.
#![tactic(auto)]

mod linked;
mod origin;

pub use linked::{DecodedBlock, HashedBlock, LinkedBlock, PlacedBlock};
pub use origin::{Origin, decoded_item, origin_fault, origin_of};

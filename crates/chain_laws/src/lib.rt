//! What holds of whole chains: that what is hashed of an accepted block determines the block.
#![tactic(auto)]

mod laws;

pub use laws::{
    accepted_blocks_have_room, accepted_blocks_tell, equal_commit_hashes_tell,
    equal_commit_hashes_tell_the_chain, steps_keep_room,
};

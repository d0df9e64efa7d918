//! The draft script that a block is shown as: drafted again, it gives the block's transactions to the byte.
#![tactic(auto)]

mod block_comments;
mod fault_place;
mod item_lines;
mod laws;
mod place;
mod raw_lines;
mod raw_reasons;
mod saying;
mod script;
mod signing;

pub use fault_place::place_of_fault;
pub use laws::shown_blocks_are_drafted_again;
pub use script::{block_script, raw_script};

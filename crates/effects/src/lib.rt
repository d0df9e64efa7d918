//! What the valid candidates of a block change: the rows of the keys that transactions write, and the histories; and
//! the definitions that updates give.
#![tactic(auto)]

mod block_effects;
mod changes;
mod defining;
mod keeping;
mod key_effects;
mod writer;
mod writing;
mod written_row;

pub use block_effects::{Effects, effects_of};

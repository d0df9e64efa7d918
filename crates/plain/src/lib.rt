//! What the items of a block make of state, histories, first uses and definitions, over plain lists, slow and obvious. Whether a
//! block is linked, and what is kept of it, is no concern of it. Faster committers are to be compared with it.
#![tactic(auto)]

mod candidate;
mod change;
mod effect;
mod endorsement;
mod fold;
mod history;
mod intake;
mod next_block;
mod ranges;
mod reads;
mod sets;
mod state;
mod state_key;
mod step;
mod world;

pub use next_block::NextBlock;
pub use step::take_block;
pub use world::World;

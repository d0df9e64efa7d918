//! The verdicts of one block, found by workers, each but one in a thread of its own, no matter in which order they
//! reach them.
#![tactic(auto)]

mod checking;
mod deques;
mod gathering;
mod turns;
mod workers;

pub use checking::{Checked, check_all};
pub use gates::{Gate, Open, Phase, Reverse};

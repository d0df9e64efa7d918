//! The checks of one block, candidate by candidate in order, on one thread.
#![tactic(auto)]

mod in_order;

pub use in_order::{flags, verdicts};

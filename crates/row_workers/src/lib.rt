//! The rows of a block's keys, looked up by many threads where look-ups wait for memory.
#![tactic(auto)]

mod looking_up;

pub use looking_up::rows_by;

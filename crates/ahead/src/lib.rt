//! Blocks that are taken in ahead for the ledgers of a channel text, by any thread, and submitted in order.
#![tactic(auto)]

mod prepared;
mod preparing;

pub use prepared::PreparedBlock;
pub use preparing::{NotPrepared, prepare_for, submit_prepared};

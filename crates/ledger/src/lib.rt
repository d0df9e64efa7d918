//! The ledger, which takes blocks one after the other on one thread, and says why their transactions have their flags.
#![tactic(auto)]

mod explaining;
mod ledger;
mod prepared;
mod serial;

pub use explaining::next_reasons;
pub use ledger::Ledger;
pub use prepared::prepare;

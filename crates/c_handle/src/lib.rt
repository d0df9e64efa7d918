//! What C holds of a ledger: a pointer to its box, and whether there is one.
#![tactic(auto)]

mod handle;
mod held;
mod kept;
mod loose;
mod shared_ledger;

pub use handle::{Handle, a_handle_may_be_sent};
pub use held::Held;
pub use kept::Kept;
pub use shared_ledger::SharedLedger;

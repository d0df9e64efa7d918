//! The signatures of a block as verdicts for a caller who checks them, and the law that these suffice.
#![tactic(auto)]

mod laws;
mod listing;

pub use laws::answered_verdicts_suffice;
pub use listing::{ListedVerdicts, list_verdicts};

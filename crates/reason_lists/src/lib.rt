//! Why the transactions of the next block have their flags, in a form that other languages can read: a record for each, whose names,
//! keys and texts are pieces of one pool.
#![tactic(auto)]

mod explaining;
mod identities;
pub mod kinds;
mod laws;
mod listing;
mod places;
mod pooled;
mod pooling;
mod saying;
mod shortfalls;

pub use explaining::explained;
pub use laws::{answered_verdicts_suffice_for_reasons, listed_reasons_say_all};
pub use listing::{ListedReasons, list_reasons};
pub use pooled::{PooledIdentity, PooledReason, Seen};

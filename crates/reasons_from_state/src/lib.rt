//! The reasons of a block: why each of its places has its flag, found where the flags are known.
#![tactic(auto)]

mod endorsement;
mod identity_copies;
mod missing;
mod phantoms;
mod place;
mod place_reason;
mod shortfalls;
mod stale_reads;
mod state_reasons;
mod touchers;
mod update_reasons;
mod verdicts;
mod versions;
mod writers;

pub use place_reason::reason_of;
pub use reasons_before_state::FlaggedBlock;

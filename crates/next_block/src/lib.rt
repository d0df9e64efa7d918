//! The next block of a ledger: its job, first of what needs no world and then of the world, and its delta, of its
//! flags.
#![tactic(auto)]

mod commit_hash;
mod hashing;
mod next_delta;
mod pending;
mod prepared;
mod tentative;

pub use hashing::hash_beside;
pub use next_delta::{NextBlock, flag_duplicates, job_of, job_over, pending_delta_of};
pub use pending::PendingDelta;
pub use prepared::{Prepared, next_of_hashed, prepared_of};
pub use tentative::{TentativeJob, tentative_job_of};

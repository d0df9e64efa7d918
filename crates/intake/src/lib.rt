//! From a block to its candidates: what is known of a transaction without the ledger, for any part of a block, and
//! then, with the ids that are used, what each is.
#![tactic(auto)]

mod placing;
mod taking;

pub use placing::{marked, tentative, tentative_candidates_are_the_definitions};
pub use taking::{Taken, take_in, take_in_one};

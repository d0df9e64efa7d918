//! Header hashes, data hashes, commit hashes and transaction ids. Nothing here takes memory.
#![tactic(auto)]

mod data_hasher;
mod der;
mod hash;

pub use data_hasher::{DataHasher, data_hash};
pub use der::{Der, header_der, integers_are_minimal};
pub use hash::{commit_hash, header_hash, tx_id};

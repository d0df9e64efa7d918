//! Blocks drafted from scripts: ids, signatures and hashes are computed.
#![tactic(auto)]

mod block_bytes;
mod drafting;
mod fault;
mod item;
mod item_encoding;
mod laws;
mod signing;

pub use drafting::{draft, draft_txs};
pub use fault::DraftFault;
pub use laws::drafts_are_authentic;

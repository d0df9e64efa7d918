//! What conflicts cost over a chain: how many transactions have each flag, which keys made them invalid, and whose
//! endorsements were missing.
#![tactic(auto)]

mod chaincode_line;
mod conflict;
mod conflict_key;
mod flag_counts;
mod key_counts;
mod key_table;
mod kind;
mod lack;
mod laws;
mod line;
mod ranking;
mod tables;
mod tally;

pub use chaincode_line::ChaincodeLine;
pub use conflict_key::ConflictKey;
pub use key_counts::KeyCounts;
pub use laws::{
    chains_add_up, conflicts_count_once, flags_add_up, lines_add_up, one_ranking,
    transactions_count_once,
};
pub use line::Line;
pub use tally::Tally;

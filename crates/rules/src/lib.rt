//! The rules of validation and commit: what a ledger holds, and what one string of bytes makes of it.
#![tactic(auto)]

mod answer;
mod bounds;
mod committed;
mod delta;
mod early_flag;
mod event;
mod first_use;
mod flag;
mod history;
mod kept_entry;
mod kept_id;
mod kept_key;
mod keyed_row;
mod laws;
mod read_verdict;
mod row;
mod uses;

pub use answer::{Accepted, Refused};
pub use bounds::is_within;
pub use committed::CommittedBlock;
pub use delta::{Change, Delta, NewDefinition, NewEntry, NewUse};
pub use early_flag::EarlyFlag;
pub use event::Event;
pub use first_use::FirstUse;
pub use flag::Flag;
pub use history::HistoryEntry;
pub use kept_entry::KeptEntry;
pub use kept_id::KeptId;
pub use kept_key::KeptKey;
pub use keyed_row::KeyedRow;
pub use laws::{
    a_block_is_its_delta, checks_decide_what_is_known, checks_in_order_know_everything,
    commit_bytes_tell_the_block, definitions_behind_a_block,
    hashed_bytes_tell_the_commit_hash_before, invalid_transactions_change_nothing,
    known_cells_stay, known_dependencies_make_sure, linked_deltas_keep_linked_blocks,
    names_of_definitions_suffice, numbers_tell_flags, one_step, refused_bytes_change_nothing,
    rows_differ_where_they_are_not_the_same, runs_agree, runs_exist, runs_show_the_fold,
    steps_keep_the_names_of_definitions, the_fold_is_an_assignment,
    update_bytes_are_of_what_is_left, what_a_block_changes_is_its_delta,
};
pub use read_verdict::ReadVerdict;
pub use row::{Row, policy_kept, share_policy, share_row, with_policy};
pub use uses::uses_of;

//! The theorem, in one place: the items of a block are executed serially, and a committer shows the ledgers that this
//! leads to. The functions do nothing at run time; what they ensure is proved.
#![tactic(auto)]

mod answers;
mod committing;
mod consequences;
mod handles;
mod promises;
mod serial;

pub use answers::answers_are_of_shown_ledgers;
pub use committing::{committers_show_ledgers, tellings_show_ledgers};
pub use consequences::{
    each_item_has_one_flag, faults_are_of_bytes, invalid_items_change_nothing, one_answer,
    policies_after_a_block, refused_bytes_change_nothing, valid_items_pass_all_tests,
};
pub use handles::{handles_know_more_and_more, handles_see_what_was_shown};
pub use promises::{
    committers_have_one_answer, no_answer_is_earlier, refusals_show_nothing, shown_ledgers_stay,
};
pub use serial::{blocks_are_executed_serially, steps_are_serial};

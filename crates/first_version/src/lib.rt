//! The first version: what a step of a ledger was when blocks had one version, word for word, and that a step of today
//! is the same if nothing is of another version. The definitions here never change, even if those of `rules` do.
#![tactic(auto)]

mod laws;

pub use laws::{
    chains_that_end_in_version_1, first_version_steps_as_before, one_first_version_step,
};

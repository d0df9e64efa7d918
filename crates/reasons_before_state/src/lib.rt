//! The reasons that a transaction or an update tells without the state before it: of its form, its names, its id, its channel, its
//! creator's signature, and why an update may not be made.
#![tactic(auto)]

mod first_uses;
mod flagged_block;
mod form;
mod identities;
mod item_reasons;
mod policy_texts;
mod ranges_in_form;
mod repeats;
mod undefined;
mod updates;
mod written;

pub use flagged_block::FlaggedBlock;
pub use identities::owned_identity;
pub use item_reasons::reason_in_bytes;
pub use ranges_in_form::queried_range;
pub use written::written_keys;

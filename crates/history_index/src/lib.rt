//! The value writes and deletes of each key, borrowed, newest first.
#![tactic(auto)]

mod entries;
mod hash;
mod hash_index;
mod index;
mod links;
mod lists;

pub use entries::Entries;
pub use index::HistoryIndex;

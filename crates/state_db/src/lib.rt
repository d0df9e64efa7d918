//! The rows of a state in sorted pages, and batches of changes to them.
//!
//! A call takes constant time and no memory unless its comment says otherwise.
#![tactic(auto)]

mod apply;
mod batch;
mod directory;
mod edit;
mod looked_up;
mod page;
mod room;
mod rows;
mod search;
mod slot;
mod slots;
mod spare;
mod state_db;
mod update;

pub use batch::Batch;
pub use looked_up::{FoundRows, KnownRows};
pub use room::Room;
pub use rows::Rows;
pub use state_db::StateDb;

//! The transactions of a block are pre-checked by workers, in parts: the result is that of one thread.
#![tactic(auto)]

mod part;
mod taken_part;
mod taking;

pub use part::Part;
pub use pieces::Crew;
pub use taken_part::{TakenPart, join_parts, take_in_part};
pub use taking::{IntakeRules, TakenIn, take_in};

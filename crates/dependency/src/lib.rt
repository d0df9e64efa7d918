//! The verdicts of one block, found by any checks, in any order.
#![tactic(auto)]

mod checking;
mod event_board;
mod events;

pub use event_board::{EventBoard, NOT_VALIDATED};
pub use events::run_events;
pub use rules::Event;

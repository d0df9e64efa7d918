//! What workers pass before each step of their work on a block, so that tests can hold them back. Gates change no
//! verdict.
#![tactic(auto)]

mod gate;
mod reverse;

pub use gate::{Gate, Open, Phase};
pub use reverse::Reverse;

//! What tests of several crates share: numbers at random, how a test or a call ends, scripts of blocks, and gates
//! that hold workers back.
#![tactic(auto)]

mod failed;
mod holding;
mod long_chain;
mod outcome;
mod random;
mod scripts;
mod text;

pub use failed::{Failed, check, is_alike};
pub use holding::{Awaiting, Meeting, Yielding};
pub use long_chain::{chain_flags, chain_script, keys_script};
pub use outcome::{Outcome, begins};
pub use random::Random;
pub use scripts::script;
pub use text::Text;

//! The read check of one candidate, from what is known of the earlier ones' flags: walks over the operations on keys.
//!
//! No check takes memory, and none waits: where a flag that it needs is unknown, it says whose.
#![tactic(auto)]

mod bounds;
mod compared;
mod deciding;
mod ranges;
mod reads;
mod version;
mod walk;

pub use bounds::{is_compared, version_found};
pub use compared::compared_keys;
pub use deciding::decide;
pub use version::version_at;

//! The endorsement check of one candidate, from what is known of the earlier ones' endorsements.
//!
//! No call takes memory, and none waits: if an endorsement that it needs is unknown, it returns whose.
#![tactic(auto)]

mod deciding;
mod policies;
mod writers;
mod writes;

pub use deciding::decide;
pub use policies::{governing, meets, own_policy};

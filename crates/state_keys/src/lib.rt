//! Keys of the state, with their first bytes beside them, by which most are told apart at once.
//!
//! A call takes constant time and no memory where it says nothing else.
#![tactic(auto)]

mod head;
mod state_key;
mod wanted;

pub use head::{HEAD_BYTES, Head, head_of};
pub use state_key::StateKey;
pub use wanted::Wanted;

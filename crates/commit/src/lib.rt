//! The committer, whose workers check blocks while others query.
#![tactic(auto)]

mod block_bytes;
mod blocks_ahead;
mod by_workers;
mod collecting;
mod committer;
mod context;
mod hashing;
mod laws;
mod not_committed;
mod opening;
mod prepared;
mod published;
mod running;
mod workers;

pub use channel::{Channel, ChannelFault};
pub use committer::Committer;
pub use laws::a_run_is_a_chain;
pub use not_committed::NotCommitted;
pub use opening::OpenFault;
pub use query::{QueryFault, QueryHandle, RangeRows, Receipt, Reply};
pub use rules::{Accepted, CommittedBlock, Delta, Flag, Refused};
pub use running::Answer;
pub use workers::MAX_WORKERS;
pub use world::World;

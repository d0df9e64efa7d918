//! Calls of public functions that nothing else in the product calls. Their proofs show that a caller outside of their
//! crates can meet what they require.
#![tactic(auto)]

mod block_job;
mod hmac;
mod plain_block;
mod prepared_block;
mod publishing;

pub use block_job::job_of;
pub use hmac::message_code;
pub use plain_block::flags_of;
pub use prepared_block::answer_to_prepared;
pub use publishing::{is_linked, publish_linked};

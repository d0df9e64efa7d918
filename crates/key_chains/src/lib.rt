//! One block as it is checked: its candidates over the state before it, and for each key that they write who writes it.
#![tactic(auto)]

mod block_rows;
mod board;
mod chains;
mod decision;
mod job;
mod key_writers;
mod links;
mod numbering;
mod operation;
mod plain_board;
mod room;

pub use block_rows::{BlockRows, read_rows};
pub use board::Board;
pub use candidates::{Candidate, OpenTx, StateKey, WrittenKey};
pub use decision::Decision;
pub use job::Job;
pub use key_writers::KeyWriters;
pub use links::{Chain, Operations, PolicyWriters};
pub use operation::{Kind, Operation};
pub use plain_board::{Cells, PlainBoard};

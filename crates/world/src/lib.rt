//! What a ledger holds: its state, the history of each key, the first use of each id, the policies of its chaincodes, its blocks. A
//! block's delta is applied at the cost of the delta and of a search for each row that it changes, which is logarithmic in their number.
#![tactic(auto)]

mod deltas;
mod range;
mod ready;
mod room;
mod world;

pub use range::RangeAnswer;
pub use ready::ReadyDelta;
pub use room::Room;
pub use world::World;

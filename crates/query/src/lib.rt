//! Whole blocks published to threads that query. Each answer comes from one height, and no handle sees a height below
//! one that it has seen or was told of; no query waits.
#![tactic(auto)]

mod answers;
mod asking;
mod copies;
mod fault;
mod front;
mod handle;
mod opening;
mod publisher;
mod question;
mod receipt;
mod shown;

pub use answers::{PolicyText, QueryFault, RangeRows, Reply};
pub use fault::PublishFault;
pub use front::Front;
pub use handle::QueryHandle;
pub use opening::{MAX_READERS, OpenFault, open};
pub use publisher::Publisher;
pub use receipt::Receipt;

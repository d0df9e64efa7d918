//! Candidates: what each transaction or update of a block is before the rules on the state. Flagged, or open with its
//! signers: a transaction with the keys that it writes gathered in order, an update with the policy that its text
//! encodes.
#![tactic(auto)]

mod candidate;
mod defined;
mod form;
mod gathering;
mod in_form;
mod in_order;
mod labels;
mod laws;
mod open_tx;
mod open_update;
mod written_key;
mod written_value;

pub use candidate::Candidate;
pub use in_form::InForm;
pub use in_order::keys_in_order;
pub use labels::is_among;
pub use laws::keys_have_one_order;
pub use open_tx::OpenTx;
pub use open_update::OpenUpdate;
pub use state_keys::StateKey;
pub use written_key::WrittenKey;
pub use written_value::{Spots, WrittenValue};

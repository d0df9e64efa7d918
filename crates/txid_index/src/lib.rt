//! The ids that transactions used: where each was used first, in constant time for one id.
#![tactic(auto)]

mod found;
mod hash;
mod id_key;
mod ids;
mod lists;
mod marks;

pub use ids::TxIds;

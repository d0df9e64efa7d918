//! Draft scripts: what a user writes of the transactions and updates of a block.
#![tactic(auto)]

mod draft;
mod keyed;
mod laws;
mod lines;
mod namespace;
mod namespaces;
mod numbers;
mod parts;
mod saying;
mod script;
mod so_far;

pub use draft::{Content, Draft};
pub use keyed::{OwnedKeyVersion, OwnedPolicyWrite, OwnedRead, OwnedWrite};
pub use laws::{limits_are_the_definitions, raw_lines_are_read};
pub use namespace::{OwnedNsSet, OwnedRange};
pub use namespaces::Namespaces;
pub use script::{Item, Script, read};

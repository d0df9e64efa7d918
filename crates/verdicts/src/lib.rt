//! A verifier whose answers were found beforehand: what was said of each signature, in a form that other languages can write.
#![tactic(auto)]

mod index;
mod signed;
mod table;
mod verdict;

pub use signed::role_number;
pub use table::Table;
pub use verdict::{Piece, Verdict};

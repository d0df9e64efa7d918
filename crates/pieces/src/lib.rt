//! Work over the pieces of a list by several threads: what comes out is what one thread makes of them in order.
#![tactic(auto)]

mod crew;
mod drawing;
mod joining;
mod work;

pub use crew::{Crew, in_pieces};
pub use work::Work;

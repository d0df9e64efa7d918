//! The tables of texts were worked out by hand from the grammar.

use policy::{Policy, PolicyFault};
use std::alloc::Global;

mod bytes;
mod definitions;
mod faults;
mod limits;
mod texts;
mod told;

fn fault_of(alloc: Global, text: &str) -> Option<PolicyFault> {
    Policy::parse(alloc, text).err()
}

//! Bytes as JSON has them (RFC 8259): a string where they are UTF-8, else their digits.
#![tactic(auto)]

mod laws;
mod value;

pub use laws::{values_are_read_back, values_differ};
pub use value::{write_string, write_value};

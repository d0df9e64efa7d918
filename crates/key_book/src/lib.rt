//! The stand-in verifier: HMAC-SHA-256 signatures over a shared book of keys.
#![tactic(auto)]

mod fault;
mod hmac;
mod identity_text;
mod key_book;
mod keyed;
mod laws;

pub use fault::KeyBookFault;
pub use hmac::hmac_sha256;
pub use identity_text::read_identity;
pub use key_book::KeyBook;
pub use laws::limits_are_the_definitions;

//! Owned, lent and shared values: bytes, lists, names and keys, which contracts see as plain lists.
//!
//! A call takes constant time and no memory where it says nothing else.
#![tactic(auto)]

mod bytes;
mod hash;
mod items;
mod key;
mod laws;
mod lent;
mod name;
mod part;
mod shared;

pub use bytes::Bytes;
pub use hash::{HASH_BYTES, Hash};
pub use items::Items;
pub use key::{Key, MAX_KEY, is_bound, is_key};
pub use laws::limits_are_the_definitions;
pub use lent::{BoundRef, KeyRef, NameRef, Slice};
pub use name::{MAX_NAME, Name, is_name};
pub use part::{Part, found_at};
pub use shared::Shared;

//! Blocks: their types, which borrow from the bytes that they were decoded from, and their bytes both ways.
//!
//! The contents of a block's places have their names here too: code that decodes and encodes blocks, transactions,
//! updates and identities needs to name only this crate.
#![tactic(auto)]

mod block;
mod fault;
mod laws;
mod reader;
mod writer;

pub use block::{Block, Header, MAX_TXS, Previous};
pub use fault::BlockFault;
pub use laws::{limits_are_the_definitions, one_first_version_reading, one_reading};
pub use reader::decode_block;
pub use transaction::{
    BlockVersion, EncodeFault, Endorsement, Identity, Item, KeyVersion, NsSet, PolicyWrite, Range,
    Read, Role, SpelledItem, SpelledTx, Tx, TxFault, TxId, Update, Version, Write, decode_identity,
    decode_item, decode_tx, encode_body, encode_identity, encode_signed, encode_tx, encode_update,
    encode_update_body, encode_update_signed,
};
pub use writer::encode_block;

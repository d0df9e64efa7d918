//! Transactions, updates of definitions and identities: their types, which lend from the bytes that they were decoded
//! from, and their bytes both ways.
#![tactic(auto)]

mod block_version;
mod cut;
mod fault;
mod field;
mod identity;
mod item;
mod item_reader;
mod labelled;
mod laws;
mod limits;
mod opening;
mod places;
mod put;
mod reader;
mod spelled;
mod spelled_item;
mod transaction;
mod update;
mod update_writer;
mod writer;

pub use block_version::BlockVersion;
pub use fault::{EncodeFault, TxFault};
pub use identity::{Identity, OwnedIdentity, Role};
pub use item::Item;
pub use item_reader::decode_item;
pub use labelled::Labelled;
pub use laws::{item_reading, limits_are_the_definitions, transaction_reading};
pub use limits::{ID_BYTES, MAX_ENDORSEMENTS, MAX_TX_BYTES};
pub use put::{put_counted8, put_counted16, put_counted32, put_length32, put_u32, put_u64};
pub use reader::{decode_identity, decode_tx};
pub use spelled::SpelledTx;
pub use spelled_item::SpelledItem;
pub use transaction::{
    Endorsement, KeyVersion, NsSet, PolicyWrite, Range, Read, Tx, TxId, Version, Write,
};
pub use update::Update;
pub use update_writer::{encode_update, encode_update_body, encode_update_signed};
pub use writer::{append_identity, encode_body, encode_identity, encode_signed, encode_tx};

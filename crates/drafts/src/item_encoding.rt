//! The bytes of a transaction or an update, in whole or in part.
ghost use Rattle.std.specs.Prelude.{IfOk};
ghost use Rattle.transaction.specs.Items.{SpellsItem, item_body_bytes};
ghost use Rattle.transaction.specs.declared.block_version.BlockVersion.TheVariants.{V2};
ghost use Rattle.drafts.specs.DraftItem.{item_signed_bytes, item_whole_bytes};
ghost use Rattle.drafts.specs.Encoding.{Encodes, IsBodyItem, IsSignedItem, IsWholeItem};

use std::alloc::Global;
use transaction::{
    EncodeFault, Item, encode_body, encode_signed, encode_tx, encode_update, encode_update_body,
    encode_update_signed,
};
use values::Bytes;

// What an endorser signs, before its own identity.
pub(crate) fn encode_item_body(alloc: Global, item: &Item<'_>) -> Result<Bytes, EncodeFault>
    requires { IsBodyItem item.now }
    ensures { Encodes result (item_body_bytes item.now) }
{
    match item {
        Item::Tx(tx) => encode_body(alloc, tx),
        Item::Update(update) => encode_update_body(alloc, update),
    }
}

// What the creator signs.
pub(crate) fn encode_item_signed(alloc: Global, item: &Item<'_>) -> Result<Bytes, EncodeFault>
    requires { IsSignedItem item.now }
    ensures { Encodes result (item_signed_bytes item.now) }
{
    match item {
        Item::Tx(tx) => encode_signed(alloc, tx),
        Item::Update(update) => encode_update_signed(alloc, update),
    }
}

pub(crate) fn encode_item(alloc: Global, item: &Item<'_>) -> Result<Bytes, EncodeFault>
    requires { IsWholeItem item.now }
    ensures encodes { Encodes result (item_whole_bytes item.now) }
    ensures spelled { IfOk result (λ bytes. SpellsItem V2 bytes item.now) }
{
    match item {
        Item::Tx(tx) => encode_tx(alloc, tx),
        Item::Update(update) => encode_update(alloc, update),
    }
}

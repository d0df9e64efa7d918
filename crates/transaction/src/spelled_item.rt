ghost use Rattle.std.specs.Prelude.{◌≡◌};
ghost use Rattle.transaction.specs.declared.block_version.BlockVersion.TheVariants.{V2};
ghost use Rattle.transaction.specs.Grammar.{identity_bytes};
ghost use Rattle.transaction.specs.Items.{SpellsItem, SpellsSignedItem, IsSpelledItem, item_body_bytes, creator_of};

use crate::cut::{before_endorsements, before_signature, identity_behind};
use crate::item::Item;
use crate::limits::ID_BYTES;
use std::marker::Model;

/// An item with the bytes that spell it, both lent. A contract sees the item.
///
/// It lends the parts of its bytes that are signed and hashed, so that they can't be those of another item.
#[derive(Drop)]
pub struct SpelledItem<'a> {
    item: Item<'a>,
    bytes: &'a [u8],
}

impl<'a> Model for SpelledItem<'a> {
    ghost use Rattle.transaction.specs.declared.block_version.BlockVersion.TheVariants.{V2};
    ghost use Rattle.transaction.specs.declared.item.Item.{Item};
    ghost use Rattle.transaction.specs.Items.{SpellsItem};

    ghost Value = { Item };

    ghost view = { λ s. s.item };

    // What version 1 has, version 2 has too.
    ghost invariant = { λ s. SpellsItem V2 s.bytes.now s.item };
}

impl<'a> SpelledItem<'a> {
    pub(crate) fn new(item: Item<'a>, bytes: &'a [u8]) -> SpelledItem<'a>
        requires { SpellsItem V2 bytes.now item }
        ensures { result ≡ item.entry }
    {
        SpelledItem { item, bytes }
    }

    /// The item.
    pub fn item(&self) -> &Item<'a>
        ensures value { result.now ≡ self.now }
        ensures spelled { IsSpelledItem result.now }
    {
        &self.item
    }

    /// The item, without its bytes.
    pub fn into_item(self) -> Item<'a>
        ensures value { result ≡ self.entry }
        ensures spelled { IsSpelledItem result }
    {
        self.item
    }

    /// What the creator signs: all bytes before the creator's signature. Constant time, no copy.
    pub fn creator_message(&self) -> &'a [u8]
        ensures { SpellsSignedItem result.now self.now }
    {
        match &self.item {
            Item::Tx(tx) => before_signature(self.bytes, &tx.signature),
            Item::Update(update) => before_signature(self.bytes, &update.signature),
        }
    }

    /// The body, with which begins what each endorser signs. Linear in the number of endorsements, no copy.
    pub fn body(&self) -> &'a [u8]
        ensures { result.now ≡ item_body_bytes self.now }
    {
        let signed = self.creator_message();
        match &self.item {
            Item::Tx(tx) => before_endorsements(signed, tx.endorsements.as_slice()),
            Item::Update(update) => before_endorsements(signed, update.endorsements.as_slice()),
        }
    }

    /// The creator's identity bytes, which the id is made of. Constant time, no copy.
    pub fn creator_bytes(&self) -> &'a [u8]
        ensures { result.now ≡ identity_bytes (creator_of self.now) }
    {
        match &self.item {
            Item::Tx(tx) => {
                let start = 1 + tx.channel.len() + ID_BYTES;
                identity_behind(self.bytes, start, &tx.creator)
            }
            Item::Update(update) => {
                let start = 2 + update.channel.len() + ID_BYTES;
                identity_behind(self.bytes, start, &update.creator)
            }
        }
    }
}

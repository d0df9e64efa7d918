ghost use Rattle.std.specs.Prelude.{◌≡◌, ◌<◌, ◌↔◌, ℕ, List, Some, slice_index};
ghost use Rattle.transaction.specs.declared.block_version.BlockVersion.{BlockVersion};
ghost use Rattle.transaction.specs.declared.item.Item.{Item};
ghost use Rattle.transaction.specs.declared.transaction.Tx.{Tx};
ghost use Rattle.transaction.specs.Limits.{id_bytes, max_endorsements, max_tx_bytes};
ghost use Rattle.transaction.specs.Grammar.{SpellsTx};
ghost use Rattle.transaction.specs.Decoded.{tx_of};
ghost use Rattle.transaction.specs.Items.{SpellsItem, item_of};

use crate::limits::{ID_BYTES, MAX_ENDORSEMENTS, MAX_TX_BYTES};

/// A law, and no work: the limits of this code are those that the definitions name.
pub fn limits_are_the_definitions()
    ensures id { ID_BYTES ≡ id_bytes }
    ensures endorsements { MAX_ENDORSEMENTS ≡ max_endorsements }
    ensures tx { MAX_TX_BYTES ≡ max_tx_bytes }
{}

/// A law of the transaction grammar, and no work: what `tx_of` gives for bytes is the transaction that they
/// spell, and none where they spell none.
pub fn transaction_reading()
    ensures { (bytes : List ℕ) (tx : Tx) → ((i : ℕ) → slice_index bytes i < 256) → (tx_of bytes ≡ Some tx) ↔ SpellsTx bytes tx }
{}

/// A law of the grammar of items, and no work: what `item_of` gives for bytes, in a block of either version, is the
/// item that they spell, and none where they spell none.
pub fn item_reading()
    ensures { (version : BlockVersion) (bytes : List ℕ) (item : Item) → ((i : ℕ) → slice_index bytes i < 256) → (item_of version bytes ≡ Some item) ↔ SpellsItem version bytes item }
{}

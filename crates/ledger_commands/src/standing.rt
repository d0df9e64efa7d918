//! What is asked about the ledger that is there.
ghost use Rattle.rules.specs.Names.{HasNamesOf};

use channel::Configuration;
use key_book::KeyBook;
use world::World;

/// A channel and what its ledger holds, and the keys that signatures are checked with.
#[derive(Drop)]
pub struct Standing<'b> {
    pub channel: &'b Configuration,
    pub world: &'b World,
    pub keys: &'b KeyBook,
    ghost names: { HasNamesOf channel.now world.now },
}

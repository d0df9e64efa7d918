//! Blocks that scripts draft, one behind the other, and what each changes.
ghost use Rattle.std.specs.Prelude.{◌≡◌, ◌+◌, ◌<◌, ◌^◌, IfOk, IfSome};
ghost use Rattle.std.specs.FinMap.{empty};
ghost use Rattle.rules.specs.World.{empty_world};

use block::{BlockFault, BlockVersion, Header, decode_block};
use channel::{Channel, ChannelFault};
use commit::{Accepted, Refused};
use drafts::draft;
use key_book::KeyBook;
use ledger::Ledger;
use policy::Definitions;
use rules::Delta;
use std::alloc::{AllocError, Global};
use test_support::Failed;
use values::{BoundRef, Bytes, KeyRef, Name, NameRef, is_bound, is_key, is_name};
use world::World;

const CHANNEL: &str = "\
channel ch
chaincode cc OR('Org1.peer','Org2.peer')
chaincode dd OR('Org1.peer')
admin OR('Org1.peer','Org2.peer')
";

const KEYS: &str = "Org1:client:c0 11\nOrg1:peer:p0 22\nOrg2:peer:q0 33\n";

/// The name. The error is `Missing` where the bytes are none.
pub fn name(bytes: &[u8]) -> Result<NameRef<'_>, Failed> {
    if !is_name(bytes) {
        return Err(Failed::Missing("a name"));
    }
    Ok(NameRef::new(bytes))
}

/// The key. The error is `Missing` where the bytes are none.
pub fn key(bytes: &[u8]) -> Result<KeyRef<'_>, Failed> {
    if !is_key(bytes) {
        return Err(Failed::Missing("a key"));
    }
    Ok(KeyRef::new(bytes))
}

/// The channel of all blocks.
pub fn configuration(alloc: Global) -> Result<Channel, ChannelFault> {
    Channel::read(alloc, CHANNEL)
}

/// The world of height 0 of a channel without chaincodes.
pub fn empty_world(alloc: Global) -> World
    ensures { result ≡ empty_world empty }
{
    World::new(alloc, Definitions::new(alloc))
}

/// The world of height 0 of the channel of all blocks, twice.
pub fn first_worlds(alloc: Global) -> Result<(World, World), Failed>
    ensures { IfOk result (λ worlds. worlds.0 ≡ worlds.1) }
{
    let (_, definitions) = configuration(alloc)?.into_parts();
    let copy = definitions.copy(alloc)?;
    Ok((World::new(alloc, definitions), World::new(alloc, copy)))
}

/// The bound. The error is `Missing` where the bytes are none.
pub fn bound(bytes: &[u8]) -> Result<BoundRef<'_>, Failed> {
    if !is_bound(bytes) {
        return Err(Failed::Missing("a bound"));
    }
    Ok(BoundRef::new(bytes))
}

/// A ledger, and the blocks that it is to take next.
#[derive(Drop)]
pub struct Drafter {
    alloc: Global,
    keys: KeyBook,
    ledger: Ledger,
}

fn header_of(alloc: Global, bytes: &[u8]) -> Result<Header, BlockFault> {
    let block = decode_block(alloc, bytes)?;
    Ok(block.header)
}

// The header that the next block stands behind.
fn last_header(alloc: Global, world: &World) -> Result<Option<Header>, BlockFault> {
    match world.block(world.height().saturating_sub(1)) {
        Some(block) => Ok(Some(header_of(alloc, block.bytes.get().as_slice())?)),
        None => Ok(None),
    }
}

// The header, where another block can follow it.
fn followed(last: Option<Header>) -> Result<Option<Header>, Failed>
    ensures { IfOk result (λ header. IfSome header (λ h. h.number + 1 < 2 ^ 64)) }
{
    match last {
        Some(header) if header.number == u64::MAX => Err(Failed::Missing("a number")),
        _ => Ok(last),
    }
}

fn drafted_behind(
    alloc: Global,
    channel: &Name,
    keys: &KeyBook,
    version: BlockVersion,
    last: Option<Header>,
    script: &str,
) -> Result<Bytes, Failed> {
    let last = followed(last)?;
    Ok(draft(alloc, channel, keys, version, last, script)?)
}

impl Drafter {
    /// At height 0.
    pub fn open(alloc: Global) -> Result<Drafter, Failed> {
        let keys = KeyBook::read(alloc, KEYS)?;
        let channel = configuration(alloc)?;
        Ok(Drafter {
            alloc,
            keys,
            ledger: Ledger::open(alloc, channel),
        })
    }

    /// The keys that all signatures are made and checked with.
    pub fn keys(&self) -> &KeyBook {
        &self.keys
    }

    /// What the ledger holds.
    pub fn world(&self) -> &World {
        self.ledger.view()
    }

    /// The bytes of this script's block, the next one, of this version.
    pub fn drafted(&self, version: BlockVersion, script: &str) -> Result<Bytes, Failed> {
        let last = last_header(self.alloc, self.world())?;
        let channel = name(b"ch")?.copy(self.alloc)?;
        drafted_behind(self.alloc, &channel, &self.keys, version, last, script)
    }

    /// The bytes of the next block, of this version and a script that was written if memory was had for it.
    pub fn drafted_of(
        &self,
        version: BlockVersion,
        script: Result<String, AllocError>,
    ) -> Result<Bytes, Failed> {
        let script = script?;
        self.drafted(version, script.as_str())
    }

    /// What the ledger answers to these bytes. A block that it takes is the one that the next one follows.
    pub fn submit(&mut self, bytes: &Bytes) -> Result<Accepted, Refused> {
        self.ledger.submit_one(bytes.as_slice(), &self.keys)
    }

    /// What these bytes would change.
    pub fn delta(&self, bytes: &Bytes) -> Result<Delta, Refused> {
        self.ledger.delta(bytes.as_slice(), &self.keys)
    }

    fn changed(&mut self, bytes: &Bytes) -> Result<Delta, Refused> {
        let delta = self.delta(bytes)?;
        self.submit(bytes)?;
        Ok(delta)
    }

    /// What the block of this script changes, the next one; the ledger then has it.
    pub fn next(&mut self, script: &str) -> Result<Delta, Failed> {
        let bytes = self.drafted(BlockVersion::V1, script)?;
        Ok(self.changed(&bytes)?)
    }
}

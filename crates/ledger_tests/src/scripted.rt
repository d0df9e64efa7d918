//! A peer whose blocks are drafted from scripts.

use crate::fixture::{Peer, name, read_keys};
use block::{BlockFault, BlockVersion, Header, decode_block};
use drafts::draft;
use key_book::KeyBook;
use rules::Refused;
use std::alloc::Global;
use test_support::{Failed, check};
use values::{Bytes, Name};
use world::World;

const KEYS: &str = "\
Org1:client:c0 11
Org1:peer:p0 22
Org1:peer:p1 33
Org1:admin:a 44
Org2:peer:q0 55
";

fn header_of(alloc: Global, bytes: &[u8]) -> Result<Header, BlockFault> {
    let block = decode_block(alloc, bytes)?;
    Ok(block.header)
}

// The header that the next block stands behind.
fn last_header(alloc: Global, world: &World) -> Result<Option<Header>, Failed> {
    let Some(last) = world.height().checked_sub(1) else {
        return Ok(None);
    };
    match world.block(last) {
        Some(block) => Ok(Some(header_of(alloc, block.bytes.get().as_slice())?)),
        None => Err(Failed::Missing("the last block")),
    }
}

fn drafted_in(
    alloc: Global,
    channel: &Name,
    keys: &KeyBook,
    version: BlockVersion,
    after: Option<Header>,
    script: &str,
) -> Result<Bytes, Failed> {
    if let Some(header) = &after {
        if header.number == u64::MAX {
            return Err(Failed::Missing("a number"));
        }
    }
    Ok(draft(alloc, channel, keys, version, after, script)?)
}

/// The bytes of this script's block, of this version and behind the one with this header.
pub fn drafted(
    alloc: Global,
    keys: &KeyBook,
    version: BlockVersion,
    after: Option<Header>,
    script: &str,
) -> Result<Bytes, Failed> {
    let channel = name(alloc, b"ch")?;
    drafted_in(alloc, &channel, keys, version, after, script)
}

/// The bytes of the next block, of this version, which a script drafts.
pub fn next_block(
    alloc: Global,
    keys: &KeyBook,
    version: BlockVersion,
    world: &World,
    script: &str,
) -> Result<Bytes, Failed> {
    let after = last_header(alloc, world)?;
    drafted(alloc, keys, version, after, script)
}

/// A peer with the keys of all who sign, whose blocks are of one version.
#[derive(Drop)]
pub struct ScriptedPeer {
    peer: Peer,
    keys: KeyBook,
    version: BlockVersion,
}

impl ScriptedPeer {
    /// Of blocks of version 1.
    pub fn open(alloc: Global) -> Result<ScriptedPeer, Failed> {
        ScriptedPeer::of(alloc, BlockVersion::V1)
    }

    /// Of blocks of this version.
    pub fn of(alloc: Global, version: BlockVersion) -> Result<ScriptedPeer, Failed> {
        ScriptedPeer::with_line(alloc, version, "")
    }

    /// Of the channel that has this line more.
    pub fn with_line(
        alloc: Global,
        version: BlockVersion,
        line: &str,
    ) -> Result<ScriptedPeer, Failed> {
        let keys = read_keys(alloc, KEYS)?;
        let peer = Peer::with_line(alloc, line)?;
        Ok(ScriptedPeer {
            peer,
            keys,
            version,
        })
    }

    /// The keys of all who sign.
    pub fn keys(&self) -> &KeyBook {
        &self.keys
    }

    /// What the ledger holds.
    pub fn world(&self) -> &World {
        self.peer.world()
    }

    /// The bytes of the next block, which a script drafts.
    pub fn block(&self, alloc: Global, script: &str) -> Result<Bytes, Failed> {
        next_block(alloc, &self.keys, self.version, self.world(), script)
    }

    /// Why the bytes aren't taken, if they aren't.
    pub fn refusal_of(&mut self, bytes: &[u8]) -> Option<Refused> {
        self.peer.refusal_of(bytes, &self.keys)
    }

    fn takes(&mut self, bytes: &Bytes, flags: &[u8]) -> Result<bool, Refused> {
        self.peer.is_taken(bytes.as_slice(), &self.keys, flags)
    }

    /// Takes the next block, which a script drafts, and tells whether its flags have these numbers.
    pub fn is_taken(&mut self, alloc: Global, script: &str, flags: &[u8]) -> Result<bool, Failed> {
        let bytes = self.block(alloc, script)?;
        Ok(self.takes(&bytes, flags)?)
    }

    /// The bytes of the next block, which a script drafts and which was taken with these flags.
    pub fn taken(&mut self, alloc: Global, script: &str, flags: &[u8]) -> Result<Bytes, Failed> {
        let bytes = self.block(alloc, script)?;
        check(self.takes(&bytes, flags)?)?;
        Ok(bytes)
    }
}

//! A delta whose commit hash is still to be computed.
ghost use Rattle.std.specs.Prelude.{◌≡◌, IfOk};
ghost use Rattle.rules.specs.Delta.{changes_in, definitions_in};
ghost use Rattle.rules.specs.State.{State, with_changes};
ghost use Rattle.state_db.specs.Batch.{changed as changed_by};
ghost use Rattle.next_block.specs.PendingDelta.{hash_by_parts};

use crate::commit_hash::{CommitParts, next_commit_hash};
use effects::Effects;
use rules::{CommittedBlock, Delta, Flag, NewUse};
use state_db::Batch;
use std::alloc::{AllocError, Global};
use std::marker::Model;
use transaction::BlockVersion;
use values::{Bytes, Hash, Items, Shared};
use world::{ReadyDelta, Room, World};

/// Where a block stands, and the commit hash of the one before it, or none.
#[derive(Clone, Copy)]
pub(crate) struct Place {
    pub(crate) number: u64,
    pub(crate) header_hash: Hash,
    pub(crate) version: BlockVersion,
    pub(crate) last: Option<Hash>,
}

/// What a job changes: its effects with the batch of its changes, first uses of ids, and the rows that differ, spelled.
#[derive(Drop)]
pub(crate) struct Changed {
    pub(crate) effects: Effects,
    pub(crate) batch: Batch,
    pub(crate) uses: Vec<NewUse>,
    pub(crate) update: Vec<u8>,
}

/// What a block changes, and all that its commit hash is made of. A contract sees the delta that has this hash.
#[derive(Drop)]
pub struct PendingDelta {
    place: Place,
    bytes: Shared<Bytes>,
    flags: Vec<Flag>,
    effects: Effects,
    batch: Batch,
    uses: Vec<NewUse>,
    /// The rows that differ, spelled.
    update: Vec<u8>,
}

impl Model for PendingDelta {
    ghost use Rattle.rules.specs.declared.delta.Delta.{Delta};
    ghost use Rattle.world.specs.Code.{delta_code};

    ghost Value = { Delta };

    ghost coded = { delta_code };

    ghost use Rattle.std.specs.Prelude.{◌≡◌};
    ghost use Rattle.rules.specs.Delta.{changes_in, definitions_in};
    ghost use Rattle.rules.specs.State.{State, with_changes};
    ghost use Rattle.state_db.specs.Batch.{changed};
    ghost use Rattle.next_block.specs.PendingDelta.{hash_by_parts};

    ghost view = { λ u. record {
      changes = u.effects.changes.items;
      entries = u.effects.entries.items;
      uses = u.uses.items;
      definitions = u.effects.definitions.items;
      block = record {
        bytes = u.bytes;
        header_hash = u.place.header_hash;
        commit_hash = hash_by_parts u.place.last u.place.version u.place.number u.flags.items u.update.items (definitions_in u.effects.definitions.items);
        version = u.place.version;
        flags = u.flags.items;
      };
    } };

    ghost invariant = { λ u. (s : State) → changed s u.batch ≡ with_changes s (changes_in u.effects.changes.items) };
}

impl PendingDelta {
    pub(crate) fn of_parts(
        place: Place,
        bytes: Shared<Bytes>,
        flags: Vec<Flag>,
        changed: Changed,
    ) -> PendingDelta
        requires { (s : State) → changed_by s changed.batch ≡ with_changes s (changes_in changed.effects.changes.items) }
        ensures changes { result.changes ≡ changed.effects.changes.items }
        ensures entries { result.entries ≡ changed.effects.entries.items }
        ensures uses { result.uses ≡ changed.uses.items }
        ensures definitions { result.definitions ≡ changed.effects.definitions.items }
        ensures block { result.block ≡ record { bytes = bytes; header_hash = place.header_hash; commit_hash = hash_by_parts place.last place.version place.number flags.items changed.update.items (definitions_in changed.effects.definitions.items); version = place.version; flags = flags.items } }
    {
        let Changed {
            effects,
            batch,
            uses,
            update,
        } = changed;
        PendingDelta {
            place,
            bytes,
            flags,
            effects,
            batch,
            uses,
            update,
        }
    }

    /// How many bytes spell the rows that differ. No clause says it: it serves to guess whether hashing is worth a thread.
    pub fn update_len(&self) -> usize {
        self.update.len()
    }

    /// The room that the delta takes in a world, for `World::reserve`. No clause says it.
    pub fn room_in(&self, world: &World) -> Room {
        world.room_for(self.effects.entries.len(), self.uses.len(), &self.batch)
    }

    /// The delta's commit hash: SHA-256 (FIPS 180-4) of the commit hash before it, or of 32 zeros, and of the block's
    /// version, number, flags and changes, spelled. Linear in that, and takes memory for it.
    pub fn commit_hash(&self, alloc: Global) -> Result<Hash, AllocError>
        ensures { IfOk result (λ hash. hash ≡ self.now.block.commit_hash) }
    {
        let parts = CommitParts {
            version: self.place.version,
            number: self.place.number,
            flags: self.flags.as_slice(),
            update: self.update.as_slice(),
            definitions: self.effects.definitions.as_slice(),
        };
        next_commit_hash(alloc, self.place.last, &parts)
    }

    /// The delta, with its commit hash. Linear in what is hashed; takes memory for that, and to share the delta's
    /// lists.
    pub fn ready(self, alloc: Global) -> Result<ReadyDelta, AllocError>
        ensures { IfOk result (λ d. d ≡ self) }
    {
        let commit_hash = self.commit_hash(alloc)?;
        self.with_commit_hash(alloc, commit_hash)
    }

    /// The delta, whose commit hash this is. Takes memory to share its lists and the block.
    pub fn with_commit_hash(
        self,
        alloc: Global,
        commit_hash: Hash,
    ) -> Result<ReadyDelta, AllocError>
        requires { commit_hash ≡ self.block.commit_hash }
        ensures { IfOk result (λ d. d ≡ self) }
    {
        let PendingDelta {
            place,
            bytes,
            flags,
            effects,
            batch,
            uses,
            update: _update,
        } = self;
        let block = CommittedBlock {
            bytes,
            header_hash: place.header_hash,
            commit_hash,
            version: place.version,
            flags: Items::from_vec(flags),
        };
        let delta = Delta {
            changes: Items::from_vec(effects.changes),
            entries: Shared::new(alloc, Items::from_vec(effects.entries))?,
            uses: Shared::new(alloc, Items::from_vec(uses))?,
            definitions: Items::from_vec(effects.definitions),
            block: Shared::new(alloc, block)?,
        };
        Ok(ReadyDelta::of_parts(delta, batch))
    }
}

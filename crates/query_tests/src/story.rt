//! Blocks that a ledger was given, one behind the other, and what it answered.

use crate::blocks::Drafter;
use block::BlockVersion;
use commit::{Accepted, Refused};
use rules::NewUse;
use std::alloc::{AllocError, Global};
use test_support::{Failed, Random, check};
use values::{Bytes, Shared};

#[derive(Drop)]
pub struct Story {
    pub alloc: Global,
    /// Its ledger stands behind the last block.
    pub drafter: Drafter,
    pub random: Random,
    pub blocks: Vec<Shared<Bytes>>,
    /// What the ledger answered to each.
    pub answers: Vec<Result<Accepted, Refused>>,
    /// The last block at random that wasn't spoiled.
    pub before: Option<Bytes>,
    /// What blocks at random use.
    pub uses: Vec<NewUse>,
    /// How many updates in them are valid.
    pub updated: usize,
}

impl Story {
    /// Of no blocks yet. Those at random are drawn with this seed.
    pub fn open(alloc: Global, seed: u64) -> Result<Story, Failed> {
        let drafter = Drafter::open(alloc)?;
        Ok(Story {
            alloc,
            drafter,
            random: Random::new(seed),
            blocks: Vec::new(alloc),
            answers: Vec::new(alloc),
            before: None,
            uses: Vec::new(alloc),
            updated: 0,
        })
    }

    /// The height of the ledger.
    pub fn height(&self) -> u64 {
        self.drafter.world().height()
    }

    /// The blocks from this number on.
    pub fn blocks_from(&self, number: usize) -> &[Shared<Bytes>] {
        self.blocks.get(number..).unwrap_or(&[])
    }

    /// The bytes of this block, or none.
    pub fn bytes(&self, number: usize) -> &[u8] {
        match self.blocks.get(number) {
            Some(bytes) => bytes.get().as_slice(),
            None => &[],
        }
    }

    /// Hands the block to the ledger, and keeps it with the answer.
    pub fn add(&mut self, bytes: Bytes) -> Result<(), AllocError> {
        let answer = self.drafter.submit(&bytes);
        self.answers.push(answer)?;
        self.blocks.push(Shared::new(self.alloc, bytes)?)?;
        Ok(())
    }

    fn is_last_taken(&self) -> bool {
        matches!(self.answers.last(), Some(Ok(_)))
    }

    /// The next block, of this script, which the ledger is to take.
    pub fn take(&mut self, version: BlockVersion, script: &str) -> Result<(), Failed> {
        let bytes = self.drafter.drafted(version, script)?;
        self.add(bytes)?;
        check(self.is_last_taken())
    }

    /// The next block, of a script that was written if memory was had for it, which the ledger is to take.
    pub fn take_of(
        &mut self,
        version: BlockVersion,
        script: Result<String, AllocError>,
    ) -> Result<(), Failed> {
        let script = script?;
        self.take(version, script.as_str())
    }
}

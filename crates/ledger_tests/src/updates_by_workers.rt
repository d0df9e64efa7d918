//! Updates of definitions by committers.

use crate::by_workers::{Flagged, Way, is_committed_in, ways};
use crate::committers::{Trial, check_by};
use crate::fixture::{are_numbered, channel_with};
use crate::update_rows::{FIRST_POLICY, UpdateBlock, UpdateChain};
use commit::{Committer, NotCommitted, QueryHandle, Receipt};
use gates::{Gate, Open, Reverse};
use key_book::KeyBook;
use std::alloc::Global;
use std::sync::Wait;
use std::thread::Threads;
use test_support::{Failed, check};
use values::{Bytes, NameRef, Shared};

/// The blocks of a chain, handed in one by one or at once.
#[derive(Clone, Copy)]
pub struct UpdatedChain<'a> {
    way: Way,
    is_run: bool,
    keys: &'a KeyBook,
    blocks: &'a [Shared<Bytes>],
    chain: &'a UpdateChain<'a>,
}

// Wants this policy answered from this height.
fn check_answer(
    alloc: Global,
    handle: &mut QueryHandle,
    height: u64,
    policy: &str,
) -> Result<(), Failed> {
    let reply = handle.definition(alloc, &NameRef::new(b"cc"))?;
    check(reply.height == height)?;
    match &reply.answer {
        Some(text) => check(text.as_str() == policy),
        None => Err(Failed::Unlike),
    }
}

fn are_answers(answers: &[Result<Receipt, NotCommitted>], blocks: &[UpdateBlock<'_>]) -> bool {
    for (answer, block) in answers.iter().zip(blocks) {
        match answer {
            Ok(receipt) if are_numbered(receipt.flags.as_slice(), block.flags) => {}
            _ => return false,
        }
    }
    answers.len() == blocks.len()
}

impl UpdatedChain<'_> {
    // Wants the block committed so.
    fn check_next<R: Threads + Wait + Sync>(
        &self,
        rt: &R,
        alloc: Global,
        committer: &mut Committer,
        bytes: &Shared<Bytes>,
        block: &UpdateBlock<'_>,
    ) -> Result<(), Failed> {
        let block = Flagged {
            bytes: bytes.get().as_slice(),
            keys: self.keys,
            flags: block.flags,
        };
        check(is_committed_in(rt, alloc, self.way, committer, block)?)
    }

    fn check_one_by_one<R: Threads + Wait + Sync>(
        &self,
        rt: &R,
        alloc: Global,
        committer: &mut Committer,
        handle: &mut QueryHandle,
    ) -> Result<(), Failed> {
        check_answer(alloc, handle, 0, FIRST_POLICY)?;
        let mut height = 0u64;
        for (bytes, block) in self.blocks.iter().zip(self.chain.blocks) {
            height = height.wrapping_add(1);
            self.check_next(rt, alloc, committer, bytes, block)?;
            check_answer(alloc, handle, height, block.policy)?;
        }
        check(self.blocks.len() == self.chain.blocks.len())
    }

    fn are_run<R: Threads + Wait + Sync, G: Gate + Sync>(
        &self,
        rt: &R,
        committer: &mut Committer,
        gate: &G,
    ) -> Result<bool, Failed> {
        let answers = committer.run(rt, self.blocks, self.keys, gate)?;
        Ok(are_answers(answers.as_slice(), self.chain.blocks) && committer.gathered() == 0)
    }

    fn are_run_in_reverse<R: Threads + Wait + Sync>(
        &self,
        rt: &R,
        alloc: Global,
        committer: &mut Committer,
    ) -> Result<bool, Failed> {
        let reverse = Reverse::new(alloc, 4)?;
        self.are_run(rt, committer, &reverse)
    }

    // All at once, and then what the last one leaves.
    fn check_run<R: Threads + Wait + Sync>(
        &self,
        rt: &R,
        alloc: Global,
        committer: &mut Committer,
        handle: &mut QueryHandle,
    ) -> Result<(), Failed> {
        let are_run = if self.way.is_reverse {
            self.are_run_in_reverse(rt, alloc, committer)?
        } else {
            self.are_run(rt, committer, &Open)?
        };
        check(are_run)?;
        match self.chain.blocks.last() {
            Some(block) => check_answer(alloc, handle, self.blocks.len() as u64, block.policy),
            None => Err(Failed::Unlike),
        }
    }

    /// Wants the flags, and the policies answered.
    pub fn check_with<R: Threads + Wait + Sync>(
        &self,
        rt: &R,
        alloc: Global,
        committer: &mut Committer,
        handle: &mut QueryHandle,
    ) -> Result<(), Failed> {
        if self.is_run {
            self.check_run(rt, alloc, committer, handle)
        } else {
            self.check_one_by_one(rt, alloc, committer, handle)
        }
    }
}

fn check_in<R: Threads + Wait + Sync>(
    rt: &R,
    alloc: Global,
    line: &str,
    chain: UpdatedChain<'_>,
) -> Result<(), Failed> {
    let channel = channel_with(alloc, line)?;
    check_by(
        rt,
        alloc,
        channel,
        chain.way.workers,
        &Trial::Updates(chain),
    )
}

fn check_in_each<'a, R: Threads + Wait + Sync>(
    rt: &R,
    alloc: Global,
    keys: &'a KeyBook,
    blocks: &'a [Shared<Bytes>],
    chain: &'a UpdateChain<'a>,
    is_run: bool,
) -> Result<(), Failed> {
    for way in ways() {
        let updated = UpdatedChain {
            way: *way,
            is_run,
            keys,
            blocks,
            chain,
        };
        check_in(rt, alloc, chain.line, updated)?;
    }
    Ok(())
}

/// Wants the blocks committed so in all ways.
pub fn check_in_all<R: Threads + Wait + Sync>(
    rt: &R,
    alloc: Global,
    keys: &KeyBook,
    blocks: &[Shared<Bytes>],
    chain: &UpdateChain<'_>,
) -> Result<(), Failed> {
    check_in_each(rt, alloc, keys, blocks, chain, false)?;
    check_in_each(rt, alloc, keys, blocks, chain, true)
}

//! Blocks of both versions, one behind the other.

use crate::committers::{Trial, check_by, refusal_of, worker_counts};
use crate::fixture::{channel_with, ledger_with, read_keys, submitted};
use crate::refusals::{NUMBER, flip};
use crate::scripted::next_block;
use block::BlockVersion;
use commit::{Committer, NotCommitted, Receipt};
use gates::Open;
use key_book::KeyBook;
use ledger::Ledger;
use rules::Refused;
use std::alloc::Global;
use std::sync::Wait;
use std::thread::Threads;
use test_support::{Failed, check};
use values::{Bytes, Shared};

// Behind the magic, the number, and the previous hash with its length.
const DATA_HASH: usize = 45;

/// What would be the next block, but for a bit at this place; why it is refused if it is, and the ledger's version behind it.
struct Handed {
    version: BlockVersion,
    flipped: Option<usize>,
    refused: Option<Refused>,
    behind: BlockVersion,
}

fn all_handed() -> &'static [Handed] {
    &ALL_HANDED
}

// Block 0 of version 1 and block 1 of version 2; behind them some of version 1, and block 2 of version 2.
static ALL_HANDED: [Handed; 6] = [
    Handed {
        version: BlockVersion::V1,
        flipped: None,
        refused: None,
        behind: BlockVersion::V1,
    },
    Handed {
        version: BlockVersion::V2,
        flipped: None,
        refused: None,
        behind: BlockVersion::V2,
    },
    Handed {
        version: BlockVersion::V1,
        flipped: None,
        refused: Some(Refused::OldVersion),
        behind: BlockVersion::V2,
    },
    Handed {
        version: BlockVersion::V1,
        flipped: Some(DATA_HASH),
        refused: Some(Refused::WrongDataHash),
        behind: BlockVersion::V2,
    },
    Handed {
        version: BlockVersion::V1,
        flipped: Some(NUMBER),
        refused: Some(Refused::WrongNumber { want: 2, got: 3 }),
        behind: BlockVersion::V2,
    },
    Handed {
        version: BlockVersion::V2,
        flipped: None,
        refused: None,
        behind: BlockVersion::V2,
    },
];

fn block_of(alloc: Global, ledger: &Ledger, keys: &KeyBook, one: &Handed) -> Result<Bytes, Failed> {
    let mut bytes = next_block(alloc, keys, one.version, ledger.view(), "")?.into_vec();
    if let Some(place) = one.flipped {
        flip(bytes.as_mut_slice(), place);
    }
    Ok(Bytes::from_vec(bytes))
}

fn is_answered(ledger: &mut Ledger, keys: &KeyBook, bytes: &Bytes, one: &Handed) -> bool {
    submitted(ledger, bytes.as_slice(), keys).err() == one.refused
        && ledger.view().version() == one.behind
}

fn add_answered(
    alloc: Global,
    ledger: &mut Ledger,
    keys: &KeyBook,
    one: &Handed,
    blocks: &mut Vec<Shared<Bytes>>,
) -> Result<(), Failed> {
    let bytes = block_of(alloc, ledger, keys, one)?;
    check(is_answered(ledger, keys, &bytes, one))?;
    Ok(blocks.push(Shared::new(alloc, bytes)?)?)
}

fn add_all(
    alloc: Global,
    ledger: &mut Ledger,
    keys: &KeyBook,
    blocks: &mut Vec<Shared<Bytes>>,
) -> Result<(), Failed> {
    for one in all_handed() {
        add_answered(alloc, ledger, keys, one, blocks)?;
    }
    check(ledger.view().height() == 3)
}

fn add_by_ledger(
    alloc: Global,
    keys: &KeyBook,
    blocks: &mut Vec<Shared<Bytes>>,
) -> Result<(), Failed> {
    let mut ledger = ledger_with(alloc, "")?;
    add_all(alloc, &mut ledger, keys, blocks)
}

// What is handed in, which a ledger has answered.
fn answered(alloc: Global, keys: &KeyBook) -> Result<Vec<Shared<Bytes>>, Failed> {
    let mut blocks = Vec::new(alloc);
    add_by_ledger(alloc, keys, &mut blocks)?;
    Ok(blocks)
}

fn check_by_ledger(alloc: Global) -> Result<(), Failed> {
    let keys = read_keys(alloc, "")?;
    let blocks = answered(alloc, &keys)?;
    check(blocks.len() == all_handed().len())
}

#[test]
fn old_versions_by_one_thread(rt: HostRuntime) -> Result<(), Failed> {
    check_by_ledger(rt.alloc())
}

/// Blocks of both versions that a committer is handed, one by one or at once.
#[derive(Clone, Copy)]
pub struct HandedIn<'a> {
    keys: &'a KeyBook,
    blocks: &'a [Shared<Bytes>],
    is_run: bool,
}

fn not_committed(one: &Handed) -> Option<NotCommitted> {
    one.refused.map(NotCommitted::Refused)
}

fn is_answer(answer: &Result<Receipt, NotCommitted>, one: &Handed) -> bool {
    match answer {
        Ok(_) => one.refused.is_none(),
        Err(why) => Some(*why) == not_committed(one),
    }
}

fn are_answers(answers: &[Result<Receipt, NotCommitted>]) -> bool {
    for (answer, one) in answers.iter().zip(all_handed()) {
        if !is_answer(answer, one) {
            return false;
        }
    }
    answers.len() == all_handed().len()
}

impl HandedIn<'_> {
    fn are_answered_one_by_one<R: Threads + Wait + Sync>(
        &self,
        rt: &R,
        committer: &mut Committer,
    ) -> bool {
        for (bytes, one) in self.blocks.iter().zip(all_handed()) {
            if refusal_of(rt, committer, bytes.get().as_slice(), self.keys) != not_committed(one) {
                return false;
            }
        }
        true
    }

    fn are_answered_in_a_run<R: Threads + Wait + Sync>(
        &self,
        rt: &R,
        committer: &mut Committer,
    ) -> Result<bool, Failed> {
        let answers = committer.run(rt, self.blocks, self.keys, &Open)?;
        Ok(are_answers(answers.as_slice()))
    }

    /// Wants each block answered as the ledger answered it.
    pub fn check_with<R: Threads + Wait + Sync>(
        &self,
        rt: &R,
        committer: &mut Committer,
    ) -> Result<(), Failed> {
        if self.is_run {
            check(self.are_answered_in_a_run(rt, committer)?)
        } else {
            check(self.are_answered_one_by_one(rt, committer))
        }
    }
}

fn check_handed<R: Threads + Wait + Sync>(
    rt: &R,
    alloc: Global,
    workers: usize,
    blocks: HandedIn<'_>,
) -> Result<(), Failed> {
    let channel = channel_with(alloc, "")?;
    check_by(rt, alloc, channel, workers, &Trial::Versions(blocks))
}

fn check_by_each<R: Threads + Wait + Sync>(
    rt: &R,
    alloc: Global,
    keys: &KeyBook,
    blocks: &[Shared<Bytes>],
    is_run: bool,
) -> Result<(), Failed> {
    let blocks = HandedIn {
        keys,
        blocks,
        is_run,
    };
    for workers in worker_counts() {
        check_handed(rt, alloc, *workers, blocks)?;
    }
    Ok(())
}

fn check_blocks<R: Threads + Wait + Sync>(
    rt: &R,
    alloc: Global,
    keys: &KeyBook,
) -> Result<(), Failed> {
    let blocks = answered(alloc, keys)?;
    check_by_each(rt, alloc, keys, &blocks, false)?;
    check_by_each(rt, alloc, keys, &blocks, true)
}

fn check_by_workers<R: Threads + Wait + Sync>(rt: &R, alloc: Global) -> Result<(), Failed> {
    let keys = read_keys(alloc, "")?;
    check_blocks(rt, alloc, &keys)
}

#[test]
fn old_versions_by_workers(rt: HostRuntime) -> Result<(), Failed> {
    check_by_workers(&rt, rt.alloc())
}

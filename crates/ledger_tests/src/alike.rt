//! The ledger over bytes, and over their transactions what has no cleverness: `plain` for the flags and what is behind them,
//! the rules of linked blocks as they are written, and a list of the blocks that were accepted.

use crate::fixture::{definition_text, explained, key, ledger_with, name, submitted};
use crate::plain_peer::PlainPeer;
use block::{Block, BlockFault, BlockVersion, Previous, decode_block};
use chain_vectors::first_blocks::first_blocks;
use chain_vectors::later_blocks::later_blocks;
use chain_vectors::rows::rows;
use chain_vectors::uses::uses;
use chain_vectors::{Committed, SaysOk, read_use};
use header_hash::{data_hash, header_hash};
use ledger::Ledger;
use policy::Policy;
use policy_eval::Verify;
use reasons::{Reason, UpdateFault};
use rules::{Accepted, CommittedBlock, Flag, HistoryEntry, Refused, Row};
use std::alloc::{AllocError, Global};
use test_support::{Failed, check};
use transaction::TxId;
use values::{Bytes, Hash, Items, Key, Name, Part, Shared};
use world::World;

// The plain peer makes no commit hashes.
const UNKNOWN: Hash = [0; 32];

/// Both, with the same blocks.
#[derive(Drop)]
pub struct Pair {
    plain: PlainPeer,
    accepted: Vec<CommittedBlock>,
    ledger: Ledger,
    // how often each flag was given
    given: [u32; 26],
    // how often each cause of an update that isn't valid was told
    faults: [u32; 5],
}

fn is_same_answer(one: &Result<Accepted, Refused>, other: &Result<Accepted, Refused>) -> bool {
    match (one, other) {
        (Ok(one), Ok(other)) => {
            one.number == other.number
                && one.header_hash == other.header_hash
                && one.flags.as_slice() == other.flags.as_slice()
        }
        (Err(one), Err(other)) => one == other,
        _ => false,
    }
}

// Whether an accepted block's commit hash is the world's.
fn has_commit_hash(answer: &Result<Accepted, Refused>, world: &World) -> bool {
    match answer {
        Ok(accepted) => world.commit_hash() == Some(accepted.commit_hash),
        Err(_) => true,
    }
}

fn are_of(reasons: &[Reason], flags: &[Flag]) -> bool {
    for (reason, flag) in reasons.iter().zip(flags) {
        if reason.flag() != *flag {
            return false;
        }
    }
    reasons.len() == flags.len()
}

// Whether these are reasons of the flags that were given, or the same refusal.
fn have_flags(told: &Result<Items<Reason>, Refused>, given: &Result<Accepted, Refused>) -> bool {
    match (told, given) {
        (Ok(reasons), Ok(accepted)) => are_of(reasons.as_slice(), accepted.flags.as_slice()),
        (Err(one), Err(other)) => one == other,
        _ => false,
    }
}

fn is_same_value(one: &Option<Part>, other: &Option<Part>) -> bool {
    match (one, other) {
        (None, None) => true,
        (Some(one), Some(other)) => one.as_slice() == other.as_slice(),
        _ => false,
    }
}

fn has_text(alloc: Global, policy: &Policy, text: &str) -> Result<bool, AllocError> {
    let own = policy.text(alloc)?;
    Ok(own.as_str() == text)
}

fn is_same_policy(alloc: Global, one: &Policy, other: &Policy) -> Result<bool, AllocError> {
    let text = one.text(alloc)?;
    has_text(alloc, other, text.as_str())
}

fn has_same_policy(alloc: Global, one: &Row, other: &Row) -> Result<bool, AllocError> {
    match (&one.policy, &other.policy) {
        (None, None) => Ok(true),
        (Some(one), Some(other)) => is_same_policy(alloc, one.get(), other.get()),
        _ => Ok(false),
    }
}

/// Whether two rows are the same, or none is there.
pub fn is_same_row(
    alloc: Global,
    one: Option<&Row>,
    other: Option<&Row>,
) -> Result<bool, AllocError> {
    match (one, other) {
        (None, None) => Ok(true),
        (Some(one), Some(other)) => {
            if one.version != other.version || one.value.as_slice() != other.value.as_slice() {
                return Ok(false);
            }
            has_same_policy(alloc, one, other)
        }
        _ => Ok(false),
    }
}

/// Whether two entries of histories are the same.
pub fn is_same_entry(one: &HistoryEntry, other: &HistoryEntry) -> bool {
    one.version == other.version && one.id == other.id && is_same_value(&one.value, &other.value)
}

/// Whether two blocks that worlds hold are the same, or none is there.
pub fn is_same_block(one: Option<&CommittedBlock>, other: Option<&CommittedBlock>) -> bool {
    match (one, other) {
        (Some(one), Some(other)) => {
            one.bytes.get().is_same(other.bytes.get())
                && one.header_hash == other.header_hash
                && one.commit_hash == other.commit_hash
                && one.flags.as_slice() == other.flags.as_slice()
        }
        (None, None) => true,
        _ => false,
    }
}

fn count(given: &mut [u32; 26], flags: &[Flag]) {
    for flag in flags {
        if let Some(times) = given.get_mut(flag.number() as usize) {
            *times = times.saturating_add(1);
        }
    }
}

fn cause(reason: &Reason) -> Option<usize> {
    match reason {
        Reason::InvalidUpdate(UpdateFault::NotAlone) => Some(0),
        Reason::InvalidUpdate(UpdateFault::NoAdminPolicy) => Some(1),
        Reason::InvalidUpdate(UpdateFault::NoDefinition { .. }) => Some(2),
        Reason::InvalidUpdate(UpdateFault::NoPolicy(_)) => Some(3),
        Reason::InvalidUpdate(UpdateFault::AdminUnsatisfied(_)) => Some(4),
        _ => None,
    }
}

fn count_faults(faults: &mut [u32; 5], reasons: &[Reason]) {
    for reason in reasons {
        if let Some(place) = cause(reason) {
            if let Some(times) = faults.get_mut(place) {
                *times = times.saturating_add(1);
            }
        }
    }
}

fn decoded(alloc: Global, bytes: &[u8]) -> Result<Block<'_>, Refused> {
    match decode_block(alloc, bytes) {
        Ok(block) => Ok(block),
        Err(BlockFault::Memory) => Err(Refused::Memory),
        Err(fault) => Err(Refused::Malformed(fault)),
    }
}

// Of bytes that begin with a magic.
fn version_of(bytes: &[u8]) -> BlockVersion {
    if bytes.starts_with(b"FBK2") {
        BlockVersion::V2
    } else {
        BlockVersion::V1
    }
}

// The first reason why the block isn't the next one.
fn check_linked(world: &World, block: &Block<'_>) -> Result<(), Refused> {
    let header = &block.header;
    let (want, got) = (world.height(), header.number);
    let previous = match world.header_hash() {
        None => Previous::Empty,
        Some(hash) => Previous::Hash(hash),
    };
    if got != want {
        Err(Refused::WrongNumber { want, got })
    } else if header.previous != previous {
        Err(Refused::WrongPrevious)
    } else if header.data_hash != data_hash(block.txs.as_slice()) {
        Err(Refused::WrongDataHash)
    } else if block.version == BlockVersion::V1 && world.version() == BlockVersion::V2 {
        Err(Refused::OldVersion)
    } else {
        Ok(())
    }
}

fn shared(alloc: Global, bytes: &[u8]) -> Result<Shared<Bytes>, AllocError> {
    let bytes = Bytes::from_slice(alloc, bytes)?;
    Shared::new(alloc, bytes)
}

fn is_history(
    world: &World,
    namespace: &Name,
    at: &Key,
    wanted: &[&HistoryEntry],
) -> Result<bool, AllocError> {
    let mut left = wanted.iter();
    for entry in world.history(&namespace.lend(), &at.lend()) {
        match left.next() {
            Some(other) if is_same_entry(&entry.entry()?, other) => {}
            _ => return Ok(false),
        }
    }
    Ok(left.next().is_none())
}

impl Pair {
    /// Both at height 0, of the channel of all chains.
    pub fn open(alloc: Global) -> Result<Pair, Failed> {
        Pair::of(alloc, "")
    }

    /// The channel has this line more.
    pub fn of(alloc: Global, line: &str) -> Result<Pair, Failed> {
        let ledger = ledger_with(alloc, line)?;
        let plain = PlainPeer::open(alloc, line)?;
        Ok(Pair {
            plain,
            accepted: Vec::new(alloc),
            ledger,
            given: [0; 26],
            faults: [0; 5],
        })
    }

    /// What the ledger holds.
    pub fn world(&self) -> &World {
        self.ledger.view()
    }

    /// How often each flag was given, by its number.
    pub fn given(&self) -> &[u32; 26] {
        &self.given
    }

    /// How often each cause of flag 6 was told.
    pub fn faults(&self) -> &[u32; 5] {
        &self.faults
    }

    /// Of the last block that was accepted.
    pub fn last_flags(&self) -> &[Flag] {
        match self.accepted.last() {
            None => &[],
            Some(last) => last.flags.as_slice(),
        }
    }

    fn wanted_of<V: Verify>(
        &mut self,
        alloc: Global,
        block: &Block<'_>,
        verifier: &V,
    ) -> Result<Accepted, Refused> {
        check_linked(self.ledger.view(), block)?;
        let flags = self.plain.flags_of(alloc, block, verifier)?;
        Ok(Accepted {
            number: block.header.number,
            header_hash: header_hash(&block.header),
            commit_hash: UNKNOWN,
            flags,
        })
    }

    // What is to be answered.
    fn wanted<V: Verify>(
        &mut self,
        alloc: Global,
        bytes: &[u8],
        verifier: &V,
    ) -> Result<Accepted, Refused> {
        let block = decoded(alloc, bytes)?;
        self.wanted_of(alloc, &block, verifier)
    }

    // Whether the reasons that are asked for have the flags.
    fn is_told<V: Verify>(
        &mut self,
        bytes: &[u8],
        verifier: &V,
        wanted: &Result<Accepted, Refused>,
    ) -> bool {
        let told = explained(&self.ledger, bytes, verifier);
        if let Ok(reasons) = &told {
            count_faults(&mut self.faults, reasons.as_slice());
        }
        have_flags(&told, wanted)
    }

    fn is_answered<V: Verify>(
        &mut self,
        bytes: &[u8],
        verifier: &V,
        wanted: &Result<Accepted, Refused>,
    ) -> bool {
        let answer = submitted(&mut self.ledger, bytes, verifier);
        is_same_answer(&answer, wanted) && has_commit_hash(&answer, self.world())
    }

    fn keep(&mut self, alloc: Global, bytes: &[u8], accepted: Accepted) -> Result<(), AllocError> {
        count(&mut self.given, accepted.flags.as_slice());
        let block = CommittedBlock {
            bytes: shared(alloc, bytes)?,
            header_hash: accepted.header_hash,
            commit_hash: self.world().commit_hash().unwrap_or(UNKNOWN),
            version: version_of(bytes),
            flags: accepted.flags,
        };
        self.accepted.push(block)?;
        Ok(())
    }

    /// Hands in the bytes, and tells whether the answer is the wanted one, and whether the reasons that were asked for before
    /// have its flags.
    pub fn take<V: Verify>(
        &mut self,
        alloc: Global,
        bytes: &[u8],
        verifier: &V,
    ) -> Result<bool, AllocError> {
        let wanted = self.wanted(alloc, bytes, verifier);
        let is_told = self.is_told(bytes, verifier, &wanted);
        let is_answered = self.is_answered(bytes, verifier, &wanted);
        if let Ok(accepted) = wanted {
            self.keep(alloc, bytes, accepted)?;
        }
        Ok(is_told && is_answered)
    }

    fn has_same_row(&self, alloc: Global, namespace: &Name, at: &Key) -> Result<bool, AllocError> {
        let row = self.world().row(&namespace.lend(), &at.lend());
        is_same_row(alloc, row, self.plain.world.row(namespace, at))
    }

    fn has_same_history(
        &self,
        alloc: Global,
        namespace: &Name,
        at: &Key,
    ) -> Result<bool, AllocError> {
        let wanted = self.plain.world.history(alloc, namespace, at)?;
        is_history(self.world(), namespace, at, &wanted)
    }

    // Whether the row and the history are the same.
    fn is_same_at(&self, alloc: Global, namespace: &Name, at: &Key) -> Result<bool, AllocError> {
        if !self.has_same_row(alloc, namespace, at)? {
            return Ok(false);
        }
        self.has_same_history(alloc, namespace, at)
    }

    fn is_alike_under(&self, alloc: Global, namespace: &Name, at: &[u8]) -> Result<bool, Failed> {
        let at = key(alloc, at)?;
        Ok(self.is_same_at(alloc, namespace, &at)?)
    }

    /// Whether both have the same row and history there.
    pub fn is_alike_at(&self, alloc: Global, namespace: &[u8], at: &[u8]) -> Result<bool, Failed> {
        let namespace = name(alloc, namespace)?;
        self.is_alike_under(alloc, &namespace, at)
    }

    fn is_defined(&self, alloc: Global, chaincode: &[u8], policy: &str) -> Result<bool, Failed> {
        let text = definition_text(alloc, self.world().definitions(), chaincode)?;
        Ok(text.as_str() == policy)
    }

    /// Whether a chaincode has the same policy, or none in both.
    pub fn is_alike_in(&self, alloc: Global, chaincode: &[u8]) -> Result<bool, Failed> {
        let wanted = definition_text(alloc, self.plain.world.definitions(), chaincode)?;
        self.is_defined(alloc, chaincode, wanted.as_str())
    }

    /// Whether both have the same first use of the id, or none.
    pub fn is_alike_of(&self, id: &TxId) -> bool {
        self.world().flag_of(id) == self.plain.world.flag_of(id)
    }

    fn last_hash(&self) -> Option<Hash> {
        match self.accepted.last() {
            None => None,
            Some(last) => Some(last.header_hash),
        }
    }

    /// Whether the ledger holds the blocks that were accepted, and no other.
    pub fn has_same_blocks(&self) -> bool {
        for number in 0..=self.accepted.len() {
            let kept = self.world().block(number as u64);
            if !is_same_block(kept, self.accepted.get(number)) {
                return false;
            }
        }
        self.world().height() == self.accepted.len() as u64
            && self.world().header_hash() == self.last_hash()
    }
}

fn take_all(alloc: Global, pair: &mut Pair, blocks: &[Committed]) -> Result<(), Failed> {
    for block in blocks {
        check(pair.take(alloc, block.bytes, &SaysOk)?)?;
    }
    Ok(())
}

fn check_left(alloc: Global, pair: &Pair) -> Result<(), Failed> {
    for left in rows() {
        check(pair.is_alike_at(alloc, left.namespace, left.key)?)?;
    }
    for used in uses() {
        check(pair.is_alike_of(&read_use(used).id))?;
    }
    check(pair.has_same_blocks())
}

fn check_pair(alloc: Global, pair: &mut Pair) -> Result<(), Failed> {
    take_all(alloc, pair, first_blocks())?;
    take_all(alloc, pair, later_blocks())?;
    check_left(alloc, pair)
}

fn check_chain(alloc: Global) -> Result<(), Failed> {
    let mut pair = Pair::open(alloc)?;
    check_pair(alloc, &mut pair)
}

#[test]
fn the_chain(rt: HostRuntime) -> Result<(), Failed> {
    check_chain(rt.alloc())
}

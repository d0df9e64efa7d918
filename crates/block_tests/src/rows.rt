//! Small jobs whose results were worked out by hand.

use crate::asking::{Said, said_of};
use crate::cases::{
    BLOCK, FLAGGED, JobCase, KEYS, KeyUse, NOTHING, NewValue, RowCase, Rule, TXS, TxCase, UNUSED,
};
use crate::sure::KnownCase;
use key_chains::Decision;
use rules::{Flag, ReadVerdict};
use std::alloc::Global;
use test_support::Failed;
use transaction::Version;

pub const UNKNOWN: KnownCase = KnownCase {
    endorsed: [None; TXS],
    flags: [None; TXS],
};

const PUT: KeyUse = KeyUse {
    read: None,
    value: Some(NewValue::Put),
    policy: None,
};

const POLICY: KeyUse = KeyUse {
    read: None,
    value: None,
    policy: Some(Some(Rule::First)),
};

const BEFORE: Version = Version { block: 0, tx: 0 };

fn read_at(version: Version) -> KeyUse {
    KeyUse {
        read: Some(Some(version)),
        value: None,
        policy: None,
    }
}

// Which one peer of the first organization endorsed.
fn tx_of(uses: [KeyUse; KEYS]) -> TxCase {
    let mut tx = FLAGGED;
    tx.is_open = true;
    tx.sets[0].uses = uses;
    tx
}

// The key is absent before the block. The first transaction inserts it, the second writes only its policy, and the
// third reads the second's version.
fn insert_policy_read() -> JobCase {
    let second = Version {
        block: BLOCK,
        tx: 1,
    };
    let mut case = NOTHING;
    case.txs[0] = tx_of([PUT, UNUSED, UNUSED, UNUSED, UNUSED, UNUSED]);
    case.txs[1] = tx_of([POLICY, UNUSED, UNUSED, UNUSED, UNUSED, UNUSED]);
    case.txs[2] = tx_of([read_at(second), UNUSED, UNUSED, UNUSED, UNUSED, UNUSED]);
    case.count = 3;
    case
}

// The example of Fabric's documentation: five keys have rows before the block. The second transaction reads what the
// first writes, the fourth what the first and the third write, and the fifth what none writes.
fn readers_and_writers() -> JobCase {
    let mut put_after_read = PUT;
    put_after_read.read = Some(Some(BEFORE));
    let row = Some(RowCase {
        version: BEFORE,
        policy: None,
    });
    let read = read_at(BEFORE);
    let mut case = NOTHING;
    case.rows[0] = [row, row, row, row, row, None];
    case.txs[0] = tx_of([PUT, PUT, UNUSED, UNUSED, UNUSED, UNUSED]);
    case.txs[1] = tx_of([read, UNUSED, PUT, UNUSED, UNUSED, UNUSED]);
    case.txs[2] = tx_of([UNUSED, PUT, UNUSED, UNUSED, UNUSED, UNUSED]);
    case.txs[3] = tx_of([UNUSED, put_after_read, UNUSED, UNUSED, UNUSED, UNUSED]);
    case.txs[4] = tx_of([UNUSED, UNUSED, UNUSED, UNUSED, read, PUT]);
    case.count = 5;
    case
}

#[derive(Clone, Copy)]
enum Block {
    InsertPolicyRead,
    ReadersAndWriters,
}

impl Block {
    fn case(self) -> JobCase {
        match self {
            Block::InsertPolicyRead => insert_policy_read(),
            Block::ReadersAndWriters => readers_and_writers(),
        }
    }
}

// The result for a transaction, or for the first key before it.
#[derive(Clone, Copy)]
enum Answer {
    Endorsement(Decision<bool>),
    Reads(Decision<ReadVerdict>),
    Version(Decision<Option<Version>>),
}

impl Answer {
    fn is_in(self, said: &Said) -> bool {
        match self {
            Answer::Endorsement(decision) => said.endorsement == decision,
            Answer::Reads(decision) => said.reads == decision,
            Answer::Version(decision) => said.version == decision,
        }
    }
}

// A block, the flags that are known of its first two transactions, the transaction that is checked, and the result.
type Row = (Block, Option<Flag>, Option<Flag>, usize, Answer);

fn rows() -> &'static [Row] {
    &ROWS
}

const YES: Option<Flag> = Some(Flag::Valid);

const NO: Option<Flag> = Some(Flag::EndorsementPolicyFailure);

const GOOD: Answer = Answer::Reads(Decision::Sure(ReadVerdict::Good));

const STALE: Answer = Answer::Reads(Decision::Sure(ReadVerdict::Stale));

const BLOCKED: Answer = Answer::Reads(Decision::Blocked(0));

const SECOND: Answer = Answer::Version(Decision::Sure(Some(Version {
    block: BLOCK,
    tx: 1,
})));

const ENDORSED: Answer = Answer::Endorsement(Decision::Sure(true));

static ROWS: [Row; 8] = [
    // A policy write counts if its key exists.
    (Block::InsertPolicyRead, YES, YES, 2, GOOD),
    (Block::InsertPolicyRead, NO, YES, 2, STALE),
    (Block::InsertPolicyRead, None, YES, 2, BLOCKED),
    (Block::InsertPolicyRead, YES, NO, 2, STALE),
    // The version of a policy write.
    (Block::InsertPolicyRead, YES, YES, 2, SECOND),
    // An endorsement that no transaction touches.
    (Block::ReadersAndWriters, None, None, 3, ENDORSED),
    // Reads of what an unknown one writes, and of what none writes.
    (Block::ReadersAndWriters, None, None, 1, BLOCKED),
    (Block::ReadersAndWriters, None, None, 4, GOOD),
];

fn is_answered(alloc: Global, row: &Row) -> Result<bool, Failed> {
    let &(block, first, second, i, answer) = row;
    let mut known = UNKNOWN;
    known.flags[0] = first;
    known.flags[1] = second;
    let said = said_of(alloc, &block.case(), &known, i)?;
    Ok(answer.is_in(&said))
}

#[test]
fn answers_worked_out_by_hand(rt: HostRuntime) -> Result<(), Failed> {
    for (number, row) in rows().iter().enumerate() {
        assert!(rt; is_answered(rt.alloc(), row)?, "row {number}");
    }
    Ok(())
}

//! From a script to the job of its block.
ghost use Rattle.transaction.specs.Items.{IsSpelledItem};
ghost use Rattle.transaction.specs.Spelled.{IsSpelledUpdate};

use block::{Header, MAX_TXS, Previous, decode_block};
use candidates::OpenUpdate;
use drafts::draft;
use key_book::KeyBook;
use key_chains::{Candidate, Job};
use policy::{Definitions, Policy};
use policy_eval::{signers, update_signers};
use rules::{EarlyFlag, Row};
use state_db::{Batch, StateDb};
use std::alloc::{AllocError, Global};
use test_support::Failed;
use transaction::{BlockVersion, Item, TxFault, Update, Version, decode_item};
use values::{Bytes, Key, Name, Part, Shared, is_key, is_name};

const KEYS: &str = "Org1:client:c0 11\nOrg1:peer:p0 22\nOrg2:peer:q0 33\n";

const POLICY: &[u8] = b"OR('Org1.peer','Org2.peer')";

const ADMIN: &[u8] = b"AND('Org1.peer','Org2.peer')";

/// The number of the block.
pub const BLOCK: u64 = 1;

/// The version of each key before the block.
pub const BEFORE: Version = Version { block: 0, tx: 0 };

/// A key of `cc` that has a row before the block, perhaps with a policy of its own.
#[derive(Clone, Copy)]
pub struct RowCase<'a> {
    pub key: &'a [u8],
    pub policy: Option<&'a [u8]>,
}

fn name(alloc: Global, bytes: &[u8]) -> Result<Name, Failed> {
    if !is_name(bytes) {
        return Err(Failed::Missing("a name"));
    }
    Ok(Name::from_slice(alloc, bytes)?)
}

fn key(alloc: Global, bytes: &[u8]) -> Result<Key, Failed> {
    if !is_key(bytes) {
        return Err(Failed::Missing("a key"));
    }
    Ok(Key::from_slice(alloc, bytes)?)
}

fn shared_policy(alloc: Global, text: Option<&[u8]>) -> Result<Option<Shared<Policy>>, Failed> {
    match text {
        None => Ok(None),
        Some(text) => {
            let policy = Policy::parse_bytes(alloc, text)?;
            Ok(Some(Shared::new(alloc, policy)?))
        }
    }
}

fn row_of(alloc: Global, case: &RowCase<'_>) -> Result<Row, Failed> {
    Ok(Row {
        value: Part::copied(alloc, b"before")?,
        version: BEFORE,
        policy: shared_policy(alloc, case.policy)?,
    })
}

fn put_row(alloc: Global, batch: &mut Batch, case: &RowCase<'_>) -> Result<(), Failed> {
    let name = name(alloc, b"cc")?;
    let key = key(alloc, case.key)?;
    let row = row_of(alloc, case)?;
    Ok(batch.put(name, key, row)?)
}

fn batch_of(alloc: Global, rows: &[RowCase<'_>]) -> Result<Batch, Failed> {
    let mut batch = Batch::new(alloc);
    for row in rows {
        put_row(alloc, &mut batch, row)?;
    }
    Ok(batch)
}

/// Which key each transaction of a block of many writes, beside the one that it reads.
#[derive(Clone, Copy)]
pub enum Keys {
    /// The one that the next transaction reads.
    OfNext,
    /// The one that it reads, and that no other transaction does.
    Apart,
}

impl Keys {
    fn written(self, i: u32) -> u32 {
        match self {
            Keys::OfNext => i.saturating_add(1),
            Keys::Apart => i,
        }
    }
}

fn put_link_row(alloc: Global, batch: &mut Batch, i: u32) -> Result<(), Failed> {
    let key = format!(in alloc; "k{i}")?;
    let row = RowCase {
        key: key.as_bytes(),
        policy: None,
    };
    put_row(alloc, batch, &row)
}

// Each key that is read has the version that is read.
fn batch_of_links(alloc: Global, count: u32) -> Result<Batch, Failed> {
    let mut batch = Batch::new(alloc);
    for i in 0..count {
        put_link_row(alloc, &mut batch, i)?;
    }
    Ok(batch)
}

fn put_link(alloc: Global, script: &mut String, i: u32, written: u32) -> Result<(), AllocError> {
    let link = format!(in alloc;
        "tx Org1:client:c0 n{i} cc\nns cc\nread k{i} 0 0\nwrite k{written} v\nendorse Org1:peer:p0\n"
    )?;
    script.push_str(link.as_str())
}

fn script_of_links(alloc: Global, count: u32, keys: Keys) -> Result<String, AllocError> {
    let mut script = String::new(alloc);
    for i in 0..count {
        put_link(alloc, &mut script, i, keys.written(i))?;
    }
    Ok(script)
}

fn applied(alloc: Global, batch: &Batch) -> Result<StateDb, AllocError> {
    let mut state = StateDb::new(alloc);
    state.apply(batch)?;
    Ok(state)
}

fn definitions(alloc: Global) -> Result<Definitions, Failed> {
    let name = name(alloc, b"cc")?;
    let policy = Policy::parse_bytes(alloc, POLICY)?;
    let mut definitions = Definitions::new(alloc);
    definitions.set(&name, policy)?;
    Ok(definitions)
}

// The block before; its hashes are asked for by nobody.
const PREVIOUS: Header = Header {
    number: BLOCK - 1,
    previous: Previous::Empty,
    data_hash: [0; 32],
};

fn block_of(alloc: Global, keys: &KeyBook, script: &str) -> Result<Bytes, Failed> {
    let channel = name(alloc, b"ch")?;
    Ok(draft(
        alloc,
        &channel,
        keys,
        BlockVersion::V2,
        Some(PREVIOUS),
        script,
    )?)
}

fn open_update<'a>(
    alloc: Global,
    keys: &KeyBook,
    update: Update<'a>,
) -> Result<Candidate<'a>, Failed>
    requires { IsSpelledUpdate update }
{
    let signers = update_signers(alloc, &update, keys)?;
    let policy = Policy::parse_bytes(alloc, update.policy.as_slice())?;
    Ok(Candidate::Updates(OpenUpdate::new(update, signers, policy)))
}

fn open_item<'a>(
    alloc: Global,
    definitions: &Definitions,
    keys: &KeyBook,
    item: Item<'a>,
) -> Result<Candidate<'a>, Failed>
    requires { IsSpelledItem item }
{
    match item {
        Item::Tx(tx) => {
            let signers = signers(alloc, &tx, keys)?;
            Ok(Candidate::open(alloc, tx, signers, definitions)?)
        }
        Item::Update(update) => open_update(alloc, keys, update),
    }
}

fn candidate_of<'a>(
    alloc: Global,
    definitions: &Definitions,
    keys: &KeyBook,
    bytes: &'a [u8],
) -> Result<Candidate<'a>, Failed> {
    match decode_item(alloc, BlockVersion::V2, bytes) {
        Ok(item) => open_item(alloc, definitions, keys, item.into_item()),
        Err(TxFault::Form) => Ok(Candidate::Flagged(EarlyFlag::BadPayload)),
        Err(TxFault::Memory) => Err(Failed::from(AllocError)),
    }
}

fn candidates_of<'a>(
    alloc: Global,
    definitions: &Definitions,
    keys: &KeyBook,
    block: &'a [u8],
) -> Result<Vec<Candidate<'a>>, Failed> {
    let block = decode_block(alloc, block)?;
    let mut candidates = Vec::new(alloc);
    for tx in block.txs.as_slice() {
        candidates.push(candidate_of(alloc, definitions, keys, tx.as_slice())?)?;
    }
    Ok(candidates)
}

/// A block, and the keys by which it is signed.
#[derive(Drop)]
struct Drafted {
    keys: KeyBook,
    block: Bytes,
}

impl Drafted {
    fn of(alloc: Global, script: &str) -> Result<Drafted, Failed> {
        let keys = KeyBook::read(alloc, KEYS)?;
        Ok(Drafted {
            block: block_of(alloc, &keys, script)?,
            keys,
        })
    }
}

/// What the block is checked against.
#[derive(Drop)]
struct Before {
    definitions: Definitions,
    state: StateDb,
}

impl Before {
    fn of(alloc: Global, rows: &Batch) -> Result<Before, Failed> {
        let definitions = definitions(alloc)?;
        Ok(Before {
            definitions,
            state: applied(alloc, rows)?,
        })
    }
}

/// What a job lends from.
#[derive(Drop)]
pub struct Ground {
    drafted: Drafted,
    before: Before,
    admin: Policy,
}

impl Ground {
    fn over(alloc: Global, rows: &Batch, script: &str) -> Result<Ground, Failed> {
        let admin = Policy::parse_bytes(alloc, ADMIN)?;
        let before = Before::of(alloc, rows)?;
        Ok(Ground {
            drafted: Drafted::of(alloc, script)?,
            before,
            admin,
        })
    }

    /// That of the block of a script behind a state of these rows.
    pub fn of(alloc: Global, rows: &[RowCase<'_>], script: &str) -> Result<Ground, Failed> {
        let batch = batch_of(alloc, rows)?;
        Ground::over(alloc, &batch, script)
    }

    /// That of a block in which each of so many transactions reads a key of its own, and writes one.
    pub fn of_links(alloc: Global, count: u32, keys: Keys) -> Result<Ground, Failed> {
        let batch = batch_of_links(alloc, count)?;
        let script = script_of_links(alloc, count, keys)?;
        Ground::over(alloc, &batch, script.as_str())
    }

    /// The job of the block.
    pub fn job(&self, alloc: Global) -> Result<Job<'_, '_>, Failed> {
        let candidates = candidates_of(
            alloc,
            &self.before.definitions,
            &self.drafted.keys,
            self.drafted.block.as_slice(),
        )?;
        if candidates.as_slice().len() > MAX_TXS {
            return Err(Failed::Missing("a job"));
        }
        Ok(Job::build(
            alloc,
            BLOCK,
            &self.before.state,
            &self.before.definitions,
            Some(&self.admin),
            candidates,
        )?)
    }
}

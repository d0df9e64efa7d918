//! From a case to the job that the checks work on.
use crate::cases::{
    BLOCK, DEFINITIONS, JobCase, KEYS, LETTERS, NAMESPACES, RowCase, Rule, TxCase, UpdateCase,
};
use crate::spelling::{spelled, spelled_update, text_of};
use block::MAX_TXS;
use candidates::OpenUpdate;
use key_chains::{Candidate, Job, StateKey};
use policy::{Definitions, Policy};
use policy_eval::{Verify, signers, update_signers};
use rules::{EarlyFlag, Row};
use state_db::{Batch, StateDb};
use std::alloc::{AllocError, Global};
use test_support::Failed;
use transaction::{BlockVersion, Identity, Item, decode_item, decode_tx};
use values::{Bytes, Key, KeyRef, Name, NameRef, Part, Shared, is_key, is_name};

// Accepts every signature.
struct Trusting;

impl Verify for Trusting {
    ghost use Rattle.std.specs.Prelude.{true};

    ghost accepts = { λ _ _ _ _. true };

    fn verify(&self, _identity: &Identity<'_>, _message: &[u8], _signature: &[u8]) -> bool {
        true
    }
}

fn name_bytes(namespace: usize) -> &'static [u8] {
    match namespace {
        0 => b"cc",
        1 => b"dd",
        _ => b"ee",
    }
}

/// A key of a namespace.
pub fn state_key(namespace: usize, key: &[u8]) -> Result<StateKey<'_>, Failed> {
    let name = name_bytes(namespace);
    if !is_name(name) || !is_key(key) {
        return Err(Failed::Missing("a key"));
    }
    Ok(StateKey::new(&NameRef::new(name), &KeyRef::new(key)))
}

fn name(alloc: Global, namespace: usize) -> Result<Name, Failed> {
    let bytes = name_bytes(namespace);
    if !is_name(bytes) {
        return Err(Failed::Missing("a name"));
    }
    Ok(Name::from_slice(alloc, bytes)?)
}

fn key(alloc: Global, letter: u8) -> Result<Key, Failed> {
    let bytes = [letter];
    if !is_key(&bytes) {
        return Err(Failed::Missing("a key"));
    }
    Ok(Key::from_slice(alloc, &bytes)?)
}

fn policy_of(alloc: Global, rule: Rule) -> Result<Policy, Failed> {
    Ok(Policy::parse_bytes(alloc, text_of(rule))?)
}

fn shared_policy(alloc: Global, rule: Option<Rule>) -> Result<Option<Shared<Policy>>, Failed> {
    match rule {
        None => Ok(None),
        Some(rule) => Ok(Some(Shared::new(alloc, policy_of(alloc, rule)?)?)),
    }
}

fn row_of(alloc: Global, row: RowCase) -> Result<Row, Failed> {
    Ok(Row {
        value: Part::copied(alloc, b"before")?,
        version: row.version,
        policy: shared_policy(alloc, row.policy)?,
    })
}

fn put_row(
    alloc: Global,
    batch: &mut Batch,
    namespace: usize,
    letter: u8,
    row: RowCase,
) -> Result<(), Failed> {
    let row = row_of(alloc, row)?;
    Ok(batch.put(name(alloc, namespace)?, key(alloc, letter)?, row)?)
}

fn put_rows(
    alloc: Global,
    batch: &mut Batch,
    namespace: usize,
    rows: &[Option<RowCase>; KEYS],
) -> Result<(), Failed> {
    for k in 0..KEYS {
        if let Some(row) = rows[k] {
            put_row(alloc, batch, namespace, LETTERS[k], row)?;
        }
    }
    Ok(())
}

fn batch_of(alloc: Global, case: &JobCase) -> Result<Batch, Failed> {
    let mut batch = Batch::new(alloc);
    for n in 0..NAMESPACES {
        put_rows(alloc, &mut batch, n, &case.rows[n])?;
    }
    Ok(batch)
}

// The state before the block.
fn state_of(alloc: Global, case: &JobCase) -> Result<StateDb, Failed> {
    let mut state = StateDb::new(alloc);
    let batch = batch_of(alloc, case)?;
    state.apply(&batch)?;
    Ok(state)
}

fn define(
    alloc: Global,
    definitions: &mut Definitions,
    namespace: usize,
    rule: Rule,
) -> Result<(), Failed> {
    let name = name(alloc, namespace)?;
    Ok(definitions.set(&name, policy_of(alloc, rule)?)?)
}

fn definitions(alloc: Global) -> Result<Definitions, Failed> {
    let mut definitions = Definitions::new(alloc);
    for n in 0..NAMESPACES {
        define(alloc, &mut definitions, n, DEFINITIONS[n])?;
    }
    Ok(definitions)
}

fn txs_of(alloc: Global, case: &JobCase) -> Result<Vec<Bytes>, AllocError> {
    let mut all = Vec::new(alloc);
    for tx in case.txs.iter().take(case.count) {
        all.push(spelled(alloc, tx)?)?;
    }
    Ok(all)
}

fn bytes_of(alloc: Global, case: &JobCase) -> Result<Vec<Bytes>, AllocError> {
    match &case.update {
        None => txs_of(alloc, case),
        Some(update) => Ok(vec![in alloc; spelled_update(alloc, update)?]?),
    }
}

fn opened<'a>(
    alloc: Global,
    definitions: &Definitions,
    bytes: &'a [u8],
) -> Result<Candidate<'a>, Failed> {
    let tx = decode_tx(alloc, bytes)?.into_tx();
    let signers = signers(alloc, &tx, &Trusting)?;
    Ok(Candidate::open(alloc, tx, signers, definitions)?)
}

// An open one is to be opened.
fn candidate_of<'a>(
    alloc: Global,
    definitions: &Definitions,
    tx: &TxCase,
    bytes: &'a [u8],
) -> Result<Candidate<'a>, Failed> {
    if !tx.is_open {
        return Ok(Candidate::Flagged(EarlyFlag::BadPayload));
    }
    match opened(alloc, definitions, bytes)? {
        Candidate::Flagged(_) => Err(Failed::Missing("an open transaction")),
        opened => Ok(opened),
    }
}

fn txs_candidates<'a>(
    alloc: Global,
    definitions: &Definitions,
    case: &JobCase,
    bytes: &'a [Bytes],
) -> Result<Vec<Candidate<'a>>, Failed> {
    let mut candidates = Vec::new(alloc);
    for (tx, bytes) in case.txs.iter().zip(bytes) {
        candidates.push(candidate_of(alloc, definitions, tx, bytes.as_slice())?)?;
    }
    Ok(candidates)
}

fn open_update<'a>(alloc: Global, bytes: &'a [u8]) -> Result<OpenUpdate<'a>, Failed> {
    match decode_item(alloc, BlockVersion::V2, bytes)?.into_item() {
        Item::Tx(_) => Err(Failed::Missing("an update")),
        Item::Update(update) => {
            let signers = update_signers(alloc, &update, &Trusting)?;
            let policy = Policy::parse_bytes(alloc, update.policy.as_slice())?;
            Ok(OpenUpdate::new(update, signers, policy))
        }
    }
}

fn update_candidates(alloc: Global, bytes: &[Bytes]) -> Result<Vec<Candidate<'_>>, Failed> {
    match bytes {
        [bytes] => Ok(vec![in alloc; Candidate::Updates(open_update(alloc, bytes.as_slice())?)]?),
        _ => Err(Failed::Missing("an update")),
    }
}

fn candidates_of<'a>(
    alloc: Global,
    definitions: &Definitions,
    case: &JobCase,
    bytes: &'a [Bytes],
) -> Result<Vec<Candidate<'a>>, Failed> {
    match case.update {
        None => txs_candidates(alloc, definitions, case, bytes),
        Some(_) => update_candidates(alloc, bytes),
    }
}

fn admin_of(alloc: Global, case: &JobCase) -> Result<Option<Policy>, Failed> {
    match &case.update {
        Some(
            UpdateCase {
                admin: Some(rule),
                ..
            },
        ) => Ok(Some(policy_of(alloc, *rule)?)),
        _ => Ok(None),
    }
}

/// What a job borrows from.
#[derive(Drop)]
pub struct Ground {
    bytes: Vec<Bytes>,
    definitions: Definitions,
    state: StateDb,
    admin: Option<Policy>,
}

impl Ground {
    /// What the jobs of this case need. The error is `Missing` or out of memory.
    pub fn of(alloc: Global, case: &JobCase) -> Result<Ground, Failed> {
        Ok(Ground {
            bytes: bytes_of(alloc, case)?,
            definitions: definitions(alloc)?,
            state: state_of(alloc, case)?,
            admin: admin_of(alloc, case)?,
        })
    }

    /// The job of this case.
    pub fn job(&self, alloc: Global, case: &JobCase) -> Result<Job<'_, '_>, Failed> {
        let candidates = candidates_of(alloc, &self.definitions, case, &self.bytes)?;
        if candidates.as_slice().len() > MAX_TXS {
            return Err(Failed::Missing("a job"));
        }
        Ok(Job::build(
            alloc,
            BLOCK,
            &self.state,
            &self.definitions,
            self.admin.as_ref(),
            candidates,
        )?)
    }
}

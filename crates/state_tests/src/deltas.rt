//! Deltas: at random, noted as they are made, and one of 600 puts.

use crate::fixture::{commit_hash_of, entry, kept_key, name, numbered, row, version_of};
use crate::noted::{
    CHAINCODES, IDS, KEYS, NAMESPACE, Noted, POLICIES, has_policy, id_of, key_of, use_at,
};
use policy::Policy;
use rules::{Change, CommittedBlock, Delta, KeptEntry, KeyedRow, NewDefinition, NewUse, Row};
use std::alloc::Global;
use test_support::{Failed, Random};
use transaction::BlockVersion;
use values::{Bytes, Items, Part, Shared};

/// What is drawn, the same in each run.
#[derive(Drop)]
pub struct Drawing {
    random: Random,
    // how many puts, entries and uses were made
    made: u32,
}

impl Drawing {
    /// Draws by a seed of its own.
    pub fn new() -> Drawing {
        Drawing {
            random: Random::new(88172645463325252),
            made: 0,
        }
    }

    /// The number of a key.
    pub fn key(&mut self) -> usize {
        self.random.below(KEYS as u8) as usize
    }

    fn id(&mut self) -> usize {
        self.random.below(IDS as u8) as usize
    }

    /// A number up to this one.
    pub fn up_to(&mut self, most: u8) -> usize {
        self.random.below(most.saturating_add(1)) as usize
    }

    fn number(&mut self) -> u32 {
        self.made = self.made.wrapping_add(1);
        self.made
    }
}

fn parsed(alloc: Global, text: &str) -> Result<Shared<Policy>, Failed> {
    match Policy::parse(alloc, text) {
        Ok(policy) => Ok(Shared::new(alloc, policy)?),
        Err(_) => Err(Failed::Missing("a policy")),
    }
}

fn policy(alloc: Global, number: u32) -> Result<Option<Shared<Policy>>, Failed> {
    if !has_policy(number) {
        return Ok(None);
    }
    Ok(Some(parsed(alloc, "'A.peer'")?))
}

fn numbered_row(alloc: Global, number: u32) -> Result<Row, Failed> {
    Ok(Row {
        value: Part::copied(alloc, &[])?,
        version: version_of(number),
        policy: policy(alloc, number)?,
    })
}

fn put(alloc: Global, at: &[u8], row: Row) -> Result<Change, Failed> {
    let key = kept_key(alloc, NAMESPACE, at)?;
    Ok(Change::Put(Shared::new(alloc, KeyedRow::new(key, row))?))
}

fn change(alloc: Global, drawing: &mut Drawing, noted: &mut Noted) -> Result<Change, Failed> {
    let at = drawing.key();
    if drawing.up_to(2) == 0 {
        noted.set(at, None);
        return Ok(Change::Remove(kept_key(alloc, NAMESPACE, key_of(at))?));
    }
    let number = drawing.number();
    noted.set(at, Some(number));
    put(alloc, key_of(at), numbered_row(alloc, number)?)
}

fn drawn_entry(
    alloc: Global,
    drawing: &mut Drawing,
    noted: &mut Noted,
) -> Result<KeptEntry, Failed> {
    let at = drawing.key();
    let number = drawing.number();
    noted.entries.push((at, number))?;
    entry(alloc, NAMESPACE, key_of(at), number)
}

fn drawn_entries(
    alloc: Global,
    drawing: &mut Drawing,
    noted: &mut Noted,
    most: u8,
) -> Result<Items<KeptEntry>, Failed> {
    let mut entries = Items::new(alloc);
    for _ in 0..drawing.up_to(most) {
        entries.push(drawn_entry(alloc, drawing, noted)?)?;
    }
    Ok(entries)
}

fn drawn_use(drawing: &mut Drawing, noted: &mut Noted) -> NewUse {
    let id = drawing.id();
    let number = drawing.number();
    noted.add_use(id, number);
    NewUse {
        id: id_of(id),
        first_use: use_at(number),
    }
}

fn drawn_uses(
    alloc: Global,
    drawing: &mut Drawing,
    noted: &mut Noted,
    most: u8,
) -> Result<Items<NewUse>, Failed> {
    let mut uses = Items::new(alloc);
    for _ in 0..drawing.up_to(most) {
        uses.push(drawn_use(drawing, noted))?;
    }
    Ok(uses)
}

fn new_definition(alloc: Global, chaincode: &[u8], text: &str) -> Result<NewDefinition, Failed> {
    let chaincode = name(chaincode)?.copy(alloc)?;
    Ok(NewDefinition {
        chaincode,
        policy: parsed(alloc, text)?,
    })
}

// Gives a chaincode another policy, or its first one.
fn definition(
    alloc: Global,
    drawing: &mut Drawing,
    noted: &mut Noted,
) -> Result<NewDefinition, Failed> {
    let chaincode = drawing.up_to(2);
    let place = drawing.up_to(2);
    noted.define(chaincode, place);
    let (Some(bytes), Some(text)) = (CHAINCODES.get(chaincode), POLICIES.get(place)) else {
        return Err(Failed::Missing("a chaincode"));
    };
    new_definition(alloc, bytes, text)
}

fn block_of(alloc: Global, hash: [u8; 32]) -> Result<Shared<CommittedBlock>, Failed> {
    let block = CommittedBlock {
        bytes: Shared::new(alloc, Bytes::from_vec(Vec::new(alloc)))?,
        header_hash: hash,
        commit_hash: commit_hash_of(hash),
        version: BlockVersion::V1,
        flags: Items::new(alloc),
    };
    Ok(Shared::new(alloc, block)?)
}

// Of a block, without changes.
fn empty(alloc: Global, hash: [u8; 32]) -> Result<Delta, Failed> {
    Ok(Delta {
        changes: Items::new(alloc),
        entries: Shared::new(alloc, Items::new(alloc))?,
        uses: Shared::new(alloc, Items::new(alloc))?,
        definitions: Items::new(alloc),
        block: block_of(alloc, hash)?,
    })
}

fn fill_with_puts(alloc: Global, delta: &mut Delta, count: u32) -> Result<(), Failed> {
    for number in 0..count {
        let at = numbered(number);
        delta.changes.push(put(alloc, &at, row(alloc, &at)?)?)?;
    }
    Ok(())
}

/// Puts k000 to k599.
pub fn six_hundred_puts(alloc: Global) -> Result<Delta, Failed> {
    let mut delta = empty(alloc, [0; 32])?;
    fill_with_puts(alloc, &mut delta, 600)?;
    Ok(delta)
}

fn fill(
    alloc: Global,
    drawing: &mut Drawing,
    noted: &mut Noted,
    most: u8,
    delta: &mut Delta,
) -> Result<(), Failed> {
    for _ in 0..drawing.up_to(most) {
        delta.changes.push(change(alloc, drawing, noted)?)?;
    }
    delta.entries = Shared::new(alloc, drawn_entries(alloc, drawing, noted, most)?)?;
    delta.uses = Shared::new(alloc, drawn_uses(alloc, drawing, noted, most)?)?;
    for _ in 0..drawing.up_to(most.min(2)) {
        delta.definitions.push(definition(alloc, drawing, noted)?)?;
    }
    Ok(())
}

/// A delta of changes in any order, with keys and ids that repeat: of each list up to so many.
pub fn delta(
    alloc: Global,
    drawing: &mut Drawing,
    noted: &mut Noted,
    most: u8,
    hash: [u8; 32],
) -> Result<Delta, Failed> {
    let mut delta = empty(alloc, hash)?;
    fill(alloc, drawing, noted, most, &mut delta)?;
    Ok(delta)
}

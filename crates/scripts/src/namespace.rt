//! What a transaction read and wrote in one namespace, owned.
ghost use Rattle.std.specs.Prelude.{◌≡◌, ℕ, List, [], IsTrue, IfOk};
ghost use Rattle.values.specs.Key.{is_bound};
ghost use Rattle.scripts.specs.Limits.{with_one};
ghost use Rattle.scripts.specs.Script as spec;
ghost use Rattle.scripts.specs.Taking.{Changes};

use crate::keyed::{OwnedKeyVersion, OwnedPolicyWrite, OwnedRead, OwnedWrite};
use crate::saying::Entry;
use std::alloc::{AllocError, Global};
use std::marker::Model;
use transaction::{KeyVersion, NsSet, PolicyWrite, Range, Read, Write};
use values::{BoundRef, Bytes, Items, Name};

/// The most items of a list.
pub(crate) const MAX_LIST: usize = 65_535;

// Adds an item, or answers no where they are that many already.
pub(crate) fn add_one<T: Drop>(
    items: &mut Items<T>,
    most: usize,
    item: T,
) -> Result<bool, AllocError>
    ensures { Changes result items.new (with_one most items.old item) }
{
    if items.len() >= most {
        return Ok(false);
    }
    items.push(item)?;
    Ok(true)
}

// Adds an item to a vector, or answers no where they are that many already.
pub(crate) fn push_one<T: Drop>(
    items: &mut Vec<T>,
    most: usize,
    item: T,
) -> Result<bool, AllocError>
    ensures { Changes result items.new.items (with_one most items.old.items item) }
{
    if items.len() >= most {
        return Ok(false);
    }
    items.push(item)?;
    Ok(true)
}

/// A range query with its raw results. A contract sees the range.
#[derive(Drop)]
pub struct OwnedRange {
    start: Bytes,
    end: Bytes,
    exhausted: bool,
    results: Items<OwnedKeyVersion>,
}

impl Model for OwnedRange {
    ghost use Rattle.std.specs.Prelude.{IsTrue};
    ghost use Rattle.values.specs.Key.{is_bound};
    ghost use Rattle.transaction.specs.declared.transaction.Range.{Range};

    ghost Value = { Range };

    ghost view = { λ r. record { start = r.start; end = r.end; exhausted = r.exhausted; results = r.results } };

    ghost invariant = { λ r. IsTrue (is_bound r.start) × IsTrue (is_bound r.end) };
}

fn lend_results<'a>(
    alloc: Global,
    results: &'a [OwnedKeyVersion],
) -> Result<Items<KeyVersion<'a>>, AllocError>
    ensures { IfOk result (λ lent. lent ≡ results.now) }
{
    let mut lent = Items::new(alloc);
    for found in results {
        lent.push(found.lend())?;
    }
    Ok(lent)
}

impl OwnedRange {
    /// A range without results.
    pub(crate) fn new(alloc: Global, start: Bytes, end: Bytes, exhausted: bool) -> OwnedRange
        requires start { IsTrue (is_bound start) }
        requires end { IsTrue (is_bound end) }
        ensures { result ≡ record { start = start; end = end; exhausted = exhausted; results = [] } }
    {
        OwnedRange {
            start,
            end,
            exhausted,
            results: Items::new(alloc),
        }
    }

    fn add_result(&mut self, found: OwnedKeyVersion) -> Result<bool, AllocError>
        ensures { Changes result self.new (spec.with_result found self.old) }
    {
        add_one(&mut self.results, MAX_LIST, found)
    }

    /// The range, lent. Linear in its results, in time and memory.
    pub fn lend(&self, alloc: Global) -> Result<Range<'_>, AllocError>
        ensures { IfOk result (λ lent. lent ≡ self.now) }
    {
        Ok(Range {
            start: BoundRef::new(self.start.as_slice()),
            end: BoundRef::new(self.end.as_slice()),
            exhausted: self.exhausted,
            results: lend_results(alloc, self.results.as_slice())?,
        })
    }
}

// Adds a result to the last range, or answers no where there is none or it has the most.
fn add_result(ranges: &mut Vec<OwnedRange>, found: OwnedKeyVersion) -> Result<bool, AllocError>
    ensures { Changes result ranges.new.items (spec.with_last (spec.with_result found) ranges.old.items) }
{
    match ranges.last_mut() {
        Some(last) => last.add_result(found),
        None => Ok(false),
    }
}

/// What a transaction read and wrote in one namespace. A contract sees all of it.
#[derive(Drop)]
pub struct OwnedNsSet {
    name: Name,
    reads: Items<OwnedRead>,
    ranges: Vec<OwnedRange>,
    writes: Items<OwnedWrite>,
    policy_writes: Items<OwnedPolicyWrite>,
}

impl Model for OwnedNsSet {
    ghost use Rattle.transaction.specs.declared.transaction.NsSet.{NsSet};

    ghost Value = { NsSet };

    ghost view = { λ n. record { name = n.name; reads = n.reads; ranges = n.ranges.items; writes = n.writes; policy_writes = n.policy_writes } };
}

fn lend_reads<'a>(alloc: Global, reads: &'a [OwnedRead]) -> Result<Items<Read<'a>>, AllocError>
    ensures { IfOk result (λ lent. lent ≡ reads.now) }
{
    let mut lent = Items::new(alloc);
    for read in reads {
        lent.push(read.lend())?;
    }
    Ok(lent)
}

fn lend_ranges<'a>(alloc: Global, ranges: &'a [OwnedRange]) -> Result<Items<Range<'a>>, AllocError>
    ensures { IfOk result (λ lent. lent ≡ ranges.now) }
{
    let mut lent = Items::new(alloc);
    for range in ranges {
        lent.push(range.lend(alloc)?)?;
    }
    Ok(lent)
}

fn lend_writes<'a>(alloc: Global, writes: &'a [OwnedWrite]) -> Result<Items<Write<'a>>, AllocError>
    ensures { IfOk result (λ lent. lent ≡ writes.now) }
{
    let mut lent = Items::new(alloc);
    for write in writes {
        lent.push(write.lend())?;
    }
    Ok(lent)
}

fn lend_policy_writes<'a>(
    alloc: Global,
    writes: &'a [OwnedPolicyWrite],
) -> Result<Items<PolicyWrite<'a>>, AllocError>
    ensures { IfOk result (λ lent. lent ≡ writes.now) }
{
    let mut lent = Items::new(alloc);
    for write in writes {
        lent.push(write.lend())?;
    }
    Ok(lent)
}

impl OwnedNsSet {
    /// Nothing was read or written.
    pub fn new(alloc: Global, name: Name) -> OwnedNsSet
        ensures { result ≡ spec.empty_namespace name }
    {
        OwnedNsSet {
            name,
            reads: Items::new(alloc),
            ranges: Vec::new(alloc),
            writes: Items::new(alloc),
            policy_writes: Items::new(alloc),
        }
    }

    // Adds a line, or answers no where no range is there for a result or a list has the most items.
    pub(crate) fn add(&mut self, entry: Entry) -> Result<bool, AllocError>
        ensures { Changes result self.new (spec.with_entry entry self.old) }
    {
        match entry {
            Entry::Read(read) => add_one(&mut self.reads, MAX_LIST, read),
            Entry::Range(range) => push_one(&mut self.ranges, MAX_LIST, range),
            Entry::Found(found) => add_result(&mut self.ranges, found),
            Entry::Write(write) => add_one(&mut self.writes, MAX_LIST, write),
            Entry::Policy(write) => add_one(&mut self.policy_writes, MAX_LIST, write),
        }
    }

    /// The namespace, lent. Linear in its entries and results, in time and memory.
    pub fn lend(&self, alloc: Global) -> Result<NsSet<'_>, AllocError>
        ensures { IfOk result (λ lent. lent ≡ self.now) }
    {
        Ok(NsSet {
            name: self.name.lend(),
            reads: lend_reads(alloc, self.reads.as_slice())?,
            ranges: lend_ranges(alloc, self.ranges.as_slice())?,
            writes: lend_writes(alloc, self.writes.as_slice())?,
            policy_writes: lend_policy_writes(alloc, self.policy_writes.as_slice())?,
        })
    }
}

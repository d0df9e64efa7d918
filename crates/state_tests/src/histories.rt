//! Entries of keys, which are lent newest first.
ghost use Rattle.std.specs.Prelude.{◌<◌, ◌≤◌, OnOk};

use crate::fixture::{entry, key, name};
use history_index::{Entries, HistoryIndex};
use rules::KeptEntry;
use std::alloc::{AllocError, Global};
use test_support::{Failed, Outcome, begins, check};
use values::{Items, Shared};

// A key in its namespace, and the places of its entries.
type Places = (&'static [u8], &'static [u8], &'static [u32]);

// A key in its namespace, and the place of an entry.
type Added<'a> = (&'a [u8], &'a [u8], u32);

fn entries_of(alloc: Global, added: &[Added<'_>]) -> Result<Items<KeptEntry>, Failed> {
    let mut entries = Items::new(alloc);
    for &(namespace, at, place) in added {
        entries.push(entry(alloc, namespace, at, place)?)?;
    }
    Ok(entries)
}

// Adds entries in one list.
fn add(alloc: Global, index: &mut HistoryIndex, added: &[Added<'_>]) -> Result<(), Failed> {
    let entries = Shared::new(alloc, entries_of(alloc, added)?)?;
    index.reserve(entries.get().len())?;
    index.add(entries);
    Ok(())
}

fn are_at(entries: Entries<'_>, places: &[u32]) -> Result<bool, AllocError> {
    let mut left = places.iter();
    for entry in entries {
        if left.next().copied() != Some(entry.entry()?.version.tx) {
            return Ok(false);
        }
    }
    Ok(left.next().is_none())
}

// Whether each key has its entries at these places, and no other ones.
fn are_places(index: &HistoryIndex, keys: &[Places]) -> Result<bool, Failed> {
    for &(namespace, at, places) in keys {
        if !are_at(index.entries(&name(namespace)?, &key(at)?), places)? {
            return Ok(false);
        }
    }
    Ok(true)
}

fn added() -> &'static [&'static [Added<'static>]] {
    &ADDED
}

// Lists of entries, in the order in which they are added.
static ADDED: [&[Added<'static>]; 4] = [
    &[(b"cc", b"k", 1), (b"cc", b"l", 2)],
    &[],
    &[(b"c", b"ck", 3)],
    &[(b"cc", b"k", 4), (b"cc", b"k", 5)],
];

fn places_of_each() -> &'static [Places] {
    &PLACES_OF_EACH
}

static PLACES_OF_EACH: [Places; 4] = [
    (b"cc", b"k", &[5, 4, 1]),
    (b"cc", b"l", &[2]),
    (b"c", b"ck", &[3]),
    (b"cc", b"m", &[]),
];

fn is_each_apart(alloc: Global, index: &mut HistoryIndex) -> Result<bool, Failed> {
    for list in added() {
        add(alloc, index, list)?;
    }
    are_places(index, places_of_each())
}

fn places_of_many() -> &'static [Places] {
    &PLACES_OF_MANY
}

static PLACES_OF_MANY: [Places; 2] = [
    (b"cc", b"\0\0\0\x07", &[907, 607, 307, 7]),
    (b"cc", b"\0\0\0\x96", &[750, 450, 150]),
];

// Adds lists of one entry each, at so many keys, one key after the other.
fn add_in_turn(alloc: Global, index: &mut HistoryIndex, lists: u32, keys: u32) -> Result<(), Failed>
    requires { 0 < keys }
{
    for place in 0..lists {
        add(
            alloc,
            index,
            &[(b"cc", &(place % keys).to_be_bytes(), place)],
        )?;
    }
    Ok(())
}

fn are_many(alloc: Global, index: &mut HistoryIndex) -> Result<bool, Failed> {
    add_in_turn(alloc, index, 1000, 300)?;
    are_places(index, places_of_many())
}

fn is_index_right(alloc: Global, of_many: bool) -> Result<bool, Failed> {
    let mut index = HistoryIndex::new(alloc);
    if of_many {
        are_many(alloc, &mut index)
    } else {
        is_each_apart(alloc, &mut index)
    }
}

#[test]
fn each_key_has_its_own_newest_first(rt: HostRuntime) -> Result<(), Failed> {
    assert!(rt; is_index_right(rt.alloc(), false)?);
    Ok(())
}

#[test]
fn many_keys_and_entries(rt: HostRuntime) -> Result<(), Failed> {
    assert!(rt; is_index_right(rt.alloc(), true)?);
    Ok(())
}

// As many entries as there are places and buckets: one more wants more of all.
const FULL: u32 = 64;

fn places_of_full() -> &'static [Places] {
    &PLACES_OF_FULL
}

static PLACES_OF_FULL: [Places; 3] = [
    (b"cc", b"\0\0\0\x03", &[51, 35, 19, 3]),
    (b"cc", b"\0\0\0\x0F", &[63, 47, 31, 15]),
    (b"cc", b"\0\0\0\x10", &[]),
];

fn more() -> &'static [Added<'static>] {
    &MORE
}

static MORE: [Added<'static>; 3] = [
    (b"cc", b"\0\0\0\x03", 64),
    (b"cc", b"\0\0\0\x10", 65),
    (b"cc", b"\0\0\0\x03", 66),
];

fn places_of_grown() -> &'static [Places] {
    &PLACES_OF_GROWN
}

static PLACES_OF_GROWN: [Places; 3] = [
    (b"cc", b"\0\0\0\x03", &[66, 64, 51, 35, 19, 3]),
    (b"cc", b"\0\0\0\x0F", &[63, 47, 31, 15]),
    (b"cc", b"\0\0\0\x10", &[65]),
];

// Makes room in a full index. Whether that was refused first, which left all as it was.
fn make_room(index: &mut HistoryIndex, additional: usize) -> Result<bool, Failed>
    ensures { OnOk result (additional ≤ index.new.room) }
{
    if index.reserve(additional).is_ok() {
        return Ok(false);
    }
    check(are_places(index, places_of_full())?)?;
    index.reserve(additional)?;
    Ok(true)
}

fn outcome_of_growth(
    alloc: Global,
    index: &mut HistoryIndex,
    entries: Shared<Items<KeptEntry>>,
) -> Result<Outcome, Failed> {
    begins(alloc)?;
    let was_refused = make_room(index, entries.get().len())?;
    index.add(entries);
    match (was_refused, are_places(index, places_of_grown())?) {
        (false, true) => Ok(Outcome::Done),
        (true, true) => Ok(Outcome::MadeGood),
        (_, false) => Ok(Outcome::Wrong),
    }
}

fn outcome_of_more(alloc: Global, index: &mut HistoryIndex) -> Result<Outcome, Failed> {
    add_in_turn(alloc, index, FULL, 16)?;
    let entries = Shared::new(alloc, entries_of(alloc, more())?)?;
    outcome_of_growth(alloc, index, entries)
}

/// What comes of an entry for which the index has to grow.
pub fn outcome(alloc: Global) -> Result<Outcome, Failed> {
    let mut index = HistoryIndex::new(alloc);
    outcome_of_more(alloc, &mut index)
}

// To be tried with memory that is refused at any one allocation of the last `reserve`, by `bench/refused_memory.py`: then all entries
// are found as before, and the same list is added next. Where it is refused before, it ends by `?`.
#[test]
fn a_full_index_grows(rt: HostRuntime) -> Result<(), Failed> {
    assert!(rt; outcome(rt.alloc())? == Outcome::Done);
    Ok(())
}

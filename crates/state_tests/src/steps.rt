//! Steps of a state: rows that are put and deleted, and what has to be so.

use crate::fixture::{bound, key, name, numbered, row};
use state_db::{Batch, Rows, StateDb};
use std::alloc::Global;
use test_support::Failed;

/// A namespace, a key, and the value that is put, or none where the key's row is deleted.
pub type Call = (&'static [u8], &'static [u8], Option<&'static [u8]>);

/// What one batch changes. Numbered rows are of `cc`, and have their keys as their values.
#[derive(Clone, Copy)]
pub enum Changes {
    // from a number to before another
    Puts(u32, u32),
    PutsOfEachSecond(u32, u32),
    Deletes(u32, u32),
    Calls(&'static [Call]),
}

/// What is done, and what has to be so.
#[derive(Clone, Copy)]
pub enum Step {
    Apply(Changes),
    // how many rows each page has
    Sizes(&'static [usize]),
    // so many rows are in pages of 1 to 256, of which there are from the least to the most
    Spread(usize, usize, usize),
    // all rows are those from a number to before another
    All(u32, u32),
    // a namespace, from where to where, and the keys between, each with its bytes as its value
    Between(&'static [u8], &'static [u8], &'static [u8], &'static [&'static [u8]]),
    // a key of `cc`, and its value if it has a row
    Value(&'static [u8], Option<&'static [u8]>),
    // keys of `cc`, each with its bytes as its value
    Own(&'static [&'static [u8]]),
}

fn put(
    alloc: Global,
    batch: &mut Batch,
    namespace: &[u8],
    at: &[u8],
    value: &[u8],
) -> Result<(), Failed> {
    let namespace = name(namespace)?.copy(alloc)?;
    let at = key(at)?.copy(alloc)?;
    let row = row(alloc, value)?;
    Ok(batch.put(namespace, at, row)?)
}

fn delete(alloc: Global, batch: &mut Batch, namespace: &[u8], at: &[u8]) -> Result<(), Failed> {
    let namespace = name(namespace)?.copy(alloc)?;
    let at = key(at)?.copy(alloc)?;
    Ok(batch.remove(namespace, at)?)
}

fn call(alloc: Global, batch: &mut Batch, call: &Call) -> Result<(), Failed> {
    let (namespace, at, value) = *call;
    match value {
        None => delete(alloc, batch, namespace, at),
        Some(value) => put(alloc, batch, namespace, at, value),
    }
}

fn fill(alloc: Global, batch: &mut Batch, changes: Changes) -> Result<(), Failed> {
    match changes {
        Changes::Puts(from, to) => {
            for number in from..to {
                put(alloc, batch, b"cc", &numbered(number), &numbered(number))?;
            }
        }
        Changes::PutsOfEachSecond(from, to) => {
            for number in from..to {
                if number % 2 == from % 2 {
                    put(alloc, batch, b"cc", &numbered(number), &numbered(number))?;
                }
            }
        }
        Changes::Deletes(from, to) => {
            for number in from..to {
                delete(alloc, batch, b"cc", &numbered(number))?;
            }
        }
        Changes::Calls(calls) => {
            for one in calls {
                call(alloc, batch, one)?;
            }
        }
    }
    Ok(())
}

/// The batch of these changes.
pub fn batch_of(alloc: Global, changes: Changes) -> Result<Batch, Failed> {
    let mut batch = Batch::new(alloc);
    fill(alloc, &mut batch, changes)?;
    Ok(batch)
}

/// Makes these changes, and tells whether they were made.
pub fn apply(alloc: Global, state: &mut StateDb, changes: Changes) -> Result<bool, Failed> {
    let batch = batch_of(alloc, changes)?;
    state.apply(&batch)?;
    Ok(true)
}

/// Whether the pages have so many rows, and there are no more pages.
pub fn are_sizes(state: &StateDb, sizes: &[usize]) -> bool {
    for (page, size) in sizes.iter().enumerate() {
        if state.page_rows(page) != Some(*size) {
            return false;
        }
    }
    state.pages() == sizes.len() && state.page_rows(sizes.len()).is_none()
}

fn are_spread(state: &StateDb, rows: usize, least: usize, most: usize) -> bool {
    let pages = state.pages();
    let mut total: usize = 0;
    for page in 0..pages {
        let size = state.page_rows(page).unwrap_or(0);
        if size < 1 || 256 < size {
            return false;
        }
        total = total.saturating_add(size);
    }
    least <= pages && pages <= most && total == rows && state.page_rows(pages).is_none()
}

// Whether the keys are those of the rows, in this order, and the values are the keys.
fn are_keys(rows: Rows<'_>, keys: &[&[u8]]) -> bool {
    let mut wanted = keys.iter();
    for row in rows {
        let key = row.key();
        if wanted.next().copied() != Some(key.as_slice())
            || row.row().value.as_slice() != key.as_slice()
        {
            return false;
        }
    }
    wanted.next().is_none()
}

fn are_between(
    state: &StateDb,
    namespace: &[u8],
    start: &[u8],
    end: &[u8],
    keys: &[&[u8]],
) -> Result<bool, Failed> {
    let rows = state.range(&name(namespace)?, &bound(start)?, &bound(end)?);
    Ok(are_keys(rows, keys))
}

// Whether all rows are those from a number to before another.
fn are_numbered(rows: Rows<'_>, from: u32, to: u32) -> bool {
    let mut number = from;
    for row in rows {
        if row.key().as_slice() != numbered(number).as_slice() {
            return false;
        }
        number = number.wrapping_add(1);
    }
    number == to
}

/// Whether these keys have rows, and no other.
pub fn are_all(state: &StateDb, from: u32, to: u32) -> Result<bool, Failed> {
    let all = bound(b"")?;
    Ok(are_numbered(state.range(&name(b"cc")?, &all, &all), from, to))
}

// Whether the key has this value, or no row.
fn is_value(state: &StateDb, at: &[u8], value: Option<&[u8]>) -> Result<bool, Failed> {
    Ok(match (state.get(&name(b"cc")?, &key(at)?), value) {
        (None, None) => true,
        (Some(row), Some(value)) => row.value.as_slice() == value,
        _ => false,
    })
}

fn are_own(state: &StateDb, keys: &[&[u8]]) -> Result<bool, Failed> {
    for at in keys {
        if !is_value(state, at, Some(at))? {
            return Ok(false);
        }
    }
    Ok(true)
}

fn is_step(alloc: Global, state: &mut StateDb, step: Step) -> Result<bool, Failed> {
    match step {
        Step::Apply(changes) => apply(alloc, state, changes),
        Step::Sizes(sizes) => Ok(are_sizes(state, sizes)),
        Step::Spread(rows, least, most) => Ok(are_spread(state, rows, least, most)),
        Step::All(from, to) => are_all(state, from, to),
        Step::Between(namespace, start, end, keys) => {
            are_between(state, namespace, start, end, keys)
        }
        Step::Value(at, value) => is_value(state, at, value),
        Step::Own(keys) => are_own(state, keys),
    }
}

fn are_steps_of(alloc: Global, state: &mut StateDb, steps: &[Step]) -> Result<bool, Failed> {
    for step in steps {
        if !is_step(alloc, state, *step)? {
            return Ok(false);
        }
    }
    Ok(true)
}

/// Whether each step is as it should be, one behind the other, from an empty state.
pub fn are_steps(alloc: Global, steps: &[Step]) -> Result<bool, Failed> {
    let mut state = StateDb::new(alloc);
    are_steps_of(alloc, &mut state, steps)
}

ghost use Rattle.std.specs.Prelude.{◌≡◌, IfOk};
ghost use Rattle.std.specs.Thread.{IsSync};
ghost use Rattle.state_db.specs.LookedUp.{AreRows};

use state_db::{FoundRows, StateDb};
use state_keys::StateKey;
use std::alloc::{AllocError, Global};
use std::thread;
use std::thread::Threads;

/// The rows of keys, each at its key's place, by so many threads, which halve the keys between them; 0 and 1 start
/// none.
///
/// A look-up for each key. Memory for lists of rows; an `Err` is want of it alone. A thread costs some 15 microseconds
/// to start.
#[cycle(halves)]
pub fn rows_by<'s, R: Threads + Sync>(
    rt: &R,
    alloc: Global,
    threads: usize,
    state: &'s StateDb,
    keys: &[StateKey<'_>],
) -> Result<FoundRows<'s>, AllocError>
    ensures { IfOk result (λ found. AreRows state.now.state keys.now found.rows.items) }
{
    if threads < 2 {
        return state.rows_of(alloc, keys);
    }
    let (low, high) = keys.split_at(keys.len() / 2);
    let few = threads / 2;
    let rest = threads - few;
    let front = move ||
        requires { IsSync R.row }
        ensures { IfOk result (λ found. AreRows state.entry.now.state low.entry.now found.rows.items) }
    { rows_by(rt, alloc, few, state, low) };
    let back = move ||
        requires { IsSync R.row }
        ensures { IfOk result (λ found. AreRows state.entry.now.state high.entry.now found.rows.items) }
    { rows_by(rt, alloc, rest, state, high) };
    let (first, second) = thread::join(rt, front, back);
    let mut found = first?;
    found.append(second?)?;
    Ok(found)
}

ghost use Rattle.std.specs.Prelude.{◌≡◌, IfOk};
ghost use Rattle.key_chains.specs.Job.{keys_in, reads_in};
ghost use Rattle.state_db.specs.LookedUp.{AreRows};

use crate::key_writers::KeyWriters;
use state_db::{FoundRows, KnownRows, StateDb};
use std::alloc::{AllocError, Global};

/// The rows before a block of the keys that it writes, in the keys' order, and of those that it reads, in the order of the reads.
#[derive(Drop)]
pub struct BlockRows<'s> {
    pub written: FoundRows<'s>,
    pub read: FoundRows<'s>,
}

/// The rows of the keys that a block reads, of which it often writes some too.
pub fn read_rows<'s>(
    alloc: Global,
    state: &'s StateDb,
    key_writers: &KeyWriters<'_>,
    written: &FoundRows<'s>,
) -> Result<FoundRows<'s>, AllocError>
    requires { AreRows state.now.state (keys_in key_writers.now) written.now.rows.items }
    ensures { IfOk result (λ found. AreRows state.entry.now.state (reads_in key_writers.now) found.rows.items) }
{
    let known = KnownRows {
        keys: key_writers.keys(),
        found: written,
        guesses: key_writers.read_numbers(),
    };
    state.rows_beside(alloc, key_writers.read_keys(), &known)
}

impl<'s> BlockRows<'s> {
    /// Searches each of them once. Memory for lists of them.
    pub fn find(
        alloc: Global,
        state: &'s StateDb,
        key_writers: &KeyWriters<'_>,
    ) -> Result<BlockRows<'s>, AllocError>
        ensures written { IfOk result (λ rows. AreRows state.entry.now.state (keys_in key_writers.now) rows.written.rows.items) }
        ensures read { IfOk result (λ rows. AreRows state.entry.now.state (reads_in key_writers.now) rows.read.rows.items) }
    {
        let written = state.rows_of(alloc, key_writers.keys())?;
        let read = read_rows(alloc, state, key_writers, &written)?;
        Ok(BlockRows { written, read })
    }
}

//! What of a block's job needs no world.
ghost use Rattle.std.specs.Prelude.{◌≡◌, ◌<◌, ◌^◌, length, IfOk};
ghost use Rattle.std.specs.List.{list_any};
ghost use Rattle.intake.specs.Tentative.{marked};
ghost use Rattle.next_block.specs.Tentative.{AreTentativeIn};

use intake::{Taken, marked, tentative};
use key_chains::KeyWriters;
use std::alloc::{AllocError, Global};
use transaction::TxId;

/// What a block's job is made of where none of its ids was used before: the ids that its transactions use, and its
/// candidates with the operations on each key that they write.
#[derive(Drop)]
pub struct TentativeJob<'a> {
    pub ids: Vec<Option<TxId>>,
    pub key_writers: KeyWriters<'a>,
}

/// The tentative job of a block, of what was taken in of its transactions, whatever the world.
///
/// One pass over the transactions, a sort of the keys that they write, and a search for each key that they write or
/// read. Memory for ids, candidates and key writers; refuses 2^32 transactions as want of it.
pub fn tentative_job_of<'a>(
    alloc: Global,
    taken: Vec<Taken<'a>>,
) -> Result<TentativeJob<'a>, AllocError>
    ensures { IfOk result (AreTentativeIn taken.entry.items) }
{
    if u32::try_from(taken.len()).is_err() {
        return Err(AllocError);
    }
    let (ids, candidates) = tentative(alloc, taken)?;
    let key_writers = KeyWriters::build(alloc, candidates)?;
    Ok(TentativeJob { ids, key_writers })
}

fn is_any(used: &[bool]) -> bool
    ensures { result ≡ list_any (λ is_used. is_used) used.now }
{
    used.iter().any(|is_used| *is_used)
}

/// The candidates, marked where an id was used before. Key writers are built anew only where one was.
pub(crate) fn with_marks<'a>(
    alloc: Global,
    key_writers: KeyWriters<'a>,
    used: &[bool],
) -> Result<KeyWriters<'a>, AllocError>
    requires count { length used.now ≡ length key_writers }
    requires few { length key_writers < 2 ^ 32 }
    ensures { IfOk result (λ c. c ≡ marked key_writers.entry used.now) }
{
    if !is_any(used) {
        return Ok(key_writers);
    }
    KeyWriters::build(alloc, marked(alloc, key_writers.into_candidates(), used)?)
}

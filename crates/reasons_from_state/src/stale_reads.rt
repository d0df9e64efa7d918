//! Reads that don't hold.
ghost use Rattle.std.specs.Prelude.{◌≡◌, ◌≤◌, Some, not, map, find, length, option_map, IfOk};
ghost use Rattle.rules.specs.Fold.{running};
ghost use Rattle.rules.specs.Reads.{read_holds};
ghost use Rattle.reasons.specs.First.{first_there};
ghost use Rattle.reasons.specs.Reads as spec;
ghost use Rattle.key_chains.specs.Shown.{Shows};
ghost use Rattle.reasons_from_state.specs.Found.{stale_in};

use crate::place::Place;
use crate::versions::version_at;
use crate::writers::last_writer;
use key_chains::{PlainBoard, StateKey};
use reasons::StaleRead;
use std::alloc::{AllocError, Global};
use transaction::{NsSet, Read};
use values::NameRef;

/// Whether the version that was read is the key's at this place.
fn read_holds(
    at: &Place<'_>,
    namespace: &NameRef<'_>,
    read: &Read<'_>,
    board: &mut PlainBoard,
) -> bool
    requires place { at.now.i ≤ length at.now.job.now.candidates }
    requires shown { Shows at.now.job.now board.old }
    ensures value { result ≡ read_holds (running at.now.job.now at.now.i).state namespace.now read.now }
    ensures board { board.new ≡ board.old }
{
    let key = StateKey::new(namespace, &read.key);
    version_at(at.job, at.i, &key, board) == read.version
}

/// A read beside what is there.
fn stale_read(
    alloc: Global,
    at: &Place<'_>,
    namespace: &NameRef<'_>,
    read: &Read<'_>,
    board: &mut PlainBoard,
) -> Result<StaleRead, AllocError>
    requires place { at.now.i ≤ length at.now.job.now.candidates }
    requires shown { Shows at.now.job.now board.old }
    ensures value { IfOk result (λ x. x ≡ spec.stale_read at.now.job.now at.now.i namespace.now read.now) }
    ensures board { board.new ≡ board.old }
{
    let key = StateKey::new(namespace, &read.key);
    let there = version_at(at.job, at.i, &key, board);
    Ok(StaleRead {
        namespace: namespace.copy(alloc)?,
        key: read.key.copy(alloc)?,
        read: read.version,
        there,
        writer: last_writer(at.job, at.i, &key, there.is_some(), board),
    })
}

/// The first read of a namespace that doesn't hold.
fn first_stale(
    alloc: Global,
    at: &Place<'_>,
    namespace: &NameRef<'_>,
    reads: &[Read<'_>],
    board: &mut PlainBoard,
) -> Result<Option<StaleRead>, AllocError>
    requires place { at.now.i ≤ length at.now.job.now.candidates }
    requires shown { Shows at.now.job.now board.old }
    ensures value { IfOk result (λ x. x ≡ option_map (spec.stale_read at.now.job.now at.now.i namespace.now) (find (λ y. not (read_holds (running at.now.job.now at.now.i).state namespace.now y)) reads.now)) }
    ensures board { board.new ≡ board.old }
{
    for read in reads {
        if !read_holds(at, namespace, read, board) {
            return Ok(Some(stale_read(alloc, at, namespace, read, board)?));
        }
    }
    Ok(None)
}

/// The first read of a transaction that doesn't hold.
pub(crate) fn read_conflict(
    alloc: Global,
    at: &Place<'_>,
    sets: &[NsSet<'_>],
    board: &mut PlainBoard,
) -> Result<Option<StaleRead>, AllocError>
    requires place { at.now.i ≤ length at.now.job.now.candidates }
    requires shown { Shows at.now.job.now board.old }
    ensures value { IfOk result (λ x. x ≡ first_there (map (stale_in at.now.job.now at.now.i) sets.now)) }
    ensures board { board.new ≡ board.old }
{
    for set in sets {
        if let Some(read) = first_stale(alloc, at, &set.name, set.reads.as_slice(), board)? {
            return Ok(Some(read));
        }
    }
    Ok(None)
}

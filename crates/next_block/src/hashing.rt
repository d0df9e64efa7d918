//! The commit hash of a delta, by a thread of its own.
ghost use Rattle.std.specs.Prelude.{◌≡◌, IfOk};

use crate::pending::PendingDelta;
use std::alloc::{AllocError, Global};
use std::thread;
use std::thread::Threads;
use values::Hash;

/// The commit hash of a delta by another thread, beside the caller's own work, whose result is the second.
///
/// Where no thread can be had, this one does both. Costs what [`PendingDelta::commit_hash`] does, and the start of a
/// thread.
pub fn hash_beside<R: Threads, Z, F: FnMut() -> Z>(
    rt: &R,
    alloc: Global,
    pending: &PendingDelta,
    own: &mut F,
) -> (Result<Hash, AllocError>, Z)
    requires { F.pre own.old }
    ensures hash { IfOk result.0 (λ hash. hash ≡ pending.now.block.commit_hash) }
    ensures own { F.step own.old result.1 own.new }
{
    thread::join_mut(rt, &mut || pending.commit_hash(alloc), own)
}

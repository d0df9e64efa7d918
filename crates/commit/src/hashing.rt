//! The commit hash of a delta, beside which what its job had is dropped, and the worlds make room for it.
ghost use Rattle.std.specs.Prelude.{◌≡◌, IfOk};

use crate::context::Context;
use key_chains::KeyWriters;
use next_block::{PendingDelta, hash_beside};
use query::Publisher;
use std::alloc::AllocError;
use std::sync::Wait;
use std::thread::Threads;
use values::Hash;
use world::{ReadyDelta, Room};

// So many bytes are hashed in a few times what a thread takes to start.
const WORTH_A_THREAD: usize = 1 << 16;

/// Drops what is spent, and has both worlds make room.
fn make_room<R: Wait>(
    rt: &R,
    publisher: &mut Publisher,
    room: Room,
    spent: &mut Option<KeyWriters<'_>>,
) -> Result<(), AllocError>
    ensures { publisher.new ≡ publisher.old }
{
    // first, so that worlds that grow may have its memory
    *spent = None;
    publisher.make_room(rt, room)
}

/// The commit hash by another thread, while this one has both worlds make room.
fn hash_and_room<R: Threads + Wait + Sync, V, G>(
    context: &Context<'_, R, V, G>,
    publisher: &mut Publisher,
    pending: &PendingDelta,
    spent: &mut Option<KeyWriters<'_>>,
) -> Result<Hash, AllocError>
    ensures hash { IfOk result (λ hash. hash ≡ pending.now.block.commit_hash) }
    ensures same { publisher.new ≡ publisher.old }
{
    let (rt, alloc) = (context.rt, context.alloc);
    let room = pending.room_in(publisher.published());
    let (hash, made) = hash_beside(
        rt,
        alloc,
        pending,
        &mut || { make_room(rt, publisher, room, spent) },
    );
    made?;
    hash
}

/// The commit hash of a delta, for which both worlds then have room. Where much is hashed and the context allows it, by
/// [`hash_beside`].
fn hash_of<R: Threads + Wait + Sync, V, G>(
    context: &Context<'_, R, V, G>,
    publisher: &mut Publisher,
    pending: &PendingDelta,
    spent: &mut Option<KeyWriters<'_>>,
) -> Result<Hash, AllocError>
    ensures hash { IfOk result (λ hash. hash ≡ pending.now.block.commit_hash) }
    ensures same { publisher.new ≡ publisher.old }
{
    if !context.hashes_beside || pending.update_len() < WORTH_A_THREAD {
        let room = pending.room_in(publisher.published());
        make_room(context.rt, publisher, room, spent)?;
        pending.commit_hash(context.alloc)
    } else {
        hash_and_room(context, publisher, pending, spent)
    }
}

/// The delta, with its commit hash, for which both worlds then have room. Drops what its job had.
pub(crate) fn hashed<R: Threads + Wait + Sync, V, G>(
    context: &Context<'_, R, V, G>,
    publisher: &mut Publisher,
    pending: PendingDelta,
    spent: Option<KeyWriters<'_>>,
) -> Result<ReadyDelta, AllocError>
    ensures delta { IfOk result (λ delta. delta ≡ pending) }
    ensures same { publisher.new ≡ publisher.old }
{
    let mut spent = spent;
    let hash = hash_of(context, publisher, &pending, &mut spent)?;
    pending.with_commit_hash(context.alloc, hash)
}

//! A handle that was told of a receipt never answers below it.
ghost use Rattle.std.specs.Prelude.{◌≡◌, All};

mod vectors;

use crate::blocks::Drafter;
use crate::opening::opened_publisher;
use crate::publishing::publish_next;
use query::{Publisher, QueryHandle, Receipt, Reply};
use rules::{CommittedBlock, Delta, Flag};
use std::alloc::Global;
use std::sync::Wait;
use std::thread;
use std::thread::Threads;
use test_support::Failed;
use vectors::{SCRIPT, block, header_hash};

const ASKS: u32 = 1_000;

fn has_flag(flags: &[Flag]) -> bool {
    flags == [Flag::Valid].as_slice()
}

fn is_of_block(receipt: &Receipt) -> bool {
    receipt.number == 0
        && receipt.height == 1
        && receipt.header_hash == *header_hash()
        && has_flag(receipt.flags.as_slice())
}

fn is_behind_block<A>(reply: &Reply<A>) -> bool {
    reply.height == 1 && reply.header_hash == Some(*header_hash())
}

fn is_before_block<A>(reply: &Reply<A>) -> bool {
    reply.height == 0 && reply.header_hash.is_none()
}

fn is_kept(kept: &Option<CommittedBlock>) -> bool {
    match kept {
        Some(kept) => {
            kept.bytes.get().as_slice() == block()
                && kept.header_hash == *header_hash()
                && has_flag(kept.flags.as_slice())
        }
        None => false,
    }
}

fn keeps_block(alloc: Global, handle: &mut QueryHandle) -> Result<bool, Failed> {
    let reply = handle.block(alloc, 0)?;
    Ok(is_behind_block(&reply) && is_kept(&reply.answer))
}

fn stays_told(alloc: Global, handle: &mut QueryHandle) -> Result<bool, Failed> {
    for _ in 0..ASKS {
        let reply = handle.height()?;
        if !is_behind_block(&reply) || reply.answer != 1 {
            return Ok(false);
        }
    }
    keeps_block(alloc, handle)
}

fn publish_and_tell<R: Wait>(
    rt: &R,
    alloc: Global,
    publisher: &mut Publisher,
    handle: &mut QueryHandle,
    delta: Delta,
) -> Result<bool, Failed>
    requires { handle.old.book ≡ publisher.old.book }
{
    let receipt = publish_next(rt, alloc, publisher, delta)?;
    if handle.knows(&receipt) {
        return Ok(false);
    }
    handle.learn(&receipt);
    Ok(handle.knows(&receipt) && is_of_block(&receipt) && stays_told(alloc, handle)?)
}

// Nobody tells this one.
fn never_goes_back(handle: &mut QueryHandle) -> Result<bool, Failed> {
    let mut is_seen = false;
    for _ in 0..ASKS {
        let reply = handle.height()?;
        if reply.answer != reply.height
            || !is_behind_block(&reply) && (is_seen || !is_before_block(&reply))
        {
            return Ok(false);
        }
        is_seen = is_behind_block(&reply);
        thread::yield_now();
    }
    Ok(true)
}

fn in_two_threads<R: Threads + Wait + Sync>(
    rt: &R,
    alloc: Global,
    publisher: &mut Publisher,
    handle: &mut QueryHandle,
    other: &mut QueryHandle,
    delta: Delta,
) -> Result<bool, Failed>
    requires { handle.old.book ≡ publisher.old.book }
{
    let (untold, told) = thread::join(
        rt,
        || never_goes_back(other),
        ||
            requires { handle.now.book ≡ publisher.now.book }
        { publish_and_tell(rt, alloc, publisher, handle, delta) },
    );
    Ok(told? && untold?)
}

fn drafted(alloc: Global) -> Result<Delta, Failed> {
    let mut drafter = Drafter::open(alloc)?;
    drafter.next(SCRIPT)
}

fn of_two<R: Threads + Wait + Sync>(
    rt: &R,
    alloc: Global,
    publisher: &mut Publisher,
    handles: &mut Vec<QueryHandle>,
) -> Result<bool, Failed>
    requires { All (λ h. h.book ≡ publisher.old.book) handles.old.items }
{
    let delta = drafted(alloc)?;
    match (handles.pop(), handles.pop()) {
        (Some(mut one), Some(mut other)) => {
            in_two_threads(rt, alloc, publisher, &mut one, &mut other, delta)
        }
        _ => Err(Failed::Missing("two handles")),
    }
}

fn is_one_told<R: Threads + Wait + Sync>(rt: &R, alloc: Global) -> Result<bool, Failed> {
    let (mut publisher, mut handles) = opened_publisher(rt, alloc, 2)?;
    let is_right = of_two(rt, alloc, &mut publisher, &mut handles);
    publisher.close(rt);
    is_right
}

#[test]
fn one_of_two_handles_is_told(rt: HostRuntime) -> Result<(), Failed> {
    assert!(rt; is_one_told(&rt, rt.alloc())?);
    Ok(())
}

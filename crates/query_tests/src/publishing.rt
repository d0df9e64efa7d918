//! Publishes what is linked.
ghost use Rattle.std.specs.Prelude.{◌≡◌, IfOk};

use callers::is_linked;
use query::{Publisher, Receipt};
use rules::Delta;
use std::alloc::Global;
use std::sync::Wait;
use test_support::Failed;
use world::ReadyDelta;

/// Publishes the next block, each second one step by step.
pub fn publish_next<R: Wait>(
    rt: &R,
    alloc: Global,
    publisher: &mut Publisher,
    delta: Delta,
) -> Result<Receipt, Failed>
    ensures book { publisher.new.book ≡ publisher.old.book }
    ensures receipt { IfOk result (λ r. r.front.book ≡ publisher.old.book) }
{
    if publisher.failed() {
        return Err(Failed::Missing("a publisher that goes on"));
    }
    if !is_linked(alloc, publisher.published(), &delta)? {
        return Err(Failed::Missing("a linked delta"));
    }
    if publisher.published().height() % 2 == 0 {
        return Ok(publisher.publish(rt, delta)?);
    }
    let ready = ReadyDelta::new(alloc, delta)?;
    let room = ready.room_in(publisher.published());
    publisher.make_room(rt, room)?;
    Ok(publisher.publish_ready(rt, ready)?)
}

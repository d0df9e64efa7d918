//! The answers to many blocks, as a list.
ghost use Rattle.std.specs.Prelude.{◌≡◌, ◌≤◌, [], length};
ghost use Rattle.std.specs.Vec.{vec_len, vec_capacity};
ghost use Rattle.commit.specs.Collecting.{IsCollected};
ghost use Rattle.commit.specs.Running.{BelongsTo, RunsTo};

use crate::block_bytes::BlockBytes;
use crate::context::Context;
use crate::published::Published;
use crate::running::{Answer, run_all};
use gates::Gate;
use policy_eval::Verify;
use std::sync::Wait;
use std::thread::Threads;

/// Adds an answer. Says whether there was room or memory for it.
fn collect(answers: &mut Vec<Answer>, answer: Answer) -> bool
    ensures { IsCollected answers.old answer result answers.new }
{
    answers.push(answer).is_ok()
}

/// Commits blocks one after the other. There is room for their answers.
pub(crate) fn collect_all<'e, R: Threads + Wait + Sync, V: Verify + Sync, G: Gate + Sync>(
    context: &'e Context<'e, R, V, G>,
    published: &mut Published,
    blocks: &'e [BlockBytes<'e>],
    answers: &mut Vec<Answer>,
)
    requires belongs { BelongsTo context.now.channel.now published.old }
    requires none { answers.old.items ≡ [] }
    requires len { vec_len answers.old ≡ 0 }
    requires room { length blocks.now ≤ vec_capacity answers.old }
    ensures runs { RunsTo context.now.channel.now (V.accepts context.now.verifier.now) published.old blocks.now answers.new.items published.new }
    ensures belongs { BelongsTo context.now.channel.now published.new }
{
    run_all(
        context,
        published,
        blocks,
        &mut |answer| { collect(answers, answer) },
    );
}

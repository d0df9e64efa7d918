//! Blocks one after the other, which workers take in ahead, and whose answers are told as they come.
ghost use Rattle.std.specs.Prelude.{◌≡◌};
ghost use Rattle.std.specs.Thread.{IsSync};
ghost use Rattle.rules.specs.World.{World};
ghost use Rattle.lookahead.specs.Picked.{IsPicked};
ghost use Rattle.commit.specs.Prepared.{MayBeTakenIn, MayBeTakenInPart, MayWait};
ghost use Rattle.commit.specs.Running.{Answer, BelongsTo, SubmitsTo, TellsTo};

use crate::block_bytes::BlockBytes;
use crate::blocks_ahead::{BlocksAhead, Intake};
use crate::context::Context;
use crate::not_committed::NotCommitted;
use crate::published::Published;
use gates::Gate;
use lookahead::Ahead;
use next_block::Prepared;
use policy_eval::Verify;
use query::Receipt;
use rules::Refused;
use std::marker::Brand;
use std::sync::Wait;
use std::thread;
use std::thread::{Scope, Threads};

/// What a committer answers to a block.
pub type Answer = Result<Receipt, NotCommitted>;

/// What is published, and the function that is told of each answer.
#[derive(Drop)]
pub(crate) struct Run<'p, 't, F> {
    published: &'p mut Published,
    tell: &'t mut F,
    /// Whether the function still asked for the next answer when the run ended.
    asks: bool,
}

impl<F: FnMut(Answer) -> bool> Run<'_, '_, F> {
    /// Commits the next block, where it was taken in ahead. Where it wasn't, for want of memory too, it is taken in now, alone,
    /// so that none is refused for what another one took. Says whether the next answer is asked for.
    fn commit_next<'b, R: Threads + Wait + Sync, V: Verify + Sync, G: Gate + Sync>(
        &mut self,
        context: &Context<'_, R, V, G>,
        bytes: &BlockBytes<'b>,
        next: Option<Result<Prepared<'b>, Refused>>,
    ) -> bool
        requires waits { (w : World) → MayWait context.now.channel.now (V.accepts context.now.verifier.now) w bytes.now next }
        requires belongs { BelongsTo context.now.channel.now self.old.published.now }
        requires callable { F.IsAlwaysCallable self.old.tell.now }
        ensures submits { (answer : Answer) × SubmitsTo context.now.channel.now (V.accepts context.now.verifier.now) self.old.published.now bytes.now answer self.new.published.now
            × F.step self.old.tell.now answer result self.new.tell.now }
        ensures belongs { BelongsTo context.now.channel.now self.new.published.now }
        ensures callable { F.IsAlwaysCallable self.new.tell.now }
        ensures lent { self.new.published.ghost_name ≡ self.old.published.ghost_name }
        ensures tell { self.new.tell.ghost_name ≡ self.old.tell.ghost_name }
    {
        let prepared = self.published.prepared(context, bytes, next);
        let answer = self.published.commit(context, bytes, prepared);
        (self.tell)(answer)
    }
}

/// Commits blocks, each of which all workers take in and check when its turn comes. Says whether the function always asked for more.
fn commit_in_turn<
    R: Threads + Wait + Sync,
    V: Verify + Sync,
    G: Gate + Sync,
    F: FnMut(Answer) -> bool,
>(context: &Context<'_, R, V, G>, run: &mut Run<'_, '_, F>, blocks: &[BlockBytes<'_>]) -> bool
    requires belongs { BelongsTo context.now.channel.now run.old.published.now }
    requires callable { F.IsAlwaysCallable run.old.tell.now }
    ensures told { TellsTo F.step context.now.channel.now (V.accepts context.now.verifier.now)
        run.old.published.now blocks.now run.old.tell.now result run.new.published.now run.new.tell.now }
    ensures belongs { BelongsTo context.now.channel.now run.new.published.now }
    ensures callable { F.IsAlwaysCallable run.new.tell.now }
    ensures lent { run.new.published.ghost_name ≡ run.old.published.ghost_name }
    ensures tell { run.new.tell.ghost_name ≡ run.old.tell.ghost_name }
{
    for bytes in blocks {
        if !run.commit_next(context, bytes, None) {
            return false;
        }
    }
    true
}

/// Commits blocks that workers take in ahead. They have the processors, so each block is checked by this one alone.
/// Says whether the function always asked for more.
fn commit_taken_in<
    'e,
    J: Intake,
    R: Threads + Wait + Sync,
    V: Verify + Sync,
    G: Gate + Sync,
    F: FnMut(Answer) -> bool,
>(
    context: &'e Context<'e, R, V, G>,
    run: &mut Run<'_, '_, F>,
    blocks: &'e [BlockBytes<'e>],
    ahead: &mut BlocksAhead<'_, 'e, J, R, V, G>,
) -> bool
    requires picked { IsPicked J.may_be J.may_be_part (MayBeTakenIn context.now.channel.now (V.accepts context.now.verifier.now)) (MayBeTakenInPart context.now.channel.now (V.accepts context.now.verifier.now)) blocks.now }
    requires blocks { ahead.old.pieces.now ≡ blocks.now }
    requires context { ahead.old.work.now ≡ context.now }
    requires none { ahead.old.taken ≡ 0 }
    requires belongs { BelongsTo context.now.channel.now run.old.published.now }
    requires callable { F.IsAlwaysCallable run.old.tell.now }
    ensures told { TellsTo F.step context.now.channel.now (V.accepts context.now.verifier.now)
        run.old.published.now blocks.now run.old.tell.now result run.new.published.now run.new.tell.now }
    ensures belongs { BelongsTo context.now.channel.now run.new.published.now }
    ensures callable { F.IsAlwaysCallable run.new.tell.now }
    ensures lent { run.new.published.ghost_name ≡ run.old.published.ghost_name }
    ensures tell { run.new.tell.ghost_name ≡ run.old.tell.ghost_name }
{
    let alone = context.alone();
    for bytes in blocks {
        let next = ahead.next().ok();
        if !run.commit_next(&alone, bytes, next) {
            return false;
        }
    }
    true
}

/// Commits blocks that workers take in ahead, of whom the calling thread is one. When the function asks for no more, no other
/// block begins.
fn commit_ahead<
    'p,
    't,
    's,
    'e,
    J: Intake + Send + Sync + 's,
    R: Threads + Wait + Sync,
    V: Verify + Sync,
    G: Gate + Sync,
    F: FnMut(Answer) -> bool,
>(
    scope: &'s Scope<'s, &'e ()>,
    context: &'e Context<'e, R, V, G>,
    run: Run<'p, 't, F>,
    blocks: &'e [BlockBytes<'e>],
) -> Run<'p, 't, F>
    requires picked { IsPicked J.may_be J.may_be_part (MayBeTakenIn context.now.channel.now (V.accepts context.now.verifier.now)) (MayBeTakenInPart context.now.channel.now (V.accepts context.now.verifier.now)) blocks.now }
    requires belongs { BelongsTo context.now.channel.now run.published.now }
    requires callable { F.IsAlwaysCallable run.tell.now }
    ensures told { TellsTo F.step context.now.channel.now (V.accepts context.now.verifier.now)
        run.entry.published.now blocks.now run.entry.tell.now result.asks result.published.now result.tell.now }
    ensures belongs { BelongsTo context.now.channel.now result.published.now }
    ensures callable { F.IsAlwaysCallable result.tell.now }
    ensures lent { result.published.ghost_name ≡ run.entry.published.ghost_name }
    ensures tell { result.tell.ghost_name ≡ run.entry.tell.ghost_name }
{
    let mut run = run;
    let mut ahead = Ahead::new(
        scope,
        context.rt,
        context.alloc,
        blocks,
        context,
        context.workers.count,
    );
    run.asks = commit_taken_in::<J, R, V, G, F>(context, &mut run, blocks, &mut ahead);
    ahead.close();
    run
}

/// Commits blocks that workers take in ahead, in threads that end with it.
fn commit_in_scope<
    'p,
    't,
    'e,
    J: Intake + Send + Sync,
    R: Threads + Wait + Sync,
    V: Verify + Sync,
    G: Gate + Sync,
    F: FnMut(Answer) -> bool,
>(
    context: &'e Context<'e, R, V, G>,
    published: &'p mut Published,
    blocks: &'e [BlockBytes<'e>],
    tell: &'t mut F,
) -> Run<'p, 't, F>
    requires picked { IsPicked J.may_be J.may_be_part (MayBeTakenIn context.now.channel.now (V.accepts context.now.verifier.now)) (MayBeTakenInPart context.now.channel.now (V.accepts context.now.verifier.now)) blocks.now }
    requires belongs { BelongsTo context.now.channel.now published.old }
    requires callable { F.IsAlwaysCallable tell.old }
    ensures told { TellsTo F.step context.now.channel.now (V.accepts context.now.verifier.now)
        published.old blocks.now tell.old result.asks result.published.now result.tell.now }
    ensures belongs { BelongsTo context.now.channel.now result.published.now }
    ensures callable { F.IsAlwaysCallable result.tell.now }
    ensures lent { result.published.ghost_name ≡ published.entry.ghost_name }
    ensures tell { result.tell.ghost_name ≡ tell.entry.ghost_name }
{
    let run = Run {
        published,
        tell,
        asks: true,
    };
    thread::scope(
        thread::scope_env(),
        context.rt,
        move |scope| -> Run<F>
            requires { IsSync R.row × IsSync V.row × IsSync G.row
                × IsPicked J.may_be J.may_be_part (MayBeTakenIn context.now.channel.now (V.accepts context.now.verifier.now)) (MayBeTakenInPart context.now.channel.now (V.accepts context.now.verifier.now)) blocks.now
                × BelongsTo context.now.channel.now run.published.now
                × F.IsAlwaysCallable run.tell.now }
            ensures told { TellsTo F.step context.entry.now.channel.now (V.accepts context.entry.now.verifier.now)
                run.entry.published.now blocks.entry.now run.entry.tell.now result.asks result.published.now result.tell.now }
            ensures belongs { BelongsTo context.entry.now.channel.now result.published.now }
            ensures callable { F.IsAlwaysCallable result.tell.now }
            ensures lent { result.published.ghost_name ≡ run.entry.published.ghost_name }
            ensures tell { result.tell.ghost_name ≡ run.entry.tell.ghost_name }
        { commit_ahead::<J, R, V, G, F>(scope, context, run, blocks) },
    )
}

/// Commits blocks one after the other, and tells a function of each answer, until that asks for no more. Says whether it
/// always did.
pub(crate) fn run_all<
    'e,
    R: Threads + Wait + Sync,
    V: Verify + Sync,
    G: Gate + Sync,
    F: FnMut(Answer) -> bool,
>(
    context: &'e Context<'e, R, V, G>,
    published: &mut Published,
    blocks: &'e [BlockBytes<'e>],
    tell: &mut F,
) -> bool
    requires belongs { BelongsTo context.now.channel.now published.old }
    requires callable { F.IsAlwaysCallable tell.old }
    ensures told { TellsTo F.step context.now.channel.now (V.accepts context.now.verifier.now)
        published.old blocks.now tell.old result published.new tell.new }
    ensures belongs { BelongsTo context.now.channel.now published.new }
    ensures callable { F.IsAlwaysCallable tell.new }
{
    if !context.workers.should_take_in_ahead(blocks.len()) {
        let mut run = Run {
            published,
            tell,
            asks: true,
        };
        return commit_in_turn(context, &mut run, blocks);
    }
    let run = commit_in_scope::<Brand, R, V, G, F>(context, published, blocks, tell);
    run.asks
}

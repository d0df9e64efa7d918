ghost use Rattle.std.specs.Prelude.{◌≡◌, ◌≤◌, ◌<◌, ◌↔◌, ◌⊎◌, [], false, length, Err, IfOk, OnErr};
ghost use Rattle.std.specs.List.{All};
ghost use Rattle.check_workers.specs.Limits.{max_workers};
ghost use Rattle.query.specs.Limits.{max_readers};
ghost use Rattle.rules.specs.Names.{HasNamesOf};
ghost use Rattle.rules.specs.World.{empty_world};
ghost use Rattle.commit.specs.Committing.{Submits, Runs, world_of};
ghost use Rattle.commit.specs.Telling.{RunsTelling};

use crate::block_bytes::{BlockBytes, all_shared};
use crate::collecting::collect_all;
use crate::context::Context;
use crate::not_committed::NotCommitted;
use crate::opening::OpenFault;
use crate::published::Published;
use crate::running::{Answer, run_all};
use crate::workers::Workers;
use channel::{Channel, Configuration};
use gates::Gate;
use policy_eval::Verify;
use query::{Front, QueryHandle, Receipt};
use std::alloc::{AllocError, Global};
use std::marker::Model;
use std::sync::Wait;
use std::thread::Threads;
use values::{Bytes, Shared};
use world::World;

/// The committer of one channel. It takes blocks one by one, checks each by many workers, and publishes it to handles
/// that ask from other threads. A contract sees its channel and the deltas that it has published.
///
/// It has no `Drop`, since its end waits for queries that have begun: [`Committer::close`] ends it.
pub struct Committer {
    alloc: Global,
    channel: Configuration,
    workers: Workers,
    published: Published,
}

impl Model for Committer {
    ghost use Rattle.std.specs.Coded.{codes};
    ghost use Rattle.logbook.specs.Pages.{book_coded};
    ghost use Rattle.policy.specs.Policies.{policies_code};
    ghost use Rattle.policy.specs.Tree.{tree_code};
    ghost use Rattle.query.specs.Code.{list_code};
    ghost use Rattle.commit.specs.Committing.{Committing};
    ghost use Rattle.commit.specs.Running.{BelongsTo, committing};

    ghost Value = { Committing };

    ghost coded = { Prim.hlevel (codes, tree_code, policies_code, book_coded, list_code) };

    ghost view = { λ c. committing c.channel c.published };

    ghost invariant = { λ c. BelongsTo c.channel c.published };
}

impl Committer {
    /// Opens the committer of height 0 with 1 to 64 workers, and at most 32 handles that ask it.
    ///
    /// Takes memory for two empty worlds and the handles. Starts no thread, and waits for none.
    pub fn open<R: Wait>(
        alloc: Global,
        rt: &R,
        channel: Channel,
        workers: usize,
        readers: usize,
    ) -> Result<(Committer, Vec<QueryHandle>), OpenFault>
        ensures committer { IfOk result (λ r. (r.0.channel ≡ channel) × (r.0.list ≡ []) × (r.0.stopped ≡ false)) }
        ensures count { IfOk result (λ r. length r.1.items ≡ readers) }
        ensures handles { IfOk result (λ r. All (λ h. h ≡ record { book = r.0.book; base = empty_world channel.definitions; list = [] }) r.1.items) }
        ensures workers { (result ≡ Err OpenFault.Workers) ↔ ((workers ≡ 0) ⊎ (max_workers < workers)) }
        ensures readers { (result ≡ Err OpenFault.Readers) ↔ ((1 ≤ workers) × (workers ≤ max_workers) × (max_readers < readers)) }
    {
        let Some(workers) = Workers::new(workers) else {
            return Err(OpenFault::Workers);
        };
        let (channel, definitions) = channel.into_parts();
        let (published, handles) = Published::open(alloc, rt, definitions, readers)?;
        let committer = Committer {
            alloc,
            channel,
            workers,
            published,
        };
        Ok((committer, handles))
    }

    /// What it has published. Constant time.
    pub fn view(&self) -> &World
        ensures { result.now ≡ world_of self.now }
    {
        self.published.world()
    }

    /// Its channel, of which the same chaincodes have a policy in what it has published.
    pub fn channel(&self) -> &Configuration
        ensures channel { result.now ≡ self.now.channel }
        ensures names { HasNamesOf self.now.channel (world_of self.now) }
    {
        &self.channel
    }

    /// Whether it has stopped: it takes no block from then on.
    pub fn has_stopped(&self) -> bool
        ensures { result ≡ self.now.stopped }
    {
        self.published.has_stopped()
    }

    /// How many verdicts of the last accepted block no worker had found; 0 before the first. No clause says it.
    pub fn gathered(&self) -> u32 {
        self.published.gathered()
    }

    /// Takes the bytes of the next block: commits and publishes it, or refuses it and changes nothing. The flags are
    /// those of a committer that takes transactions one by one, as peers validate blocks in the EuroSys 2018 Fabric
    /// paper.
    ///
    /// Where memory is refused while the block is published, the committer has stopped: what was published before
    /// stays, and it takes no block from then on. Tests alone show that all memory is had before that, so that it
    /// doesn't come to this. Linear in the block and in what it writes, with logarithms of its keys and of the state's
    /// rows, beside what the checks cost; waits for its workers, and for queries that have begun.
    pub fn submit<R: Threads + Wait + Sync, V: Verify + Sync, G: Gate + Sync>(
        &mut self,
        rt: &R,
        bytes: &[u8],
        verifier: &V,
        gate: &G,
    ) -> Result<Receipt, NotCommitted>
        ensures { Submits (V.accepts verifier.now) self.old bytes.now result self.new }
    {
        if self.published.has_stopped() {
            return Err(NotCommitted::Stopped);
        }
        let context = Context {
            rt,
            alloc: self.alloc,
            channel: &self.channel,
            workers: self.workers,
            hashes_beside: self.workers.count > 1,
            verifier,
            gate,
        };
        let block = BlockBytes::lent(bytes);
        let prepared = self.published.take_in_next(&context, &block);
        self.published.commit(&context, &block, prepared)
    }

    /// Takes the bytes of blocks one after the other, and answers to each as [`Committer::submit`] would. An `Err` is
    /// want of memory for the lists of blocks and answers; no block was handed in then. Costs what [`Committer::run_telling`] does.
    pub fn run<R: Threads + Wait + Sync, V: Verify + Sync, G: Gate + Sync>(
        &mut self,
        rt: &R,
        blocks: &[Shared<Bytes>],
        verifier: &V,
        gate: &G,
    ) -> Result<Vec<Answer>, AllocError>
        ensures runs { IfOk result (λ answers. Runs (V.accepts verifier.now) self.old blocks.now answers.items self.new) }
        ensures err { OnErr result (self.new ≡ self.old) }
    {
        let blocks = all_shared(self.alloc, blocks)?;
        let mut answers = Vec::with_capacity(self.alloc, blocks.len())?;
        let context = Context {
            rt,
            alloc: self.alloc,
            channel: &self.channel,
            workers: self.workers,
            hashes_beside: self.workers.count > 1,
            verifier,
            gate,
        };
        collect_all(
            &context,
            &mut self.published,
            blocks.as_slice(),
            &mut answers,
        );
        Ok(answers)
    }

    /// Takes the bytes of blocks one after the other, answers to each as [`Committer::submit`] would, and tells the function of
    /// each answer as soon as the block is done. Where that says `false`, the run ends, and no other block is handed in. Answers
    /// whether it never did. An `Err` is want of memory for the list of blocks; no block was handed in then.
    ///
    /// While the calling thread commits a block, the other workers take in those behind it, in parts of 32 KiB, and so does the
    /// calling thread while the next block isn't taken in: many blocks are done sooner than by as many calls of `submit`. What
    /// was taken in of a block that isn't the next one goes for nothing, as where the function ends the run. One or two blocks
    /// are taken in by all workers, each when its turn comes.
    ///
    /// It takes memory for what is taken in ahead, of at most four blocks for each worker. Where that is refused, the
    /// block is taken in once more when its turn comes. A thread that can't be started is done without. Of an accepted block
    /// the committer keeps the bytes that are shared, without a copy.
    pub fn run_telling<
        R: Threads + Wait + Sync,
        V: Verify + Sync,
        G: Gate + Sync,
        F: FnMut(Answer) -> bool,
    >(
        &mut self,
        rt: &R,
        blocks: &[Shared<Bytes>],
        verifier: &V,
        gate: &G,
        tell: &mut F,
    ) -> Result<bool, AllocError>
        requires { F.IsAlwaysCallable tell.old }
        ensures told { IfOk result (λ all. RunsTelling F.step (V.accepts verifier.now) self.old blocks.now tell.old all self.new tell.new) }
        ensures err { OnErr result ((self.new ≡ self.old) × (tell.new ≡ tell.old)) }
        ensures callable { F.IsAlwaysCallable tell.new }
    {
        let blocks = all_shared(self.alloc, blocks)?;
        let context = Context {
            rt,
            alloc: self.alloc,
            channel: &self.channel,
            workers: self.workers,
            hashes_beside: self.workers.count > 1,
            verifier,
            gate,
        };
        Ok(run_all(&context, &mut self.published, blocks.as_slice(), tell))
    }

    /// What it has published; its other parts are given back.
    fn into_published(self) -> Published
        ensures book { result.book ≡ self.book }
        ensures list { result.list ≡ self.list }
    {
        let Committer {
            alloc: _,
            channel: _channel,
            workers: _,
            published,
        } = self;
        published
    }

    /// Ends the committer, and answers what was published last: all that it had published, and nothing more. It waits for
    /// queries that have begun, and its handles get no entry from then on; no clause says either.
    pub fn close<R: Wait>(self, rt: &R) -> Front
        ensures { result ≡ record { book = self.book; list = self.list } }
    {
        self.into_published().close(rt)
    }

    /// Ends the committer as [`Committer::close`] does, but doesn't give back the memory of the ledger: for a process that ends
    /// now, whose memory goes back at once.
    pub fn leak<R: Wait>(self, rt: &R) -> Front
        ensures { result ≡ record { book = self.book; list = self.list } }
    {
        self.into_published().leak(rt)
    }
}

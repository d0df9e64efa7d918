//! What a committer has published, which it checks the next block against.
ghost use Rattle.std.specs.Prelude.{◌≡◌, ◌<◌, ◌↔◌, [], false, length, Err, IfOk};
ghost use Rattle.std.specs.List.{All};
ghost use Rattle.query.specs.Limits.{max_readers};
ghost use Rattle.query.specs.Published.{published_world};
ghost use Rattle.query.specs.declared.opening.OpenFault.TheVariants as open_fault;
ghost use Rattle.rules.specs.World.{empty_world};
ghost use Rattle.commit.specs.Prepared.{IsTakenIn, MayWait};
ghost use Rattle.commit.specs.Running.{BelongsTo, SubmitsTo};

use crate::block_bytes::BlockBytes;
use crate::by_workers::{next_delta, take_in_next};
use crate::context::Context;
use crate::hashing::hashed;
use crate::not_committed::NotCommitted;
use gates::Gate;
use next_block::Prepared;
use policy::Definitions;
use policy_eval::Verify;
use query::{Front, MAX_READERS, PublishFault, Publisher, QueryHandle, Receipt};
use rules::Refused;
use std::alloc::Global;
use std::marker::Model;
use std::sync::Wait;
use std::thread::Threads;
use world::World;

/// What was committed. A contract sees what is published.
pub(crate) struct Published {
    publisher: Publisher,
    gathered: u32,
}

impl Model for Published {
    ghost use Rattle.query.specs.Published.{Publishing};
    ghost use Rattle.query.specs.Code.{publishing_code};

    ghost Value = { Publishing };

    ghost coded = { publishing_code };

    ghost view = { λ p. p.publisher };
}

impl Published {
    /// Nothing yet, of a channel with these definitions, with so many handles. Copies the definitions.
    pub(crate) fn open<R: Wait>(
        alloc: Global,
        rt: &R,
        definitions: Definitions,
        readers: usize,
    ) -> Result<(Published, Vec<QueryHandle>), query::OpenFault>
        ensures published { IfOk result (λ r. (r.0.base ≡ empty_world definitions) × (r.0.list ≡ []) × (r.0.failed ≡ false)) }
        ensures count { IfOk result (λ r. length r.1.items ≡ readers) }
        ensures handles { IfOk result (λ r. All (λ h. h ≡ record { book = r.0.book; base = empty_world definitions; list = [] }) r.1.items) }
        ensures readers { (result ≡ Err open_fault.Readers) ↔ (max_readers < readers) }
    {
        if MAX_READERS < readers {
            return Err(query::OpenFault::Readers);
        }
        let Ok(copied) = definitions.copy(alloc) else {
            return Err(query::OpenFault::Memory);
        };
        let first = World::new(alloc, copied);
        let second = World::new(alloc, definitions);
        let (publisher, handles) = query::open(alloc, rt, first, second, readers)?;
        let published = Published {
            publisher,
            gathered: 0,
        };
        Ok((published, handles))
    }

    pub(crate) fn gathered(&self) -> u32 {
        self.gathered
    }

    pub(crate) fn world(&self) -> &World
        ensures { result.now ≡ published_world self.now }
    {
        self.publisher.published()
    }

    pub(crate) fn has_stopped(&self) -> bool
        ensures { result ≡ self.now.failed }
    {
        self.publisher.failed()
    }

    /// Takes the next block in by workers, unless its place tells already that it is another one.
    pub(crate) fn take_in_next<'b, R: Threads + Sync, V: Verify + Sync, G: Gate + Sync>(
        &self,
        context: &Context<'_, R, V, G>,
        bytes: &BlockBytes<'b>,
    ) -> Result<Prepared<'b>, Refused>
        requires { self.now.failed ≡ false }
        ensures { IsTakenIn context.now.channel.now (V.accepts context.now.verifier.now) (published_world self.now) bytes.now result }
    {
        take_in_next(context, self.publisher.published(), bytes)
    }

    /// The next block, where it was taken in ahead. Where it wasn't, it is taken in now.
    pub(crate) fn prepared<'b, R: Threads + Sync, V: Verify + Sync, G: Gate + Sync>(
        &self,
        context: &Context<'_, R, V, G>,
        bytes: &BlockBytes<'b>,
        ahead: Option<Result<Prepared<'b>, Refused>>,
    ) -> Result<Prepared<'b>, Refused>
        requires { MayWait context.now.channel.now (V.accepts context.now.verifier.now) (published_world self.now) bytes.now ahead }
        ensures { IsTakenIn context.now.channel.now (V.accepts context.now.verifier.now) (published_world self.now) bytes.now result }
    {
        match ahead {
            Some(prepared) => prepared,
            None if self.publisher.failed() => Err(Refused::Memory),
            None => self.take_in_next(context, bytes),
        }
    }

    /// Commits and publishes the block that was taken in, or refuses it and publishes nothing. Where memory is refused
    /// while it is published, nothing more is from then on.
    pub(crate) fn commit<R: Threads + Wait + Sync, V: Verify, G: Gate + Sync>(
        &mut self,
        context: &Context<'_, R, V, G>,
        bytes: &BlockBytes<'_>,
        prepared: Result<Prepared<'_>, Refused>,
    ) -> Result<Receipt, NotCommitted>
        requires taken { IsTakenIn context.now.channel.now (V.accepts context.now.verifier.now) (published_world self.old) bytes.now prepared }
        requires belongs { BelongsTo context.now.channel.now self.old }
        ensures submits { SubmitsTo context.now.channel.now (V.accepts context.now.verifier.now) self.old bytes.now result self.new }
        ensures belongs { BelongsTo context.now.channel.now self.new }
    {
        if self.publisher.failed() {
            return Err(NotCommitted::Stopped);
        }
        let mut spent = None;
        let (pending, gathered) = next_delta(
            context,
            self.publisher.published(),
            bytes,
            prepared?,
            &mut spent,
        )?;
        let Ok(delta) = hashed(context, &mut self.publisher, pending, spent) else {
            return Err(NotCommitted::Refused(Refused::Memory));
        };
        match self.publisher.publish_ready(context.rt, delta) {
            Ok(receipt) => {
                self.gathered = gathered;
                Ok(receipt)
            }
            Err(PublishFault::Memory) => Err(NotCommitted::Refused(Refused::Memory)),
            Err(PublishFault::Failed) => Err(NotCommitted::MemoryInCommit),
        }
    }

    /// Takes it apart: what was gathered is for the next block, and none comes.
    fn into_publisher(self) -> Publisher
        ensures { result ≡ self }
    {
        let Published {
            publisher,
            gathered: _,
        } = self;
        publisher
    }

    /// Ends it as [`Publisher::close`] does, and answers what was published last.
    pub(crate) fn close<R: Wait>(self, rt: &R) -> Front
        ensures { result ≡ record { book = self.book; list = self.list } }
    {
        self.into_publisher().close(rt)
    }

    /// Ends it as [`Publisher::leak`] does, and answers what was published last.
    pub(crate) fn leak<R: Wait>(self, rt: &R) -> Front
        ensures { result ≡ record { book = self.book; list = self.list } }
    {
        self.into_publisher().leak(rt)
    }
}

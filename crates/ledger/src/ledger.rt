ghost use Rattle.std.specs.Prelude.{◌≡◌, ℕ, List, IfOk, IfErr, OnOk, OnErr, MatchResult};
ghost use Rattle.rules.specs.declared.answer.Refused.TheVariants.{Memory};
ghost use Rattle.rules.specs.World.{empty_world};
ghost use Rattle.rules.specs.Delta.{applied};
ghost use Rattle.rules.specs.Linked.{IsRefused};
ghost use Rattle.rules.specs.Names.{HasNamesOf};
ghost use Rattle.rules.specs.Step.{Step};
ghost use Rattle.rules.specs.Chain.{Chain};
ghost use Rattle.first_version.specs.AsBefore.{StepsAsBefore};
ghost use Rattle.next_block.specs.NextDelta.{IsNextDelta, answer_to};
ghost use Rattle.ledger.specs.NextReasons.{AreNextReasons};
ghost use Rattle.ledger.specs.Prepared.{IsPreparedIn};
ghost use Rattle.policy_eval.specs.Accepts.{Accepts};
ghost use Rattle.next_block.specs.Prepared.{IsPrepared};
ghost use Rattle.next_block.specs.Submissions.{submissions};

use crate::explaining::next_reasons;
use crate::serial::{next_delta, prepared_delta};
use channel::{Channel, Configuration};
use first_version::first_version_steps_as_before;
use next_block::Prepared;
use policy_eval::Verify;
use reasons::Reason;
use rules::{Accepted, CommittedBlock, Delta, Refused};
use std::alloc::{AllocError, Global};
use std::marker::Model;
use values::{Bytes, Items};
use world::{ReadyDelta, World};

/// The ledger of one channel, which takes blocks one by one, on one thread. A contract sees its channel and its
/// world.
#[derive(Drop)]
pub struct Ledger {
    alloc: Global,
    channel: Configuration,
    world: World,
}

impl Model for Ledger {
    ghost use Rattle.std.specs.Coded.{codes};
    ghost use Rattle.policy.specs.Policies.{policies_code};
    ghost use Rattle.policy.specs.Tree.{tree_code};
    ghost use Rattle.rules.specs.Code.{world_code};
    ghost use Rattle.rules.specs.Names.{HasNamesOf};
    ghost use Rattle.ledger.specs.Contents.{Contents};

    ghost Value = { Contents };

    ghost coded = { Prim.hlevel (codes, tree_code, policies_code, world_code) };

    ghost view = { λ l. record { channel = l.channel; world = l.world } };

    // so that what was taken in by the channel serves any world that comes
    ghost invariant = { λ l. HasNamesOf l.channel l.world };
}

/// What is answered to the block of this number.
fn accepted(alloc: Global, number: u64, block: &CommittedBlock) -> Result<Accepted, AllocError>
    ensures { IfOk result (λ a. a ≡ record { number = number; header_hash = block.now.header_hash; commit_hash = block.now.commit_hash; flags = block.now.flags }) }
{
    Ok(Accepted {
        number,
        header_hash: block.header_hash,
        commit_hash: block.commit_hash,
        flags: block.flags.copy(alloc)?,
    })
}

impl Ledger {
    /// The ledger of height 0. Takes no memory.
    pub fn open(alloc: Global, channel: Channel) -> Ledger
        ensures channel { result.channel ≡ channel }
        ensures world { result.world ≡ empty_world channel.definitions }
    {
        let (channel, definitions) = channel.into_parts();
        Ledger {
            alloc,
            channel,
            world: World::new(alloc, definitions),
        }
    }

    /// Its channel, of which the same chaincodes have a policy in the ledger.
    pub fn channel(&self) -> &Configuration
        ensures channel { result.now ≡ self.now.channel }
        ensures names { HasNamesOf self.now.channel self.now.world }
    {
        &self.channel
    }

    /// What the ledger holds, in constant time.
    pub fn view(&self) -> &World
        ensures { result.now ≡ self.now.world }
    {
        &self.world
    }

    /// What the block of these bytes would change, or why it would be refused. Changes nothing itself. Costs what
    /// `submit_one` does, but for what that adds to the ledger.
    pub fn delta<V: Verify>(&self, bytes: &[u8], verifier: &V) -> Result<Delta, Refused>
        ensures { MatchResult result (IsNextDelta self.now.channel (V.accepts verifier.now) self.now.world bytes.now) (IsRefused self.now.world bytes.now) }
    {
        let ready = next_delta(self.alloc, &self.channel, &self.world, bytes, verifier)?;
        Ok(ready.into_delta())
    }

    /// Why each transaction of the block of these bytes would have its flag, in block order, or why the block would be
    /// refused. Changes nothing. Costs what `delta` does without making one, and besides what its reasons cost.
    pub fn explain<V: Verify>(&self, bytes: &[u8], verifier: &V) -> Result<Items<Reason>, Refused>
        ensures { MatchResult result (AreNextReasons self.now.channel (V.accepts verifier.now) self.now.world bytes.now) (IsRefused self.now.world bytes.now) }
    {
        next_reasons(self.alloc, &self.channel, &self.world, bytes, verifier)
    }

    /// Takes the bytes of the next block: accepts them, or refuses them and changes nothing.
    ///
    /// Linear in the block, with a logarithm of its keys and of the rows of the state: its bytes are hashed, the
    /// signatures of its creators and endorsers verified, the keys that it writes sorted, each that it reads or writes
    /// looked up. A read costs besides a step for each earlier transaction of the block that operates on its key, up to
    /// the first valid one that decides; a range the rows and written keys in its bounds. Memory for the block and what it
    /// changes, and for what it adds to the ledger.
    pub fn submit_one<V: Verify>(&mut self, bytes: &[u8], verifier: &V) -> Result<Accepted, Refused>
        ensures step { Step self.old.channel (V.accepts verifier.now) self.old.world bytes.now result self.new.world }
        ensures first_version { StepsAsBefore self.old.channel (V.accepts verifier.now) self.old.world bytes.now result self.new.world }
        ensures channel { self.new.channel ≡ self.old.channel }
    {
        first_version_steps_as_before();
        let delta = next_delta(self.alloc, &self.channel, &self.world, bytes, verifier)?;
        self.apply(delta)
    }

    /// Takes a block that was prepared for this channel: accepts it, or refuses it and changes nothing, as `submit_one`
    /// does with its bytes and its verifier.
    ///
    /// What is left to do is what needs the ledger: its ids are looked up and the rows of the keys that it writes and
    /// reads, its endorsements and reads are checked, and what it changes is hashed and added. Costs and memory are those
    /// of `submit_one` for these steps.
    pub fn submit_prepared(&mut self, prepared: Prepared<'_>) -> Result<Accepted, Refused>
        requires { ∥ IsPreparedIn self.old.channel prepared ∥₁ }
        ensures step { (accepts : Accepts) (bytes : List ℕ) → IsPrepared self.old.channel accepts bytes prepared.entry
            → Step self.old.channel accepts self.old.world bytes result self.new.world }
        ensures channel { self.new.channel ≡ self.old.channel }
    {
        let delta = prepared_delta(self.alloc, &self.channel, &self.world, prepared)?;
        self.apply(delta)
    }

    /// Applies the delta of the next block, and answers to that block. An `Err` has changed nothing.
    fn apply(&mut self, delta: ReadyDelta) -> Result<Accepted, Refused>
        requires { HasNamesOf self.old.channel (applied self.old.world delta) }
        ensures accepted { IfOk result (λ a. a ≡ answer_to self.old.world delta) }
        ensures applied { OnOk result (self.new ≡ record self.old { world = applied self.old.world delta }) }
        ensures refused { IfErr result (λ refused. refused ≡ Memory) }
        ensures err { OnErr result (self.new ≡ self.old) }
    {
        let accepted = accepted(self.alloc, self.world.height(), delta.delta().block.get())?;
        if self.world.apply_or_return(delta).is_err() {
            return Err(Refused::Memory);
        }
        Ok(accepted)
    }

    /// Takes the bytes of blocks one after the other, each as `submit_one` does, and answers to all.
    /// An `Err` means that no block was handed in.
    pub fn submit_all<V: Verify>(
        &mut self,
        blocks: &[Bytes],
        verifier: &V,
    ) -> Result<Items<Result<Accepted, Refused>>, AllocError>
        ensures chain { IfOk result (λ answers.
            Chain self.old.channel self.old.world (submissions (V.accepts verifier.now) blocks.now) answers self.new.world) }
        ensures channel { self.new.channel ≡ self.old.channel }
        ensures err { OnErr result (self.new ≡ self.old) }
    {
        let mut answers = Vec::with_capacity(self.alloc, blocks.len())?;
        for bytes in blocks {
            answers.push_reserved(self.submit_one(bytes.as_slice(), verifier));
        }
        Ok(Items::from_vec(answers))
    }
}

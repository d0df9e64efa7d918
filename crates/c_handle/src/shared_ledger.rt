ghost use Rattle.std.specs.Prelude.{◌≡◌, IfOk, IfSome, IsNone};
ghost use Rattle.rules.specs.World.{empty_world};
ghost use Rattle.rules.specs.Step.{Step};

use channel::Channel;
use ledger::Ledger;
use policy_eval::Verify;
use rules::{Accepted, Refused};
use std::alloc::{AllocError, Global};
use std::marker::Model;
use std::sync::Arc;

/// A ledger with several owners, in any threads: each may query it, and it takes a block only while it has one. A
/// contract sees the ledger.
#[derive(Drop)]
pub struct SharedLedger {
    ledger: Arc<Ledger>,
}

impl Model for SharedLedger {
    ghost use Rattle.std.specs.Arc.{arc_value};
    ghost use Rattle.std.specs.Coded.{codes};
    ghost use Rattle.policy.specs.Policies.{policies_code};
    ghost use Rattle.policy.specs.Tree.{tree_code};
    ghost use Rattle.rules.specs.Code.{world_code};
    ghost use Rattle.ledger.specs.Contents.{Contents};

    ghost Value = { Contents };

    ghost coded = { Prim.hlevel (codes, tree_code, policies_code, world_code) };

    ghost view = { λ s. arc_value s.ledger };
}

impl SharedLedger {
    /// The ledger of height 0, with its first owner.
    pub fn open(alloc: Global, channel: Channel) -> Result<SharedLedger, AllocError>
        ensures { IfOk result (λ s. (s.channel ≡ channel) × (s.world ≡ empty_world channel.definitions)) }
    {
        let ledger = Ledger::open(alloc, channel);
        Ok(SharedLedger {
            ledger: Arc::new(alloc, ledger)?,
        })
    }

    /// A second owner of this ledger. It takes no memory, and fails only for the 2^63rd owner.
    pub fn share(&self) -> Result<SharedLedger, AllocError>
        ensures { IfOk result (λ s. s ≡ self.now) }
    {
        Ok(SharedLedger {
            ledger: Arc::try_clone(&self.ledger)?,
        })
    }

    /// The ledger, for queries.
    pub fn get(&self) -> &Ledger
        ensures { result.now ≡ self.now }
    {
        &self.ledger
    }

    /// Submits the bytes of the next block. If the ledger has another owner this returns `None` and changes nothing.
    pub fn submit_one<V: Verify>(
        &mut self,
        bytes: &[u8],
        verifier: &V,
    ) -> Option<Result<Accepted, Refused>>
        ensures step { IfSome result (λ answer. Step self.old.channel (V.accepts verifier.now) self.old.world bytes.now answer self.new.world) }
        ensures channel { self.new.channel ≡ self.old.channel }
        ensures none { IsNone result → self.new ≡ self.old }
    {
        match Arc::get_mut(&mut self.ledger) {
            Some(ledger) => Some(ledger.submit_one(bytes, verifier)),
            None => None,
        }
    }
}

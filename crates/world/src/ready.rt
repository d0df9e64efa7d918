ghost use Rattle.std.specs.Prelude.{◌≡◌, IfOk};
ghost use Rattle.rules.specs.State.{State, with_changes};
ghost use Rattle.rules.specs.Delta.{changes_in};
ghost use Rattle.state_db.specs.Batch.{changed};

use crate::room::Room;
use crate::world::World;
use rules::Delta;
use state_db::Batch;
use std::alloc::{AllocError, Global};
use std::marker::Model;

/// A delta, beside it the batch of its changes, which is made once for all worlds that it is applied to. A contract sees the delta.
#[derive(Drop)]
pub struct ReadyDelta {
    delta: Delta,
    batch: Batch,
}

impl Model for ReadyDelta {
    ghost use Rattle.rules.specs.declared.delta.Delta.{Delta};
    ghost use Rattle.world.specs.Code.{delta_code};

    ghost Value = { Delta };

    ghost coded = { delta_code };

    ghost use Rattle.std.specs.Prelude.{◌≡◌};
    ghost use Rattle.rules.specs.State.{State, with_changes};
    ghost use Rattle.rules.specs.Delta.{changes_in};
    ghost use Rattle.state_db.specs.Batch.{changed};

    ghost view = { λ r. r.delta };

    ghost invariant = { λ r. (s : State) → changed s r.batch ≡ with_changes s (changes_in r.delta.changes) };
}

impl ReadyDelta {
    /// The delta with the batch of its changes. Linear in these where they stand in the order of their keys. Takes memory for the batch,
    /// whose rows and keys are the delta's with one owner more.
    pub fn new(alloc: Global, delta: Delta) -> Result<ReadyDelta, AllocError>
        ensures { IfOk result (λ ready. ready ≡ delta) }
    {
        let batch = Batch::of(alloc, delta.changes.as_slice())?;
        Ok(ReadyDelta { delta, batch })
    }

    /// The delta alone.
    pub fn delta(&self) -> &Delta
        ensures { result.now ≡ self.now }
    {
        &self.delta
    }

    /// The room that it takes in a world.
    pub fn room_in(&self, world: &World) -> Room {
        world.room_for(
            self.delta.entries.get().len(),
            self.delta.uses.get().len(),
            &self.batch,
        )
    }

    /// The batch, which makes of each state what the delta's changes make of it.
    pub fn batch(&self) -> &Batch
        ensures { (s : State) → changed s result.now ≡ with_changes s (changes_in self.now.changes) }
    {
        &self.batch
    }

    /// Of a delta and a batch that makes of each state what its changes make of it.
    pub fn of_parts(delta: Delta, batch: Batch) -> ReadyDelta
        requires { (s : State) → changed s batch ≡ with_changes s (changes_in delta.changes) }
        ensures { result ≡ delta }
    {
        ReadyDelta { delta, batch }
    }

    /// The delta, without its batch.
    pub fn into_delta(self) -> Delta
        ensures { result ≡ self }
    {
        self.delta
    }

    pub(crate) fn into_parts(self) -> (Delta, Batch)
        ensures delta { result.0 ≡ self }
        ensures batch { (s : State) → changed s result.1 ≡ with_changes s (changes_in self.changes) }
    {
        (self.delta, self.batch)
    }
}

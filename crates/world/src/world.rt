ghost use Rattle.std.specs.Prelude.{◌≡◌, [], map, IfOk, IfErr, OnOk, OnErr};
ghost use Rattle.std.specs.Option.{option_copied};
ghost use Rattle.rules.specs.State.{State, with_changes};
ghost use Rattle.rules.specs.Delta.{applied, changes_in};
ghost use Rattle.rules.specs.World.{empty_world, height_of, last_header_hash, last_commit_hash, last_version};
ghost use Rattle.rules.specs.Answers.{row_answer, range_answer, history_answer, first_use_answer, block_answer};
ghost use Rattle.state_db.specs.Batch.{changed};
ghost use Rattle.txid_index.specs.Marks.{marks};
ghost use Rattle.world.specs.Applied.{AreBehind, applied_with};

use crate::deltas::{Kept, definitions_with, keep, make_room, share_definitions, share_kept};
use crate::range::{RangeAnswer, up_to};
use crate::ready::ReadyDelta;
use crate::room::Room;
use history_index::{Entries, HistoryIndex};
use policy::Definitions;
use rules::{CommittedBlock, Delta, FirstUse, Row};
use state_db::{Batch, StateDb};
use std::alloc::{AllocError, Global};
use std::marker::Model;
use transaction::{BlockVersion, TxId};
use txid_index::TxIds;
use values::{BoundRef, Hash, KeyRef, NameRef, Shared};

/// What a ledger holds. A contract sees the world of the definitions.
#[derive(Drop)]
pub struct World {
    alloc: Global,
    state: StateDb,
    history: HistoryIndex,
    ids: TxIds,
    // those that it was opened with, and those that blocks have made of them
    opened: Definitions,
    made: Option<Shared<Definitions>>,
    blocks: Vec<Shared<CommittedBlock>>,
}

impl Model for World {
    ghost use Rattle.rules.specs.World as world;
    ghost use Rattle.rules.specs.Code.{world_code};

    ghost Value = { world.World };

    ghost coded = { world_code };

    ghost use Rattle.std.specs.Prelude.{unwrap_or};

    ghost view = { λ w. record { state = w.state.state; history = w.history.history; first_uses = w.ids.uses; definitions = unwrap_or w.made w.opened; blocks = w.blocks.items } };
}

impl World {
    /// The world of height 0, where chaincodes have these policies. Takes no memory.
    pub fn new(alloc: Global, definitions: Definitions) -> World
        ensures { result ≡ empty_world definitions }
    {
        World {
            alloc,
            state: StateDb::new(alloc),
            history: HistoryIndex::new(alloc),
            ids: TxIds::new(alloc),
            opened: definitions,
            made: None,
            blocks: Vec::new(alloc),
        }
    }

    /// The number of accepted blocks. Constant time.
    pub fn height(&self) -> u64
        ensures { result ≡ height_of self.now }
    {
        self.blocks.len() as u64
    }

    /// The header hash of the last block, or none at height 0. Constant time.
    pub fn header_hash(&self) -> Option<Hash>
        ensures { result ≡ last_header_hash self.now }
    {
        match self.blocks.last() {
            None => None,
            Some(block) => Some(block.get().header_hash),
        }
    }

    /// The version of the last block, and 1 at height 0. Constant time.
    pub fn version(&self) -> BlockVersion
        ensures { result ≡ last_version self.now }
    {
        match self.blocks.last() {
            None => BlockVersion::V1,
            Some(block) => block.get().version,
        }
    }

    /// The commit hash of the last block, or none at height 0. Constant time.
    pub fn commit_hash(&self) -> Option<Hash>
        ensures { result ≡ last_commit_hash self.now }
    {
        match self.blocks.last() {
            None => None,
            Some(block) => Some(block.get().commit_hash),
        }
    }

    /// The block of a number, if it was accepted. Constant time.
    pub fn block(&self, number: u64) -> Option<&CommittedBlock>
        ensures { option_copied result ≡ block_answer self.now number }
    {
        match self.blocks.get(number as usize) {
            None => None,
            Some(block) => Some(block.get()),
        }
    }

    /// The policies of chaincodes. Constant time.
    pub fn definitions(&self) -> &Definitions
        ensures { result.now ≡ self.now.definitions }
    {
        match &self.made {
            Some(made) => made.get(),
            None => &self.opened,
        }
    }

    /// The rows in their pages.
    pub fn state(&self) -> &StateDb
        ensures { result.now.state ≡ self.now.state }
    {
        &self.state
    }

    /// What the state has at a key. Logarithmic in the number of rows.
    pub fn row(&self, namespace: &NameRef<'_>, key: &KeyRef<'_>) -> Option<&Row>
        ensures { option_copied result ≡ row_answer self.now (namespace.now, key.now) }
    {
        self.state.get(namespace, key)
    }

    /// The rows of a namespace from a start to before an end, up to a limit; an empty end is no bound. Logarithmic in the
    /// number of rows, and linear, in time and memory, in those that are answered.
    pub fn range<'a>(
        &'a self,
        alloc: Global,
        namespace: &NameRef<'a>,
        start: &BoundRef<'a>,
        end: &BoundRef<'a>,
        limit: usize,
    ) -> Result<RangeAnswer<'a>, AllocError>
        ensures rows { IfOk result (λ answer. map (λ row. row.now) answer.rows.items ≡ (range_answer self.now namespace.now start.now end.now limit).rows) }
        ensures more { IfOk result (λ answer. answer.more ≡ (range_answer self.now namespace.now start.now end.now limit).more) }
    {
        up_to(alloc, self.state.range(namespace, start, end), limit)
    }

    /// Where an id was used first. Constant time.
    pub fn flag_of(&self, id: &TxId) -> Option<FirstUse>
        ensures { result ≡ first_use_answer self.now id.now }
    {
        self.ids.first_use(id)
    }

    /// For each place of a block whether its id was used before: in a block of this ledger, or at an earlier place. One
    /// pass, constant time and memory for a place.
    pub fn mark(&self, alloc: Global, ids: &[Option<TxId>]) -> Result<Vec<bool>, AllocError>
        ensures { IfOk result (λ used. used.items ≡ marks self.now.first_uses [] ids.now) }
    {
        self.ids.mark(alloc, ids)
    }

    /// The value writes and deletes of a key, lent newest first. Constant time, and so is each step but for
    /// keys of the same hash.
    pub fn history<'a>(&'a self, namespace: &NameRef<'a>, key: &KeyRef<'a>) -> Entries<'a>
        ensures { result ≡ history_answer self.now (namespace.now, key.now) }
    {
        self.history.entries(namespace, key)
    }

    /// The room that a delta takes which has so many entries and uses, and these changes. A step for each change, and one pass over
    /// the pages between them.
    pub fn room_for(&self, entries: usize, uses: usize, changes: &Batch) -> Room {
        Room {
            entries,
            uses,
            rows: self.state.room_for(changes),
        }
    }

    /// Makes room, and takes memory for it; what the world holds stays as it is, also at an `Err`. Lists and maps grow seldom, and then
    /// move. Meant for `room_for` a delta: `apply_ready` and `apply_given` of that delta are to find their memory here. Tests show this;
    /// no clause says it.
    pub fn reserve(&mut self, room: Room) -> Result<(), AllocError>
        ensures { self.new ≡ self.old }
    {
        self.history.reserve(room.entries)?;
        self.ids.reserve(room.uses)?;
        self.blocks.reserve(1)?;
        self.state.reserve(room.rows)
    }

    /// The policies of chaincodes behind a delta, for all worlds that have those of this one; none where they don't change. Linear in
    /// all policies, in time and memory, where they do.
    pub fn definitions_behind(
        &self,
        delta: &Delta,
    ) -> Result<Option<Shared<Definitions>>, AllocError>
        ensures { IfOk result (λ made. AreBehind self.now delta.now made) }
    {
        definitions_with(self.alloc, self.definitions(), delta.definitions.as_slice())
    }

    /// Applies what a block changes: all of it or, where memory is refused, nothing. Linear in the delta, each change logarithmic in the
    /// number of rows, whatever the number of blocks; but for lists and maps that grow, which they do seldom, and for the policies of
    /// chaincodes, which are all copied where the delta changes one. Changes in the order of their keys go fastest.
    pub fn apply(&mut self, delta: &Delta) -> Result<(), AllocError>
        ensures ok { OnOk result (self.new ≡ applied self.old delta.now) }
        ensures err { OnErr result (self.new ≡ self.old) }
    {
        let batch = Batch::of(self.alloc, delta.changes.as_slice())?;
        let definitions = self.definitions_behind(delta)?;
        self.apply_lent(delta, &batch, &definitions)
    }

    /// Applies a delta that is given away: all of it or, where memory is refused, nothing, and the delta comes back. No part of it needs
    /// sharing.
    pub fn apply_or_return(&mut self, ready: ReadyDelta) -> Result<(), ReadyDelta>
        ensures ok { OnOk result (self.new ≡ applied self.old ready) }
        ensures err { IfErr result (λ back. (back ≡ ready) × (self.new ≡ self.old)) }
    {
        let Ok(definitions) = self.definitions_behind(ready.delta()) else {
            return Err(ready);
        };
        self.apply_given(ready, &definitions)
    }

    /// Applies a delta whose batch is made, with the policies of chaincodes behind it (`definitions_behind`): all of it or, where memory
    /// is refused, nothing. What it keeps gets one more owner, and nothing is sorted.
    pub fn apply_ready(
        &mut self,
        ready: &ReadyDelta,
        definitions: &Option<Shared<Definitions>>,
    ) -> Result<(), AllocError>
        ensures ok { OnOk result (self.new ≡ applied_with self.old ready.now definitions.now) }
        ensures err { OnErr result (self.new ≡ self.old) }
    {
        self.apply_lent(ready.delta(), ready.batch(), definitions)
    }

    fn apply_lent(
        &mut self,
        delta: &Delta,
        batch: &Batch,
        definitions: &Option<Shared<Definitions>>,
    ) -> Result<(), AllocError>
        requires { (s : State) → changed s batch.now ≡ with_changes s (changes_in delta.now.changes) }
        ensures ok { OnOk result (self.new ≡ applied_with self.old delta.now definitions.now) }
        ensures err { OnErr result (self.new ≡ self.old) }
    {
        // all that may want memory
        make_room(&mut self.history, &mut self.ids, &mut self.blocks, delta)?;
        let kept = share_kept(delta, definitions)?;
        self.state.apply(batch)?;
        // from here on nothing does
        keep(
            &mut self.history,
            &mut self.ids,
            &mut self.made,
            &mut self.blocks,
            kept,
        );
        Ok(())
    }

    /// Applies a delta that is given away, with the policies of chaincodes behind it (`definitions_behind`): all of it or, where memory is
    /// refused, nothing, and the delta comes back.
    pub fn apply_given(
        &mut self,
        ready: ReadyDelta,
        definitions: &Option<Shared<Definitions>>,
    ) -> Result<(), ReadyDelta>
        ensures ok { OnOk result (self.new ≡ applied_with self.old ready definitions.now) }
        ensures err { IfErr result (λ back. (back ≡ ready) × (self.new ≡ self.old)) }
    {
        // all that may want memory
        let Ok(()) = make_room(
            &mut self.history,
            &mut self.ids,
            &mut self.blocks,
            ready.delta(),
        ) else {
            return Err(ready);
        };
        let Ok(definitions) = share_definitions(definitions) else {
            return Err(ready);
        };
        let (delta, batch) = ready.into_parts();
        if let Err(batch) = self.state.apply_or_return(batch) {
            return Err(ReadyDelta::of_parts(delta, batch));
        }
        // from here on nothing does
        let Delta {
            changes: _changes,
            entries,
            uses,
            definitions: _changed,
            block,
        } = delta;
        let kept = Kept {
            entries,
            uses,
            definitions,
            block,
        };
        keep(
            &mut self.history,
            &mut self.ids,
            &mut self.made,
            &mut self.blocks,
            kept,
        );
        Ok(())
    }
}

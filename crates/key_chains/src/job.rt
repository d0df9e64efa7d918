ghost use Rattle.std.specs.Prelude.{◌≡◌, ◌≢◌, ◌<◌, ◌≤◌, ◌+◌, ◌^◌, ℕ, [], Some, length, map, IfOk, IsTrue, MatchOption, slice_get, slice_index, slice_index_or};
ghost use Rattle.std.specs.Option.{option_copied};
ghost use Rattle.std.specs.FinMap.{get};
ghost use Rattle.block.specs.Limits.{max_txs};
ghost use Rattle.rules.specs.CommitBytes.{update_bytes};
ghost use Rattle.rules.specs.Delta.{changes_in};
ghost use Rattle.rules.specs.State.{State, StateKey, is_among, with_changes};
ghost use Rattle.rules.specs.Ranges.{is_within, rows_where};
ghost use Rattle.rules.specs.Job.{candidate_at, flag_by};
ghost use Rattle.key_chains.specs.Job.{IsOpened, IsOpen, IsNoOpenTx, read_by, reads_in, written_by, keys_in, keys_of, keys_where};
ghost use Rattle.rules.specs.Candidate.{flagged};
ghost use Rattle.candidates.specs.Seen.{seen};
ghost use Rattle.key_chains.specs.Operations.{operations};
ghost use Rattle.key_chains.specs.PolicyWriters.{policy_writers};
ghost use Rattle.state_db.specs.Batch.{changed};
ghost use Rattle.state_db.specs.LookedUp.{AreRows};

use crate::block_rows::BlockRows;
use crate::chains::{Chains, newest_on};
use crate::key_writers::KeyWriters;
use crate::links::{Operations, PolicyWriters};
use candidates::{Candidate, OpenTx, StateKey};
use policy::{Definitions, Policy};
use rules::{Change, EarlyFlag, Flag, ReadVerdict, Row};
use state_db::{Batch, Rows, StateDb};
use std::alloc::{AllocError, Global};
use std::marker::Model;
use values::{BoundRef, NameRef};

/// The candidates of one block over the state before it, with the operations on each key that they write. What comes of the block's
/// bytes may outlive the state. A contract sees the job of the rules.
#[derive(Drop)]
pub struct Job<'s, 'b> {
    number: u64,
    state: &'s StateDb,
    definitions: &'s Definitions,
    admin: Option<&'s Policy>,
    candidates: Vec<Candidate<'b>>,
    chains: Chains<'b>,
    read_numbers: Vec<Option<u32>>,
    rows: BlockRows<'s>,
}

impl<'s, 'b> Model for Job<'s, 'b> {
    ghost use Rattle.rules.specs.Job as job;
    ghost use Rattle.key_chains.specs.Code.{job_code};

    ghost Value = { job.Job };

    ghost coded = { job_code };

    ghost use Rattle.std.specs.Prelude.{◌≡◌, ◌≤◌, map, length};
    ghost use Rattle.std.specs.Option.{option_copied};
    ghost use Rattle.block.specs.Limits.{max_txs};
    ghost use Rattle.candidates.specs.Seen.{seen};
    ghost use Rattle.key_chains.specs.Built.{IsBuilt};
    ghost use Rattle.key_chains.specs.Job.{reads_in};
    ghost use Rattle.state_db.specs.LookedUp.{AreRows};

    ghost view = { λ j. record { number = j.number; state = j.state.now.state; definitions = j.definitions.now; admin = option_copied j.admin; candidates = map seen j.candidates.items } };

    ghost invariant = { λ j. ((length j.candidates.items ≤ max_txs) × AreRows j.state.now.state j.chains.keys j.rows.written.rows.items × AreRows j.state.now.state (reads_in (map seen j.candidates.items)) j.rows.read.rows.items) × IsBuilt (map seen j.candidates.items) (length j.candidates.items) (length j.candidates.items) 0 j.chains };
}

/// An item of candidate i, whose items begin at the place that `firsts` has for it.
fn item_of<T: Copy>(items: &[T], firsts: &[usize], i: u32, item: usize) -> T
    requires candidate { i < length firsts.now }
    requires item { slice_index firsts.now i + item < length items.now }
    ensures { (d : T) → result ≡ slice_index_or items.now (slice_index firsts.now i + item) d }
{
    items[firsts[i as usize] + item]
}

impl<'s, 'b> Job<'s, 'b> {
    /// The job of a block's candidates over the state before the block: the key writers of [`KeyWriters::build`], and the rows of
    /// [`BlockRows::find`]. Memory for both; `Err` where it is refused.
    pub fn build(
        alloc: Global,
        number: u64,
        state: &'s StateDb,
        definitions: &'s Definitions,
        admin: Option<&'s Policy>,
        candidates: Vec<Candidate<'b>>,
    ) -> Result<Job<'s, 'b>, AllocError>
        requires { length candidates.items ≤ max_txs }
        ensures { IfOk result (λ j. j ≡ record { number = number; state = state.entry.now.state; definitions = definitions.entry.now; admin = option_copied admin.entry; candidates = map seen candidates.entry.items }) }
    {
        let key_writers = KeyWriters::build(alloc, candidates)?;
        let rows = BlockRows::find(alloc, state, &key_writers)?;
        Ok(Job::of_found(number, state, definitions, admin, key_writers, rows))
    }

    /// The job of candidates whose operations are linked already, with the rows found for the keys that they write and read. Constant
    /// time.
    pub fn of_found(
        number: u64,
        state: &'s StateDb,
        definitions: &'s Definitions,
        admin: Option<&'s Policy>,
        key_writers: KeyWriters<'b>,
        rows: BlockRows<'s>,
    ) -> Job<'s, 'b>
        requires few { length key_writers ≤ max_txs }
        requires written { AreRows state.now.state (keys_in key_writers) rows.written.rows.items }
        requires read { AreRows state.now.state (reads_in key_writers) rows.read.rows.items }
        ensures { result ≡ record { number = number; state = state.entry.now.state; definitions = definitions.entry.now; admin = option_copied admin.entry; candidates = key_writers.entry } }
    {
        let KeyWriters {
            candidates,
            chains,
            read_numbers,
        } = key_writers;
        Job {
            number,
            state,
            definitions,
            admin,
            candidates,
            chains,
            read_numbers,
            rows,
        }
    }

    /// Gives up the state and keeps the candidates with the operations on their keys.
    pub fn into_key_writers(self) -> KeyWriters<'b>
        ensures { result ≡ self.entry.candidates }
    {
        KeyWriters {
            candidates: self.candidates,
            chains: self.chains,
            read_numbers: self.read_numbers,
        }
    }

    /// The block's number.
    pub fn number(&self) -> u64
        ensures { result ≡ self.now.number }
    {
        self.number
    }

    /// How many candidates there are, at most 4,096.
    pub fn len(&self) -> u32
        ensures value { result ≡ length self.now.candidates }
        ensures most { result ≤ max_txs }
    {
        self.candidates.as_slice().len() as u32
    }

    /// The candidate of this place. Its reads can be counted.
    pub fn candidate(&self, i: u32) -> &Candidate<'b>
        requires { i < length self.now.candidates }
        ensures value { seen result.now ≡ candidate_at self.now i }
        ensures reads { length (read_by (candidate_at self.now i)) < 2 ^ 64 }
    {
        &self.candidates[i as usize]
    }

    /// The policy by which definitions are updated, where there is one.
    pub fn admin(&self) -> Option<&'s Policy>
        ensures { option_copied result ≡ self.now.admin }
    {
        self.admin
    }

    /// The transaction of a candidate that is open. Its reads can be counted.
    pub fn open_tx(&self, i: u32) -> Option<&OpenTx<'b>>
        requires { i < length self.now.candidates }
        ensures tx { MatchOption (option_copied result) (IsNoOpenTx self.now i) (λ o. IsOpened self.now i o) }
        ensures reads { length (read_by (candidate_at self.now i)) < 2 ^ 64 }
    {
        match self.candidate(i) {
            Candidate::Flagged(_) => None,
            Candidate::Updates(_) => None,
            Candidate::Opened(open_tx) => Some(open_tx),
        }
    }

    /// The flag of a candidate that is flagged.
    pub fn flagged(&self, i: u32) -> Option<EarlyFlag>
        requires { i < length self.now.candidates }
        ensures { MatchOption result (IsOpen self.now i) (λ flag. candidate_at self.now i ≡ flagged flag) }
    {
        match self.candidate(i) {
            Candidate::Flagged(flag) => Some(*flag),
            Candidate::Opened(_) => None,
            Candidate::Updates(_) => None,
        }
    }

    /// The flag of a candidate whose checks say this. One that is flagged has its flag whatever they say, and where the
    /// endorsement rule fails the reads don't count.
    pub fn flag(&self, i: u32, is_endorsed: bool, reads: ReadVerdict) -> Flag
        requires { i < length self.now.candidates }
        ensures { result ≡ flag_by (candidate_at self.now i) is_endorsed reads }
    {
        self.candidates[i as usize].flag(is_endorsed, reads)
    }

    /// The row of a key before the block. Logarithmic in the number of rows.
    pub fn row(&self, key: &StateKey<'_>) -> Option<&'s Row>
        ensures { option_copied result ≡ get self.now.state key.now }
    {
        self.state.row(key)
    }

    /// The row before the block of the key of this number among those that the block writes. Constant time.
    pub fn row_of(&self, number: u32) -> Option<&'s Row>
        requires { number < length (keys_of self.now) }
        ensures { (k : StateKey) → slice_get (keys_of self.now) number ≡ Some k → option_copied result ≡ get self.now.state k }
    {
        self.rows.written.rows[number as usize]
    }

    /// The row before the block of the key of one of a candidate's reads, which are counted through all its namespaces. Constant time.
    pub fn row_of_read(&self, i: u32, read: usize) -> Option<&'s Row>
        requires { read < length (read_by (candidate_at self.now i)) }
        ensures { (k : StateKey) → slice_get (read_by (candidate_at self.now i)) read ≡ Some k → option_copied result ≡ get self.now.state k }
    {
        let rows = &self.rows.read.rows;
        let firsts = &self.chains.first_reads;
        item_of(rows.as_slice(), firsts.as_slice(), i, read)
    }

    /// The rows of a namespace before the block, from a start to before an end, an empty end being no bound.
    pub fn rows_between<'r>(
        &'r self,
        namespace: &NameRef<'r>,
        start: &BoundRef<'r>,
        end: &BoundRef<'r>,
    ) -> Rows<'r>
        ensures { result ≡ rows_where self.now.state namespace.now (is_within start.now end.now) }
    {
        self.state.range(namespace, start, end)
    }

    /// The batch of these changes; a key that the block writes is sought where it was found before. Memory for the batch.
    pub fn batch_of(&self, alloc: Global, changes: &[Change]) -> Result<Batch, AllocError>
        ensures { IfOk result (λ batch. (s : State) → changed s batch ≡ with_changes s (changes_in changes.now)) }
    {
        Batch::of_looked_up(
            alloc,
            changes,
            self.chains.keys.as_slice(),
            &self.rows.written,
        )
    }

    /// The rows that a batch would make differ from those before the block, spelled (`StateDb::update_bytes`). A change of a key that
    /// the block writes needs no look-up.
    pub fn update_bytes(&self, batch: &Batch) -> Result<Vec<u8>, AllocError>
        ensures { IfOk result (λ bytes. bytes.items ≡ update_bytes self.now.state (changed self.now.state batch.now)) }
    {
        self.state
            .update_bytes(batch, self.chains.keys.as_slice(), &self.rows.written)
    }

    /// The policy of a chaincode before the block, where it has a definition.
    pub fn definition(&self, namespace: &NameRef<'_>) -> Option<&'s Policy>
        ensures { option_copied result ≡ get self.now.definitions namespace.now }
    {
        self.definitions.of(namespace)
    }

    /// The operations on a key before candidate i, the newest first. A search for the key, and a walk over newer operations.
    pub fn operations_before(&self, i: u32, key: &StateKey<'_>) -> Operations<'_>
        ensures { result ≡ operations self.now.candidates key.now i }
    {
        let operations = &self.chains.operations;
        let newest = newest_on(&self.chains.keys, operations, key);
        operations.chain(newest).before(i)
    }

    /// The operations before candidate i on the key of one of its reads, which are counted through all its namespaces.
    /// Constant time.
    pub fn operations_on_read(&self, i: u32, read: usize) -> Operations<'_>
        requires { read < length (read_by (candidate_at self.now i)) }
        ensures { (k : StateKey) → slice_get (read_by (candidate_at self.now i)) read ≡ Some k → result ≡ operations self.now.candidates k i }
    {
        let chains = &self.chains;
        let link = item_of(
            chains.reads.as_slice(),
            chains.first_reads.as_slice(),
            i,
            read,
        );
        chains.operations.chain(link)
    }

    /// The candidates before i that write the policy of one of the keys that candidate i writes. Constant time.
    pub fn policy_writers(&self, i: u32, written: usize) -> PolicyWriters<'_>
        requires { written < length (written_by (candidate_at self.now i)) }
        ensures { (k : StateKey) → slice_get (written_by (candidate_at self.now i)) written ≡ Some k → result ≡ policy_writers self.now.candidates k i }
    {
        let chains = &self.chains;
        let written = item_of(
            chains.written.as_slice(),
            chains.first_written.as_slice(),
            i,
            written,
        );
        chains.policy_writers.chain(written.policy_writers)
    }

    /// The candidates of the whole block that write the policy of a key, the newest first. A search for the key.
    pub fn policy_writers_of(&self, key: &StateKey<'_>) -> PolicyWriters<'_>
        ensures { result ≡ policy_writers self.now.candidates key.now (length self.now.candidates) }
    {
        let writers = &self.chains.policy_writers;
        writers.chain(newest_on(&self.chains.keys, writers, key))
    }

    /// The keys of a namespace that the block writes, from a start to before an end, an empty end being no bound. Logarithmic.
    pub fn keys_between(
        &self,
        namespace: &NameRef<'_>,
        start: &BoundRef<'_>,
        end: &BoundRef<'_>,
    ) -> &[StateKey<'b>]
        ensures keys { result.now ≡ keys_where (keys_of self.now) namespace.now (is_within start.now end.now) }
        ensures operated { (k : StateKey) (i : ℕ) → k.0 ≡ namespace.now → IsTrue (is_within start.now end.now k.1) → operations self.now.candidates k i ≢ [] → IsTrue (is_among k result.now) }
    {
        self.chains.keys.between(namespace, start, end)
    }

    /// The keys that the block writes, in their order.
    pub fn keys(&self) -> &[StateKey<'b>]
        ensures { result.now ≡ keys_of self.now }
    {
        self.chains.keys.as_slice()
    }

    /// The place, among the keys that the block writes, of one of the keys that candidate i writes. Constant time.
    pub fn key_number_of(&self, i: u32, written: usize) -> u32
        requires { written < length (written_by (candidate_at self.now i)) }
        ensures { (k : StateKey) → slice_get (written_by (candidate_at self.now i)) written ≡ Some k → slice_get (keys_of self.now) result ≡ Some k }
    {
        let chains = &self.chains;
        let written = item_of(
            chains.written.as_slice(),
            chains.first_written.as_slice(),
            i,
            written,
        );
        written.number
    }
}

//! Who writes each key of a block.
ghost use Rattle.std.specs.Prelude.{◌≡◌, ◌≢◌, ◌<◌, ◌^◌, true, ◌++◌, ◌∷◌, ℕ, suc, List, All, length, map, flat_map, is_some, IsSome, IfOk, OnOk, if◌then◌else◌};
ghost use Rattle.key_chains.specs.Job.{read_keys, written_by};
ghost use Rattle.key_chains.specs.Linked.{chain_in, list_of, IsLink, LinksStay};
ghost use Rattle.key_chains.specs.Numbers.{number_in};
ghost use Rattle.key_chains.specs.Operations.{kind_of, candidate_in};
ghost use Rattle.rules.specs.State.{StateKey, is_among};
ghost use Rattle.key_chains.specs.Building.{block_keys, list_at};
ghost use Rattle.key_chains.specs.Built.{IsNext, AreNext, IsBuilt, IsWhole};
ghost use Rattle.rules.specs.Candidate as seen_by_rules;
ghost use Rattle.candidates.specs.Seen.{seen};

use crate::links::KeyLists;
use crate::numbering::Numbering;
use crate::operation::{Kind, Operation};
use crate::room::Room;
use candidates::{Candidate, StateKey, WrittenKey};
use std::alloc::{AllocError, Global};
use transaction::{NsSet, Tx};

/// A key that a candidate writes: its number, and the newest candidate before it that writes the key's policy.
#[derive(Clone, Copy)]
pub(crate) struct Written {
    pub number: u32,
    pub policy_writers: Option<u32>,
}

/// The keys that a block writes with their lists, and for each candidate where its reads and the keys that it writes
/// lead.
#[derive(Drop)]
pub(crate) struct Chains<'a> {
    pub keys: Numbering<'a>,
    pub operations: KeyLists<Operation>,
    pub policy_writers: KeyLists<u32>,
    /// The key of each read of each candidate.
    pub read_keys: Vec<StateKey<'a>>,
    /// The newest operation on it before its candidate.
    pub reads: Vec<Option<u32>>,
    pub first_reads: Vec<usize>,
    /// The keys that each candidate writes.
    pub written: Vec<Written>,
    pub first_written: Vec<usize>,
}

/// A key, looked up: its number, if somebody writes it, and the entry that its list begins with now.
#[derive(Clone, Copy)]
struct LookedUp {
    number: Option<u32>,
    newest: Option<u32>,
}

fn looked_up<T: Copy>(keys: &Numbering<'_>, lists: &KeyLists<T>, key: &StateKey<'_>) -> LookedUp
    requires { length lists.now.1 ≡ length keys.now }
    ensures link { IsLink lists.now.0 result.newest }
    ensures list { chain_in lists.now.0 result.newest ≡ list_at keys.now lists.now key.now }
{
    let number = keys.number(key);
    let newest = match number {
        None => None,
        Some(number) => lists.newest(number),
    };
    LookedUp { number, newest }
}

/// The entry that the list of a key begins with now, none where nobody writes the key.
pub(crate) fn newest_on<T: Copy>(
    keys: &Numbering<'_>,
    lists: &KeyLists<T>,
    key: &StateKey<'_>,
) -> Option<u32>
    requires { length lists.now.1 ≡ length keys.now }
    ensures link { IsLink lists.now.0 result }
    ensures list { chain_in lists.now.0 result ≡ list_at keys.now lists.now key.now }
{
    looked_up(keys, lists, key).newest
}

/// The keys that are read in one namespace.
fn add_read_keys_in<'a>(keys: &mut Vec<StateKey<'a>>, set: &NsSet<'a>) -> Result<(), AllocError>
    ensures { OnOk result (keys.new.items ≡ keys.old.items ++ map (λ r. (set.now.name, r.key)) set.now.reads) }
{
    for read in set.reads.as_slice() {
        keys.push(StateKey::new(&set.name, &read.key))?;
    }
    Ok(())
}

/// Those that a transaction reads.
fn add_read_keys<'a>(keys: &mut Vec<StateKey<'a>>, tx: &Tx<'a>) -> Result<(), AllocError>
    ensures { OnOk result (keys.new.items ≡ keys.old.items ++ read_keys tx.now) }
{
    for set in tx.namespaces.as_slice() {
        add_read_keys_in(keys, set)?;
    }
    Ok(())
}

/// Links of reads of these keys, and the number of each that somebody writes.
fn link_reads(
    links: &mut Vec<Option<u32>>,
    numbers: &mut Vec<Option<u32>>,
    keys: &Numbering<'_>,
    operations: &KeyLists<Operation>,
    read: &[StateKey<'_>],
) -> Result<(), AllocError>
    requires { length operations.now.1 ≡ length keys.now }
    ensures lists { OnOk result (map (chain_in operations.now.0) links.new.items ≡ map (chain_in operations.now.0) links.old.items ++ map (list_at keys.now operations.now) read.now) }
    ensures links { OnOk result (All (IsLink operations.now.0) links.old.items → All (IsLink operations.now.0) links.new.items) }
{
    for key in read {
        let found = looked_up(keys, operations, key);
        links.push(found.newest)?;
        numbers.push(found.number)?;
    }
    Ok(())
}

/// The keys that candidates write, each as often as it is written.
fn written_keys<'a>(
    alloc: Global,
    candidates: &[Candidate<'a>],
    room: Room,
) -> Result<Vec<StateKey<'a>>, AllocError>
    ensures { IfOk result (λ keys. keys.items ≡ flat_map written_by (map seen candidates.now)) }
{
    let mut keys = Vec::with_capacity(alloc, room.written)?;
    for candidate in candidates {
        add_written_keys(&mut keys, candidate)?;
    }
    Ok(keys)
}

fn add_written_keys<'a>(
    keys: &mut Vec<StateKey<'a>>,
    candidate: &Candidate<'a>,
) -> Result<(), AllocError>
    ensures { OnOk result (keys.new.items ≡ keys.old.items ++ written_by (seen candidate.now)) }
{
    match candidate {
        Candidate::Flagged(_) => Ok(()),
        Candidate::Updates(_) => Ok(()),
        Candidate::Opened(open_tx) => add_keys(keys, open_tx.written.as_slice()),
    }
}

fn add_keys<'a>(keys: &mut Vec<StateKey<'a>>, written: &[WrittenKey<'a>]) -> Result<(), AllocError>
    ensures { OnOk result (keys.new.items ≡ keys.old.items ++ map (λ w. w.key) written.now) }
{
    for one in written {
        keys.push(one.key.reborrow())?;
    }
    Ok(())
}

/// Whether the key's value is written, deleted or left.
fn kind_of(written: &WrittenKey<'_>) -> Kind
    ensures { result ≡ kind_of written.now.value }
{
    match &written.value {
        Some(Some(_)) => Kind::Value,
        Some(None) => Kind::Delete,
        None => Kind::Policy,
    }
}

/// Whether there is no number, or one below another.
fn is_passed(number: Option<u32>, least: u32) -> bool {
    match number {
        None => true,
        Some(number) => number < least,
    }
}

/// The place of the first number, from a place on, that isn't below one. No clause speaks of it: what is there is a
/// guess.
fn passed(numbers: &[Option<u32>], from: usize, least: u32) -> usize {
    let mut at = from;
    while at < numbers.len() && is_passed(numbers[at], least) {
        at += 1;
    }
    at
}

/// The numbers from a place on.
fn numbers_from(numbers: &[Option<u32>], from: usize) -> &[Option<u32>] {
    let (_, rest) = numbers.split_at(from.min(numbers.len()));
    rest
}

/// The candidate writes the policy of the key, if it does.
fn add_policy_writer(
    lists: &mut KeyLists<u32>,
    number: u32,
    i: u32,
    written: &WrittenKey<'_>,
) -> Result<(), AllocError>
    requires { number < length lists.old.1 }
    ensures key { OnOk result (list_of lists.new number ≡ (if is_some written.now.policy then i ∷ list_of lists.old number else list_of lists.old number)) }
    ensures others { OnOk result ((k : ℕ) → k ≢ number → list_of lists.new k ≡ list_of lists.old k) }
    ensures links { OnOk result (LinksStay lists.old lists.new) }
    ensures count { OnOk result (length lists.new.1 ≡ length lists.old.1) }
{
    if written.policy.is_some() {
        lists.push(number, i)?;
    }
    Ok(())
}

impl<'a> Chains<'a> {
    fn with_room(alloc: Global, keys: Numbering<'a>, room: Room) -> Result<Chains<'a>, AllocError>
        ensures { IfOk result (λ c. (cs : List seen_by_rules.Candidate) → keys.entry ≡ block_keys cs → IsBuilt cs 0 0 0 c) }
    {
        let count = keys.as_slice().len();
        Ok(Chains {
            keys,
            operations: KeyLists::with_capacity(alloc, count, room.written)?,
            policy_writers: KeyLists::with_capacity(alloc, count, 0)?,
            read_keys: Vec::with_capacity(alloc, room.reads)?,
            reads: Vec::with_capacity(alloc, room.reads)?,
            first_reads: Vec::with_capacity(alloc, room.candidates)?,
            written: Vec::with_capacity(alloc, room.written)?,
            first_written: Vec::with_capacity(alloc, room.candidates)?,
        })
    }

    /// One key more that candidate i writes, whose number may be guessed. Returns the number.
    fn add_key(
        &mut self,
        i: u32,
        written: &WrittenKey<'_>,
        guess: Option<u32>,
    ) -> Result<u32, AllocError>
        requires number { IsSome (number_in self.old.keys written.now.key) }
        requires whole { IsWhole self.old }
        ensures built { OnOk result ((cs : List seen_by_rules.Candidate) (p : ℕ) → IsNext cs i p written.now → IsBuilt cs i (suc i) p self.old → IsBuilt cs i (suc i) (suc p) self.new) }
        ensures keys { OnOk result (self.new.keys ≡ self.old.keys) }
        ensures whole { OnOk result (IsWhole self.new) }
    {
        let Some(number) = self.keys.number_by(guess, &written.key) else {
            unreachable!()
        };
        let policy_writers = self.policy_writers.newest(number);
        self.written.push(Written {
            number,
            policy_writers,
        })?;
        let operation = Operation {
            tx: i,
            kind: kind_of(written),
        };
        self.operations.push(number, operation)?;
        add_policy_writer(&mut self.policy_writers, number, i, written)?;
        Ok(number)
    }

    /// The keys that candidate i writes. It often reads them too: the numbers of keys that it reads are guesses.
    fn add_written(
        &mut self,
        i: u32,
        written: &[WrittenKey<'_>],
        guesses: &[Option<u32>],
    ) -> Result<(), AllocError>
        requires numbers { All (λ w. IsSome (number_in self.old.keys w.key)) written.now }
        requires whole { IsWhole self.old }
        ensures built { OnOk result ((cs : List seen_by_rules.Candidate) → AreNext cs i written.now → IsBuilt cs i (suc i) 0 self.old → IsBuilt cs i (suc i) (length written.now) self.new) }
        ensures keys { OnOk result (self.new.keys ≡ self.old.keys) }
        ensures whole { OnOk result (IsWhole self.new) }
    {
        let mut at = passed(guesses, 0, 0);
        for one in written {
            let guess = guesses.get(at).copied().flatten();
            let number = self.add_key(i, one, guess)?;
            // mostly keys are in their order
            at = passed(guesses, at, number.saturating_add(1));
        }
        Ok(())
    }

    /// One candidate more. The list gets the number of each key that it reads.
    fn add(
        &mut self,
        i: u32,
        candidate: &Candidate<'a>,
        numbers: &mut Vec<Option<u32>>,
    ) -> Result<(), AllocError>
        requires numbers { (k : StateKey) → is_among k (written_by (seen candidate.now)) ≡ true → IsSome (number_in self.old.keys k) }
        requires whole { IsWhole self.old }
        ensures built { OnOk result ((cs : List seen_by_rules.Candidate) → candidate_in cs i ≡ seen candidate.now → IsBuilt cs i i 0 self.old → IsBuilt cs (suc i) (suc i) 0 self.new) }
    {
        let first = self.read_keys.as_slice().len();
        self.first_reads.push(first)?;
        self.first_written.push(self.written.as_slice().len())?;
        match candidate {
            Candidate::Flagged(_) => Ok(()),
            Candidate::Updates(_) => Ok(()),
            Candidate::Opened(open_tx) => {
                add_read_keys(&mut self.read_keys, &open_tx.tx)?;
                let known = numbers.len();
                link_reads(
                    &mut self.reads,
                    numbers,
                    &self.keys,
                    &self.operations,
                    &self.read_keys.as_slice()[first..],
                )?;
                let guesses = numbers_from(numbers.as_slice(), known);
                self.add_written(i, open_tx.written.as_slice(), guesses)?;
                Ok(())
            }
        }
    }

    /// The chains of a block's candidates: a sort of the keys that they write, and one pass. The list gets, for each
    /// key that they read, its place among those that they write, if it is one of them.
    pub fn build(
        alloc: Global,
        candidates: &[Candidate<'a>],
        numbers: &mut Vec<Option<u32>>,
    ) -> Result<Chains<'a>, AllocError>
        requires { length candidates.now < 2 ^ 32 }
        ensures { IfOk result (λ c. IsBuilt (map seen candidates.now) (length candidates.now) (length candidates.now) 0 c) }
    {
        let room = Room::of(candidates);
        let keys = Numbering::new(written_keys(alloc, candidates, room)?)?;
        let mut chains = Chains::with_room(alloc, keys, room)?;
        numbers.reserve(room.reads)?;
        for (i, candidate) in candidates.iter().enumerate() {
            chains.add(i as u32, candidate, numbers)?;
        }
        Ok(chains)
    }
}

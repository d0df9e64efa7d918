ghost use Rattle.std.specs.Prelude.{◌≡◌, ◌<◌, ◌^◌, length, map, IfOk};
ghost use Rattle.candidates.specs.Seen.{seen};
ghost use Rattle.key_chains.specs.Job.{keys_in, reads_in};

use crate::chains::Chains;
use candidates::{Candidate, StateKey};
use std::alloc::{AllocError, Global};
use std::marker::Model;

/// The candidates of one block, with the operations on each key that they write, and the keys that they read: what a job has that
/// needs no state. A contract sees the candidates.
#[derive(Drop)]
pub struct KeyWriters<'a> {
    pub(crate) candidates: Vec<Candidate<'a>>,
    pub(crate) chains: Chains<'a>,
    pub(crate) read_numbers: Vec<Option<u32>>,
}

impl<'a> Model for KeyWriters<'a> {
    ghost use Rattle.std.specs.Prelude.{List};
    ghost use Rattle.std.specs.Coded.{coded_list};
    ghost use Rattle.rules.specs.Candidate as candidate;
    ghost use Rattle.key_chains.specs.Code.{candidate_code};

    ghost Value = { List candidate.Candidate };

    ghost coded = { coded_list candidate_code };

    ghost use Rattle.std.specs.Prelude.{map, length};
    ghost use Rattle.candidates.specs.Seen.{seen};
    ghost use Rattle.std.specs.Prelude.{◌≡◌};
    ghost use Rattle.key_chains.specs.Built.{IsBuilt};

    ghost view = { λ c. map seen c.candidates.items };

    ghost invariant = { λ c. IsBuilt (map seen c.candidates.items) (length c.candidates.items) (length c.candidates.items) 0 c.chains };
}

impl<'a> KeyWriters<'a> {
    /// Links the operations of these candidates: a sort of the keys that they write, and one pass over what they read and write with a
    /// search for each key. Memory for the keys that are written or read, and for an entry for each operation and read; `Err` where it
    /// is refused, or where a count has more than 32 bits.
    pub fn build(
        alloc: Global,
        candidates: Vec<Candidate<'a>>,
    ) -> Result<KeyWriters<'a>, AllocError>
        requires { length candidates.items < 2 ^ 32 }
        ensures { IfOk result (λ c. c ≡ map seen candidates.entry.items) }
    {
        let mut read_numbers = Vec::new(alloc);
        let chains = Chains::build(alloc, candidates.as_slice(), &mut read_numbers)?;
        Ok(KeyWriters {
            candidates,
            chains,
            read_numbers,
        })
    }

    /// The keys that they write, in their order.
    pub fn keys(&self) -> &[StateKey<'a>]
        ensures { result.now ≡ keys_in self.now }
    {
        self.chains.keys.as_slice()
    }

    /// The keys that they read, as often as they read them.
    pub fn read_keys(&self) -> &[StateKey<'a>]
        ensures { result.now ≡ reads_in self.now }
    {
        self.chains.read_keys.as_slice()
    }

    /// For each key that they read its place among those that they write, if it is one of them. No clause speaks of it.
    pub fn read_numbers(&self) -> &[Option<u32>] {
        self.read_numbers.as_slice()
    }

    /// Gives back the candidates.
    pub fn into_candidates(self) -> Vec<Candidate<'a>>
        ensures { map seen result.items ≡ self.entry }
    {
        let KeyWriters {
            candidates,
            chains: _chains,
            read_numbers: _read_numbers,
        } = self;
        candidates
    }
}

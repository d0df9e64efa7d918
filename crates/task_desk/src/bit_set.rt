//! A set of numbers below a count, in words of 64 bits.
ghost use Rattle.std.specs.Prelude.{◌≡◌, ℕ, ◌==◌, if◌then◌else◌, ◌<◌, ◌≤◌, ◌+◌, ◌*◌, ◌/◌, ◌^◌, true, false, length, replicate, slice_set, IfOk, MatchOption};
ghost use Rattle.std.specs.Int.{bit_at};
ghost use Rattle.task_desk.specs.Bits.{is_set, IsLeast, IsEmpty};
ghost use Rattle.task_desk.specs.Groups.{NoneIn, IsFirstIn};

use std::alloc::{AllocError, Global};
use std::marker::Model;

/// A contract sees for each number whether it is in the set.
#[derive(Drop)]
pub(crate) struct BitSet {
    words: Vec<u64>,
    count: u32,
}

impl Model for BitSet {
    ghost use Rattle.std.specs.Prelude.{List, Bool};
    ghost use Rattle.task_desk.specs.Bits.{members, HasWords};

    ghost Value = { List Bool };

    ghost view = { λ s. members s.words.items s.count };

    ghost invariant = { λ s. HasWords s.words.items s.count };
}

fn zeros(alloc: Global, count: usize) -> Result<Vec<u64>, AllocError>
    ensures { IfOk result (λ words. words.items ≡ replicate count 0) }
{
    vec![in alloc; 0; count]
}

/// A word with one bit set or cleared.
fn with_bit(word: u64, bit: u32, member: bool) -> u64
    requires { bit < 64 }
    ensures { (k : ℕ) → k < 64 → (bit_at result k == 1) ≡ (if k == bit then member else bit_at word k == 1) }
{
    if member {
        word | (1 << bit)
    } else {
        word & !(1 << bit)
    }
}

/// The least bit that is set of one word.
fn first_in_word(words: &[u64], i: u32) -> Option<u32>
    requires word { i < length words.now }
    requires few { length words.now ≤ 128 }
    ensures { MatchOption result ((k : ℕ) → k / 64 ≡ i → is_set words.now k ≡ false)
        (λ k. (k / 64 ≡ i) × (is_set words.now k ≡ true) × ((j : ℕ) → j < k → j / 64 ≡ i → is_set words.now j ≡ false)) }
{
    let word = words[i as usize];
    if word == 0 {
        return None;
    }
    Some(64 * i + word.trailing_zeros())
}

/// The least bit that is set.
fn first_in(words: &[u64]) -> Option<u32>
    requires { length words.now ≤ 128 }
    ensures { MatchOption result ((k : ℕ) → is_set words.now k ≡ false)
        (λ k. (is_set words.now k ≡ true) × ((j : ℕ) → j < k → is_set words.now j ≡ false)) }
{
    for (i, word) in words.iter().enumerate() {
        if *word != 0 {
            return Some(64 * i as u32 + word.trailing_zeros());
        }
    }
    None
}

impl BitSet {
    /// None of the numbers below the count is in the set.
    pub fn empty(alloc: Global, count: u32) -> Result<BitSet, AllocError>
        requires { count ≤ 8192 }
        ensures { IfOk result (λ s. s ≡ replicate count false) }
    {
        let words = zeros(alloc, count.div_ceil(64) as usize)?;
        Ok(BitSet { words, count })
    }

    /// Puts a number in or takes it out.
    pub fn set(&mut self, k: u32, member: bool)
        requires { k < length self.old }
        ensures { self.new ≡ slice_set self.old k member }
    {
        let word = &mut self.words[(k / 64) as usize];
        *word = with_bit(*word, k % 64, member);
    }

    /// The least number in the set of those from 64 * group on, before the next such group.
    pub fn first_of(&self, group: u32) -> Option<u32>
        requires { 64 * group < length self.now }
        ensures { MatchOption result (NoneIn self.now group) (λ k. IsFirstIn self.now group k) }
    {
        first_in_word(self.words.as_slice(), group)
    }

    /// The least number in the set. Passes over a word for each 64 numbers.
    pub fn first(&self) -> Option<u32>
        ensures { MatchOption result (IsEmpty self.now) (λ k. IsLeast self.now k) }
    {
        first_in(self.words.as_slice())
    }
}

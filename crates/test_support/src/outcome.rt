use crate::failed::Failed;
use std::alloc::Global;

/// What came of a call of whose allocations one may have been refused.
#[derive(Clone, Copy, Debug, PartialEq, Eq)]
pub enum Outcome {
    /// It did what it does otherwise.
    Done,
    /// It answered want of memory and left all as it was, and did the same when it was called again.
    MadeGood,
    /// It answered want of memory, what was there before is still shown, and it does nothing from then on.
    Stopped,
    /// Anything else.
    Wrong,
}

impl Outcome {
    /// What came of this call and of the next one: `Done` where both are done, `Wrong` where one is wrong.
    pub fn and(self, next: Outcome) -> Outcome {
        match (self, next) {
            (Outcome::Done, other) | (other, Outcome::Done) => other,
            (Outcome::MadeGood, Outcome::MadeGood) => Outcome::MadeGood,
            _ => Outcome::Wrong,
        }
    }
}

/// Marks where the call begins whose allocations are refused one by one. It does nothing: `bench/refused_memory.py` has another
/// one in its place, which counts.
pub fn begins(_alloc: Global) -> Result<(), Failed> {
    Ok(())
}

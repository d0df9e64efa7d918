//! What checks of a job find.

use dependency::{NOT_VALIDATED, run_events};
use key_chains::Job;
use rules::Event;
use std::alloc::Global;
use test_support::Failed;

/// The most transactions of a block here.
pub const TXS: usize = 6;

/// The numbers of flags, behind the last one `NOT_VALIDATED`.
pub type Numbers = [u8; TXS];

/// The numbers as many as there are transactions.
pub fn numbers(flags: &[u8]) -> Numbers {
    let mut numbers = [NOT_VALIDATED; TXS];
    for (number, flag) in numbers.iter_mut().zip(flags) {
        *number = *flag;
    }
    numbers
}

/// The flags that these checks find.
pub fn found(alloc: Global, job: &Job<'_, '_>, events: &[Event]) -> Result<Numbers, Failed> {
    let board = run_events(alloc, job, events)?;
    Ok(numbers(board.flags(alloc)?.as_slice()))
}

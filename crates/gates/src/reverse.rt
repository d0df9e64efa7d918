use crate::gate::{Gate, Phase};
use std::alloc::{AllocError, Global};
use std::sync::atomic::{AtomicBool, Ordering};
use std::thread;

/// How often a worker checks whether the next transaction was entered. It lets other threads run between two checks.
const TURNS: u32 = 1_000;

/// A gate that lets the checks of a block through in reverse, as far as there are workers to go ahead: each check waits
/// until the same check of the next transaction was entered, or for 1,000 turns.
#[derive(Drop)]
pub struct Reverse {
    endorse: Vec<AtomicBool>,
    reads: Vec<AtomicBool>,
}

fn none_entered(alloc: Global, n: u32) -> Result<Vec<AtomicBool>, AllocError> {
    let mut entered = Vec::with_capacity(alloc, n as usize)?;
    for _ in 0..n {
        entered.push(AtomicBool::new(false))?;
    }
    Ok(entered)
}

/// Enters a transaction, and waits for the next one. There is nothing to wait for after the last.
fn enter(entered: &[AtomicBool], index: usize) {
    if let Some(own) = entered.get(index) {
        own.store(true, Ordering::SeqCst);
    }
    let Some(next) = entered.get(index.saturating_add(1)) else {
        return;
    };
    for _ in 0..TURNS {
        if next.load(Ordering::SeqCst) {
            return;
        }
        thread::yield_now();
    }
}

impl Reverse {
    /// For a block of n transactions. Takes two bytes for each; an `Err` is out of memory.
    pub fn new(alloc: Global, n: u32) -> Result<Reverse, AllocError> {
        Ok(Reverse {
            endorse: none_entered(alloc, n)?,
            reads: none_entered(alloc, n)?,
        })
    }
}

impl Gate for Reverse {
    fn at(&self, phase: Phase, index: u32) {
        match phase {
            Phase::Intake => {}
            Phase::Endorse => enter(self.endorse.as_slice(), index as usize),
            Phase::Reads => enter(self.reads.as_slice(), index as usize),
        }
    }
}

//! A gate that holds one check back until all others were entered.

use gates::{Gate, Phase};
use std::sync::atomic::{AtomicBool, AtomicU32, Ordering};
use std::thread;

/// How often a worker that is held looks whether it may go on.
const TURNS: u32 = 2_000_000;

/// Holds the first endorsement check of the first of three transactions until the other five checks were entered.
#[derive(Drop)]
pub struct Late {
    endorsed: [AtomicU32; 3],
    read: [AtomicU32; 3],
    let_go: AtomicBool,
}

fn is_entered(entered: &AtomicU32) -> bool {
    entered.load(Ordering::SeqCst) > 0
}

impl Late {
    /// Nobody has entered yet.
    pub fn new() -> Late {
        Late {
            endorsed: [AtomicU32::new(0), AtomicU32::new(0), AtomicU32::new(0)],
            read: [AtomicU32::new(0), AtomicU32::new(0), AtomicU32::new(0)],
            let_go: AtomicBool::new(false),
        }
    }

    /// Whether the five came before the turns were over, and one of the first two read checks was entered again.
    pub fn is_tried_again(&self) -> bool {
        self.let_go.load(Ordering::SeqCst)
            && (self.read[0].load(Ordering::SeqCst) > 1 || self.read[1].load(Ordering::SeqCst) > 1)
    }

    fn are_others_entered(&self) -> bool {
        self.endorsed.iter().skip(1).all(is_entered) && self.read.iter().all(is_entered)
    }

    fn hold(&self) {
        for _ in 0..TURNS {
            if self.are_others_entered() {
                self.let_go.store(true, Ordering::SeqCst);
                return;
            }
            thread::yield_now();
        }
    }
}

impl Gate for Late {
    fn at(&self, phase: Phase, index: u32) {
        let row = match phase {
            Phase::Intake => return,
            Phase::Endorse => &self.endorsed,
            Phase::Reads => &self.read,
        };
        let Some(entered) = row.get(index as usize) else {
            return;
        };
        if entered.fetch_add(1, Ordering::SeqCst) == 0 && phase == Phase::Endorse && index == 0 {
            self.hold();
        }
    }
}

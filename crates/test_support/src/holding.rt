use gates::{Gate, Phase};
use std::sync::atomic::{AtomicBool, AtomicU32, AtomicU64, Ordering};
use std::thread;

/// How often a worker that is held looks whether it may go on.
const TURNS: u32 = 2_000_000;

/// Holds the first worker that enters a phase until so many others have entered it, or 2,000,000 turns are over.
#[derive(Drop)]
pub struct Meeting {
    phase: Phase,
    others: u32,
    entered: AtomicU32,
    met: AtomicBool,
}

impl Meeting {
    /// A gate that waits for so many others in this phase.
    pub fn of_others(others: u32, phase: Phase) -> Meeting {
        Meeting {
            phase,
            others,
            entered: AtomicU32::new(0),
            met: AtomicBool::new(false),
        }
    }

    /// Whether the others came in time.
    pub fn is_met(&self) -> bool {
        self.met.load(Ordering::SeqCst)
    }

    fn hold(&self) {
        for _ in 0..TURNS {
            if self.entered.load(Ordering::SeqCst) > self.others {
                self.met.store(true, Ordering::SeqCst);
                return;
            }
            thread::yield_now();
        }
    }
}

impl Gate for Meeting {
    fn at(&self, phase: Phase, _index: u32) {
        if phase == self.phase && self.entered.fetch_add(1, Ordering::SeqCst) == 0 {
            self.hold();
        }
    }
}

/// Holds the first worker that enters a phase until another phase was entered more than `times` times, or 2,000,000
/// turns are over.
#[derive(Drop)]
pub struct Awaiting {
    holds: Phase,
    until: Phase,
    times: u32,
    entered: AtomicU32,
    is_held: AtomicBool,
    met: AtomicBool,
}

impl Awaiting {
    /// A gate that holds one worker in `holds` until `until` was entered more than `times` times.
    pub fn new(holds: Phase, until: Phase, times: u32) -> Awaiting {
        Awaiting {
            holds,
            until,
            times,
            entered: AtomicU32::new(0),
            is_held: AtomicBool::new(false),
            met: AtomicBool::new(false),
        }
    }

    /// Whether the other phase was entered so often in time.
    pub fn is_met(&self) -> bool {
        self.met.load(Ordering::SeqCst)
    }

    fn hold(&self) {
        for _ in 0..TURNS {
            if self.entered.load(Ordering::SeqCst) > self.times {
                self.met.store(true, Ordering::SeqCst);
                return;
            }
            thread::yield_now();
        }
    }
}

impl Gate for Awaiting {
    fn at(&self, phase: Phase, _index: u32) {
        if phase == self.until {
            self.entered.fetch_add(1, Ordering::SeqCst);
        }
        if phase == self.holds && !self.is_held.swap(true, Ordering::SeqCst) {
            self.hold();
        }
    }
}

/// Lets other threads go first in one of four calls, up to seven times.
#[derive(Drop)]
pub struct Yielding {
    state: AtomicU64,
}

impl Yielding {
    /// A gate whose pauses are drawn from this seed.
    pub fn new(seed: u64) -> Yielding {
        Yielding {
            state: AtomicU64::new(seed),
        }
    }
}

impl Gate for Yielding {
    fn at(&self, _phase: Phase, _index: u32) {
        let drawn = self
            .state
            .fetch_add(0x9e37_79b9_7f4a_7c15, Ordering::SeqCst);
        let mixed = (drawn ^ (drawn >> 31)).wrapping_mul(0xbf58_476d_1ce4_e5b9) >> 59;
        if mixed < 8 {
            for _ in 0..mixed {
                thread::yield_now();
            }
        }
    }
}

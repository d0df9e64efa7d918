ghost use Rattle.std.specs.Prelude.{◌≡◌, ◌≤◌, ◌<◌, ◌↔◌, ◌⊎◌, None, IfSome};
ghost use Rattle.check_workers.specs.Limits.{max_workers};

/// The most workers that a committer has.
pub const MAX_WORKERS: usize = 64;

// A state of so many pages lies in no processor's own cache: look-ups wait for memory, and several threads wait at
// once.
const MANY_PAGES: usize = 256;

// Over such a state a thread more is worth so many look-ups.
const WORTH_A_LOOKER: usize = 256;

// With fewer blocks, most workers would have none to take in.
const WORTH_TAKING_AHEAD: usize = 3;

/// How many workers are at work.
#[derive(Clone, Copy)]
pub(crate) struct Workers {
    pub(crate) count: usize,
    ghost some: { 1 ≤ count },
    ghost few: { count ≤ max_workers },
}

impl Workers {
    pub(crate) fn new(count: usize) -> Option<Workers>
        ensures none { (result ≡ None) ↔ ((count ≡ 0) ⊎ (max_workers < count)) }
        ensures some { IfSome result (λ w. w.count ≡ count) }
    {
        if count < 1 || count > MAX_WORKERS {
            return None;
        }
        Some(Workers { count })
    }

    /// The calling thread alone.
    pub(crate) fn one() -> Workers
        ensures { result.count ≡ 1 }
    {
        Workers { count: 1 }
    }

    /// Whether so many blocks are taken in ahead, each by one worker. Fewer are done sooner one after the other, by all workers.
    pub(crate) fn should_take_in_ahead(self, blocks: usize) -> bool {
        self.count > 1 && blocks >= WORTH_TAKING_AHEAD
    }

    /// How many threads look up the rows of so many keys, over a state of so many pages.
    pub(crate) fn looking_up(self, keys: usize, pages: usize) -> usize {
        if pages < MANY_PAGES {
            return 1;
        }
        self.count.min(1 + keys / WORTH_A_LOOKER)
    }
}

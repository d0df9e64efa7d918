//! How much room a block's lists need. No clause speaks of it: less costs time alone.
use candidates::Candidate;
use transaction::Tx;

/// How many reads and written keys candidates have.
#[derive(Clone, Copy)]
pub(crate) struct Room {
    pub candidates: usize,
    pub reads: usize,
    pub written: usize,
}

fn reads_of(tx: &Tx<'_>) -> usize {
    let mut reads = 0usize;
    for set in tx.namespaces.as_slice() {
        reads = reads.saturating_add(set.reads.len());
    }
    reads
}

impl Room {
    /// One pass over the candidates and their namespaces. Takes no memory.
    pub fn of(candidates: &[Candidate<'_>]) -> Room {
        let mut reads = 0usize;
        let mut written = 0usize;
        for candidate in candidates {
            if let Candidate::Opened(open_tx) = candidate {
                reads = reads.saturating_add(reads_of(&open_tx.tx));
                written = written.saturating_add(open_tx.written.len());
            }
        }
        Room {
            candidates: candidates.len(),
            reads,
            written,
        }
    }
}

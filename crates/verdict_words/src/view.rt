use key_chains::Job;
use std::collections::LinkedList;

/// What a seat knows: a word for each verdict, 0 where it is unknown, and of which job. Contracts alone speak of it; no
/// value of it is made.
pub struct View {
    pub known: LinkedList<u64>,
    pub job: Job<'static, 'static>,
}

use key_chains::Job;

/// A place of a block: candidate i of its job.
#[derive(Drop)]
pub(crate) struct Place<'a> {
    pub(crate) job: &'a Job<'a, 'a>,
    pub(crate) i: u32,
}

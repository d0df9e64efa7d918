use block::MAX_TXS;
use candidates::Candidate;
use key_chains::Job;
use policy::{Definitions, Policy};
use state_db::StateDb;
use std::alloc::{AllocError, Global};

/// The job of a block's candidates, or none if they are more than a block has.
pub fn job_of<'s, 'b>(
    alloc: Global,
    number: u64,
    state: &'s StateDb,
    definitions: &'s Definitions,
    admin: Option<&'s Policy>,
    candidates: Vec<Candidate<'b>>,
) -> Result<Option<Job<'s, 'b>>, AllocError> {
    if candidates.as_slice().len() > MAX_TXS {
        return Ok(None);
    }
    let job = Job::build(alloc, number, state, definitions, admin, candidates)?;
    Ok(Some(job))
}

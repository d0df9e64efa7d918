ghost use Rattle.std.specs.Prelude.{◌≡◌};

use key_chains::Job;
use std::marker::Model;

/// A job, lent at one lifetime: a closure that is sent to a thread may have no type in it that names two. A contract sees the job.
#[derive(Drop)]
pub struct Lent<'j> {
    inner: &'j Job<'j, 'j>,
}

impl<'j> Model for Lent<'j> {
    ghost use Rattle.rules.specs.Job as job;
    ghost use Rattle.key_chains.specs.Code.{job_code};

    ghost Value = { job.Job };

    ghost coded = { job_code };

    ghost view = { λ l. l.inner.now };
}

impl<'j> Lent<'j> {
    /// Lends a job.
    pub fn new(job: &'j Job<'j, 'j>) -> Lent<'j>
        ensures { result ≡ job.entry.now }
    {
        Lent { inner: job }
    }

    /// The job.
    pub fn job(&self) -> &'j Job<'j, 'j>
        ensures { result.now ≡ self.now }
    {
        self.inner
    }
}

ghost use Rattle.std.specs.Prelude.{◌≡◌, ◌≢◌, ◌⊎◌, ℕ, ◌+◌, ◌*◌, ◌^◌, ◌<◌, true, false, [], Some, length, slice_index, slice_set, IsTrue, ◌↔◌};
ghost use Rattle.rules.specs.Candidate.{flagged};
ghost use Rattle.rules.specs.Job.{candidate_at};
ghost use Rattle.rules.specs.Fold.{flag};
ghost use Rattle.rules.specs.Depends.{EndorsementDepends, ReadsDepend};
ghost use Rattle.key_chains.specs.Job.{IsOpen};
ghost use Rattle.key_chains.specs.Decided.{MatchDecision};
ghost use Rattle.verdict_words.specs.Cells.{IsKnown, Within, verdict_word, known_in};
ghost use Rattle.verdict_words.specs.Words.{fresh};
ghost use Rattle.verdict_words.specs.Board.{IsSound, board_in};
ghost use Rattle.verdict_words.specs.Seats.{Moves, Waits};

use crate::cells::{endorsed_in, endorsed_word, flag_in, flag_word};
use crate::rule::{Begins, Sees, Steps, TableSeat};
use key_chains::{Board, Decision, Job};
use rules::{Flag, ReadVerdict};
use std::marker::Model;
use task_desk::Task;

/// A worker's seat at the words of one job. A contract sees what it knows: each verdict that it has read or found.
///
/// A look at a verdict is one load, a verdict that is found one store. Neither waits.
#[derive(Drop)]
pub struct VerdictSeat<'t, 'a> {
    steps: &'t Steps<'a>,
    own: TableSeat,
}

impl<'t, 'a> Model for VerdictSeat<'t, 'a> {
    ghost use Rattle.std.specs.Prelude.{◌≡◌};
    ghost use Rattle.verdict_words.specs.declared.view.View.{View};
    ghost use Rattle.verdict_words.specs.Seats.{Sits};
    ghost use Rattle.std.specs.Coded.{codes};
    ghost use Rattle.key_chains.specs.Code.{job_code};

    ghost Value = { View };

    ghost coded = { Prim.hlevel (codes, job_code) };

    ghost view = { λ s. s.own.me.0 };

    ghost invariant = { λ s. (s.own.table_id ≡ s.steps.now.table_id) × Sits s.steps.now.key s.steps.now.table_id.words s.own.me };
}

impl<'t, 'a> VerdictSeat<'t, 'a> {
    /// A new seat, which knows nothing.
    pub fn enter(steps: &'t Steps<'a>) -> VerdictSeat<'t, 'a>
        requires some { 0 < steps.now.table_id.words }
        requires words { steps.now.table_id.words ≡ 2 * length steps.now.key.candidates }
        ensures { result.job ≡ steps.now.key }
    {
        let (_, own) = steps.load_new_seat::<Begins>(0);
        VerdictSeat { steps, own }
    }

    /// The first seat, which knows nothing.
    pub fn first(steps: &'t Steps<'a>, own: TableSeat) -> VerdictSeat<'t, 'a>
        requires table { own.table_id ≡ steps.now.table_id }
        requires fresh { own.me ≡ (fresh steps.now.key, []) }
        requires words { steps.now.table_id.words ≡ 2 * length steps.now.key.candidates }
        ensures { result.job ≡ steps.now.key }
    {
        VerdictSeat { steps, own }
    }

    fn load(&mut self, task: usize) -> u64
        requires { task < 2 * length self.old.job.candidates }
        ensures moves { Moves self.old self.new }
        ensures word { slice_index self.new.known task ≡ result }
        ensures fold { Within self.new.known (verdict_word self.new.job) }
    {
        self.steps.load::<Sees>(&mut self.own, task)
    }

    /// Stores a verdict that is the fold's, if what the seat knows is the fold's.
    fn store(&mut self, task: usize, word: u64)
        requires task { task < 2 * length self.old.job.candidates }
        requires fold { Within self.old.known (verdict_word self.old.job) → word ≡ verdict_word self.old.job task }
        ensures moves { Moves self.old self.new }
        ensures word { slice_index self.new.known task ≡ word }
    {
        self.steps.store::<Sees>(&mut self.own, task, word);
    }

    /// Whether the verdict of a task is known.
    pub fn knows(&mut self, task: Task) -> bool
        requires { task < 2 * length self.old.job.candidates }
        ensures moves { Moves self.old self.new }
        ensures known { IsTrue result ↔ IsKnown self.new.known task }
    {
        self.load(task as usize) != 0
    }

    /// A known flag.
    pub fn known_flag(&mut self, i: u32) -> Flag
        requires place { i < length self.old.job.candidates }
        requires known { IsKnown self.old.known (2 * i + 1) }
        ensures moves { Moves self.old self.new }
        ensures fold { result ≡ flag self.old.job i }
    {
        let word = self.load(2 * i as usize + 1);
        let Some(flag) = flag_in(word) else {
            unreachable!()
        };
        flag
    }

    fn settle_endorsement(&mut self, job: &Job<'_, '_>, i: u32) -> Decision<()>
        requires job { self.old.job ≡ job.now }
        requires place { (i < length job.now.candidates) × (2 * i + 1 < 2 ^ 32) }
        ensures moves { Moves self.old self.new }
        ensures decision { MatchDecision result
            (λ _. IsKnown self.new.known (2 * i))
            (λ h. ((g : ℕ) × (h ≡ 2 * g) × EndorsementDepends job.now i g) × (slice_index self.new.known h ≡ 0)) }
    {
        match endorsement_check::decide(job, i, self) {
            Decision::Sure(endorsed) => {
                self.store(2 * i as usize, endorsed_word(endorsed));
                Decision::Sure(())
            }
            Decision::Blocked(g) => Decision::Blocked(2 * g),
        }
    }

    /// The flag of a candidate that is open and endorsed.
    fn settle_reads(&mut self, job: &Job<'_, '_>, i: u32) -> Decision<()>
        requires job { self.old.job ≡ job.now }
        requires place { (i < length job.now.candidates) × (2 * i + 1 < 2 ^ 32) }
        requires open_tx { IsOpen job.now i }
        requires endorsed { (known_in self.old.known).endorsed i ≡ Some true }
        ensures moves { Moves self.old self.new }
        ensures decision { MatchDecision result
            (λ _. IsKnown self.new.known (2 * i + 1))
            (λ h. ((g : ℕ) × (h ≡ 2 * g + 1) × ReadsDepend job.now i g) × (slice_index self.new.known h ≡ 0)) }
    {
        match mvcc::decide(job, i, self) {
            Decision::Sure(verdict) => {
                self.store(2 * i as usize + 1, flag_word(job.flag(i, true, verdict)));
                Decision::Sure(())
            }
            Decision::Blocked(g) => {
                self.knows_the_fold();
                Decision::Blocked(2 * g + 1)
            }
        }
    }

    fn settle_flag(&mut self, job: &Job<'_, '_>, i: u32) -> Decision<()>
        requires job { self.old.job ≡ job.now }
        requires place { (i < length job.now.candidates) × (2 * i + 1 < 2 ^ 32) }
        ensures moves { Moves self.old self.new }
        ensures decision { MatchDecision result
            (λ _. IsKnown self.new.known (2 * i + 1))
            (λ h. (((h ≡ 2 * i) × IsOpen job.now i) ⊎ ((g : ℕ) × (h ≡ 2 * g + 1) × ReadsDepend job.now i g)) × (slice_index self.new.known h ≡ 0)) }
    {
        if let Some(flag) = job.flagged(i) {
            self.store(2 * i as usize + 1, flag_word(flag.flag()));
            return Decision::Sure(());
        }
        match self.endorsed(i) {
            None => Decision::Blocked(2 * i),
            Some(false) => {
                let flag = job.flag(i, false, ReadVerdict::Good);
                self.store(2 * i as usize + 1, flag_word(flag));
                Decision::Sure(())
            }
            Some(true) => self.settle_reads(job, i),
        }
    }

    /// Tries to find a task's verdict and to store it for all workers. Task 2 i is the endorsement check of candidate i,
    /// and task 2 i + 1 its read check.
    ///
    /// `Blocked` names a smaller task that it waits for, whose verdict this seat doesn't know: the endorsement check of
    /// the same candidate, which is open, or a check of the same kind that this one depends on. What the seat knows then shows a
    /// sound board of the verdict machine. Takes no memory; costs what the check costs.
    pub fn settle(&mut self, job: &Job<'_, '_>, task: Task) -> Decision<()>
        requires job { self.old.job ≡ job.now }
        requires task { task < 2 * length job.now.candidates }
        ensures moves { Moves self.old self.new }
        ensures decision { MatchDecision result
            (λ _. IsKnown self.new.known task)
            (λ h. Waits job.now task h × (slice_index self.new.known h ≡ 0)) }
        ensures sound { IsSound job.now (board_in job.now self.new.known) }
    {
        let decision = if task % 2 == 0 {
            self.settle_endorsement(job, task / 2)
        } else {
            self.settle_flag(job, task / 2)
        };
        self.knows_the_fold();
        decision
    }

    /// A law, and no work: each verdict that a seat knows is the fold's.
    fn knows_the_fold(&self)
        ensures { Within self.now.known (verdict_word self.now.job) }
    {
        let _ = &self.steps;
    }
}

impl<'t, 'a> Board for VerdictSeat<'t, 'a> {
    ghost use Rattle.std.specs.Prelude.{length};
    ghost use Rattle.verdict_words.specs.Cells.{known_in};
    ghost use Rattle.verdict_words.specs.Seats.{Moves};
    ghost use Rattle.verdict_words.specs.Laws.{stays, goes_on, same_count, grows};

    ghost count = { λ s. length s.job.candidates };

    ghost known = { λ s. known_in s.known };

    ghost moves = { Moves };

    fn endorsed(&mut self, i: u32) -> Option<bool> {
        endorsed_in(self.load(2 * i as usize))
    }

    fn flag(&mut self, i: u32) -> Option<Flag> {
        flag_in(self.load(2 * i as usize + 1))
    }

    ghost stays = { stays };

    ghost goes_on = { goes_on };

    ghost same_count = { same_count };

    ghost grows = { grows };
}

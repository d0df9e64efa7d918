//! Small jobs at random, with boards on which something is known, whether it can be so or not.

use crate::asking::{Answers, Said, ask};
use crate::cases::{JobCase, KeyPlace, TXS, TxCase};
use crate::drawing::Drawing;
use crate::sure::{KnownCase, is_right_of_endorsement, is_right_of_reads, is_right_of_version};
use key_chains::Decision;
use rules::ReadVerdict;
use std::alloc::Global;
use test_support::Failed;

const JOBS: u32 = 2500;

/// How often each result was returned.
#[derive(Clone, Copy)]
struct Times {
    passed: u32,
    refused: u32,
    endorsement_blocked: u32,
    good: u32,
    stale: u32,
    phantom: u32,
    reads_blocked: u32,
    version_blocked: u32,
}

const NONE: Times = Times {
    passed: 0,
    refused: 0,
    endorsement_blocked: 0,
    good: 0,
    stale: 0,
    phantom: 0,
    reads_blocked: 0,
    version_blocked: 0,
};

fn add_one(times: &mut u32) {
    *times = times.saturating_add(1);
}

impl Times {
    fn count(&mut self, said: Said) {
        match said.endorsement {
            Decision::Sure(true) => add_one(&mut self.passed),
            Decision::Sure(false) => add_one(&mut self.refused),
            Decision::Blocked(_) => add_one(&mut self.endorsement_blocked),
        }
        match said.reads {
            Decision::Sure(ReadVerdict::Good) => add_one(&mut self.good),
            Decision::Sure(ReadVerdict::Stale) => add_one(&mut self.stale),
            Decision::Sure(ReadVerdict::Phantom) => add_one(&mut self.phantom),
            Decision::Blocked(_) => add_one(&mut self.reads_blocked),
        }
        if let Decision::Blocked(_) = said.version {
            add_one(&mut self.version_blocked);
        }
    }

    // Whether each result was returned often.
    fn are_all_there(&self) -> bool {
        let Times {
            passed,
            refused,
            endorsement_blocked,
            good,
            stale,
            phantom,
            reads_blocked,
            version_blocked,
        } = *self;
        [
            passed,
            refused,
            endorsement_blocked,
            good,
            stale,
            phantom,
            reads_blocked,
            version_blocked,
        ]
        .iter()
        .all(|count| *count >= 100)
    }
}

/// A job with what is known of it, and a key to check.
#[derive(Clone, Copy)]
struct Question {
    case: JobCase,
    known: KnownCase,
    place: KeyPlace,
}

impl Question {
    fn draw(drawing: &mut Drawing) -> Question {
        Question {
            case: drawing.job(),
            known: drawing.known(),
            place: drawing.place(),
        }
    }

    fn is_right(&self, tx: &TxCase, i: usize, said: Said) -> bool {
        is_right_of_endorsement(&self.case, tx, i, &self.known, said.endorsement)
            && is_right_of_reads(&self.case, tx, i, &self.known, said.reads)
            && is_right_of_version(&self.case, self.place, i, &self.known, said.version)
    }

    // Whether each of its transactions has a result, which is right.
    fn are_right(&self, answers: &Answers, times: &mut Times) -> bool {
        for i in 0..TXS {
            match &answers[i] {
                None if i < self.case.count => return false,
                Some(said) => {
                    times.count(*said);
                    if !self.is_right(&self.case.txs[i], i, *said) {
                        return false;
                    }
                }
                None => {}
            }
        }
        true
    }

    fn is_answered(&self, alloc: Global, times: &mut Times) -> Result<bool, Failed> {
        let answers = ask(alloc, &self.case, &self.known, self.place)?;
        Ok(self.are_right(&answers, times))
    }
}

// The first job with a wrong result.
fn first_wrong(alloc: Global, times: &mut Times) -> Result<Option<u32>, Failed> {
    let mut drawing = Drawing::new();
    for number in 0..JOBS {
        let question = Question::draw(&mut drawing);
        if !question.is_answered(alloc, times)? {
            return Ok(Some(number));
        }
    }
    Ok(None)
}

#[test]
fn all_assignments(rt: HostRuntime) -> Result<(), Failed> {
    let mut times = NONE;
    let wrong = first_wrong(rt.alloc(), &mut times)?;
    assert!(rt; wrong == None, "job {wrong:?}");
    assert!(rt; times.are_all_there());
    Ok(())
}

//! Runs that the function ends which is told of the answers: no block behind that is handed in.

use crate::at_random::{AtRandom, add_next};
use crate::committing::are_same;
use crate::opening::opened;
use crate::story::Story;
use commit::{Answer, Committer};
use gates::Open;
use std::alloc::Global;
use std::sync::Wait;
use std::thread::Threads;
use test_support::{Failed, check};

static WORKERS: [usize; 4] = [1, 2, 5, 64];

const SPOILED: AtRandom = AtRandom {
    before: 2,
    behind: 1,
    has_updates: false,
    is_noted: false,
};

/// Answers, of which no more than so many are asked for.
#[derive(Drop)]
struct Asking {
    answers: Vec<Answer>,
    most: usize,
}

impl Asking {
    fn tell(&mut self, answer: Answer) -> bool {
        self.answers.push(answer).is_ok() && self.answers.len() < self.most
    }
}

// Whether so many answers are told, which are the ledger's, and all blocks behind them can be handed in then.
fn is_ended_behind<R: Threads + Wait + Sync>(
    rt: &R,
    committer: &mut Committer,
    story: &Story,
    most: usize,
) -> Result<bool, Failed> {
    let mut asking = Asking {
        answers: Vec::new(story.alloc),
        most,
    };
    let all = committer.run_telling(
        rt,
        story.blocks_from(0),
        story.drafter.keys(),
        &Open,
        &mut |answer| { asking.tell(answer) },
    )?;
    let others = committer.run(rt, story.blocks_from(most), story.drafter.keys(), &Open)?;
    let told = story.answers.get(..most).unwrap_or(&[]);
    let behind = story.answers.get(most..).unwrap_or(&[]);
    Ok(!all && are_same(&asking.answers, told) && are_same(&others, behind))
}

fn check_ended<R: Threads + Wait + Sync>(
    rt: &R,
    story: &Story,
    workers: usize,
    most: usize,
) -> Result<(), Failed> {
    let (mut committer, _handles) = opened(rt, story.alloc, workers, 0)?;
    let is_ended = is_ended_behind(rt, &mut committer, story, most);
    committer.close(rt);
    check(is_ended?)
}

// By so many workers, behind each of the answers.
fn check_by<R: Threads + Wait + Sync>(rt: &R, story: &Story, workers: usize) -> Result<(), Failed> {
    for most in 1..=story.blocks.len() {
        check_ended(rt, story, workers, most)?;
    }
    Ok(())
}

fn check_story<R: Threads + Wait + Sync>(rt: &R, story: &mut Story) -> Result<(), Failed> {
    for _ in 0..3 {
        add_next(story, SPOILED)?;
    }
    for workers in &WORKERS {
        check_by(rt, story, *workers)?;
    }
    check(story.height() == 3 && story.blocks.len() == 12)
}

fn check_ends<R: Threads + Wait + Sync>(rt: &R, alloc: Global) -> Result<(), Failed> {
    let mut story = Story::open(alloc, 5)?;
    check_story(rt, &mut story)
}

#[test]
fn blocks_behind_the_end_are_not_handed_in(rt: HostRuntime) -> Result<(), Failed> {
    check_ends(&rt, rt.alloc())
}

//! To be tried with memory that is refused at any one allocation, by `bench/refused_memory.py`: a committer of two workers then
//! refuses the block and takes the same bytes next, or has stopped, and handles answer the height from before.

use crate::blocks::name;
use crate::memory::outcome_if;
use crate::opening::opened;
use crate::story::Story;
use block::BlockVersion;
use commit::{Committer, NotCommitted, QueryHandle, Receipt, Refused};
use gates::Open;
use std::alloc::Global;
use std::sync::Wait;
use std::thread::Threads;
use test_support::{Failed, Outcome, begins};
use values::Hash;

const WRITES: [&str; 4] = [
    "tx Org1:client:c0 n1 cc\nns cc\nwrite a v\nwrite c v\nendorse Org1:peer:p0\n",
    "\
tx Org1:client:c0 n2 cc
ns cc
write k value
endorse Org1:peer:p0
tx Org1:client:c0 n3 cc
ns cc
policy a AND('Org1.peer','Org2.peer')
endorse Org1:peer:p0
tx Org1:client:c0 n4 cc
ns cc
range b d all
result c 0 0
endorse Org1:peer:p0
",
    "tx Org1:client:c0 n5 cc\nns cc\nread k 1 0\nwrite k again\nendorse Org1:peer:p0\n",
    "tx Org1:client:c0 n6 cc\nns cc\ndelete k\nendorse Org1:peer:p0\n",
];

// The second block is an update.
const UPDATES: [&str; 4] = [
    "tx Org1:client:c0 n1 cc\nns cc\nwrite a v\nwrite c v\nendorse Org1:peer:p0\n",
    "update Org1:client:c0 n2 cc AND('Org1.peer','Org2.peer')\nendorse Org1:peer:p0\n",
    "tx Org1:client:c0 n3 cc\nns cc\nwrite k v\nendorse Org1:peer:p0\n",
    "update Org1:client:c0 n4 cc 'Org2.peer'\nendorse Org2:peer:q0\n",
];

// The policy of `cc`, from its channel and from the updates.
const OF_CHANNEL: &str = "OR('Org1.peer','Org2.peer')";

const FIRST_UPDATE: &str = "AND('Org1.peer','Org2.peer')";

const SECOND_UPDATE: &str = "'Org2.peer'";

/// Four blocks, and how those behind the first are handed in.
struct Subject {
    version: BlockVersion,
    scripts: [&'static str; 4],
    /// The policy of `cc` at each height.
    policies: [&'static str; 5],
    /// All at once, or else the second one alone.
    is_run: bool,
}

static SUBMITTING: Subject = Subject {
    version: BlockVersion::V1,
    scripts: WRITES,
    policies: [OF_CHANNEL, OF_CHANNEL, OF_CHANNEL, OF_CHANNEL, OF_CHANNEL],
    is_run: false,
};

static RUNNING: Subject = Subject {
    version: BlockVersion::V1,
    scripts: WRITES,
    policies: [OF_CHANNEL, OF_CHANNEL, OF_CHANNEL, OF_CHANNEL, OF_CHANNEL],
    is_run: true,
};

static UPDATING: Subject = Subject {
    version: BlockVersion::V2,
    scripts: UPDATES,
    policies: [
        OF_CHANNEL,
        OF_CHANNEL,
        FIRST_UPDATE,
        FIRST_UPDATE,
        SECOND_UPDATE,
    ],
    is_run: false,
};

static RUNNING_UPDATES: Subject = Subject {
    version: BlockVersion::V2,
    scripts: UPDATES,
    policies: [
        OF_CHANNEL,
        OF_CHANNEL,
        FIRST_UPDATE,
        FIRST_UPDATE,
        SECOND_UPDATE,
    ],
    is_run: true,
};

/// A subject's blocks.
#[derive(Drop)]
struct Scene {
    story: Story,
    subject: &'static Subject,
}

fn take_all(story: &mut Story, subject: &'static Subject) -> Result<(), Failed> {
    for script in &subject.scripts {
        story.take(subject.version, script)?;
    }
    Ok(())
}

impl Scene {
    fn open(alloc: Global, subject: &'static Subject) -> Result<Scene, Failed> {
        let story = Story::open(alloc, 0)?;
        Ok(Scene { story, subject })
    }

    fn hash_at(&self, height: usize) -> Option<Hash> {
        let number = (height as u64).checked_sub(1)?;
        match self.story.drafter.world().block(number) {
            Some(block) => Some(block.header_hash),
            None => None,
        }
    }

    // Whether the height is answered, with the hash of its last block.
    fn is_height(&self, handle: &mut QueryHandle, height: usize) -> Result<bool, Failed> {
        let reply = handle.height()?;
        Ok(reply.answer == height as u64 && reply.header_hash == self.hash_at(height))
    }

    // Whether the policy of `cc` is answered from this height.
    fn is_policy(&self, handle: &mut QueryHandle, height: usize) -> Result<bool, Failed> {
        let reply = handle.definition(self.story.alloc, &name(b"cc")?)?;
        match (&reply.answer, self.subject.policies.get(height)) {
            (Some(text), Some(policy)) => {
                Ok(reply.height == height as u64 && text.as_str() == *policy)
            }
            _ => Ok(false),
        }
    }

    // Whether all handles answer this height, and the policy there.
    fn is_at(&self, handles: &mut Vec<QueryHandle>, height: usize) -> Result<bool, Failed> {
        for handle in handles.iter_mut() {
            if !self.is_height(handle, height)? || !self.is_policy(handle, height)? {
                return Ok(false);
            }
        }
        Ok(true)
    }
}

fn submitted<R: Threads + Wait + Sync>(
    rt: &R,
    committer: &mut Committer,
    story: &Story,
    number: usize,
) -> Result<Receipt, NotCommitted> {
    committer.submit(rt, story.bytes(number), story.drafter.keys(), &Open)
}

// Whether nothing more is committed, and the handles answer this height.
fn has_stopped<R: Threads + Wait + Sync>(
    rt: &R,
    committer: &mut Committer,
    handles: &mut Vec<QueryHandle>,
    scene: &Scene,
    height: usize,
) -> Result<bool, Failed> {
    for turn in 0..3 {
        // the next block twice, and then the first
        let number = if turn < 2 { height } else { 0 };
        let refused = submitted(rt, committer, &scene.story, number).err();
        if refused != Some(NotCommitted::Stopped) || !scene.is_at(handles, height)? {
            return Ok(false);
        }
    }
    Ok(true)
}

// Whether the block of this number, which was refused, is taken now.
fn is_taken_next<R: Threads + Wait + Sync>(
    rt: &R,
    committer: &mut Committer,
    handles: &mut Vec<QueryHandle>,
    scene: &Scene,
    number: usize,
) -> Result<bool, Failed> {
    if !scene.is_at(handles, number)? {
        return Ok(false);
    }
    if submitted(rt, committer, &scene.story, number).is_err() {
        return Ok(false);
    }
    scene.is_at(handles, number.saturating_add(1))
}

const MEMORY: NotCommitted = NotCommitted::Refused(Refused::Memory);

// Of the submit of block 1.
fn outcome_of_submit<R: Threads + Wait + Sync>(
    rt: &R,
    committer: &mut Committer,
    handles: &mut Vec<QueryHandle>,
    scene: &Scene,
) -> Result<Outcome, Failed> {
    match submitted(rt, committer, &scene.story, 1).err() {
        None => outcome_if(scene.is_at(handles, 2), Outcome::Done),
        Some(MEMORY) => {
            let is_so = is_taken_next(rt, committer, handles, scene, 1);
            outcome_if(is_so, Outcome::MadeGood)
        }
        Some(NotCommitted::MemoryInCommit) => {
            let is_so = has_stopped(rt, committer, handles, scene, 1);
            outcome_if(is_so, Outcome::Stopped)
        }
        Some(_) => Ok(Outcome::Wrong),
    }
}

// Whether the answers behind the first that has no receipt are those of blocks that are out of turn, or of a committer that
// has stopped.
fn are_behind(answers: &[Result<Receipt, NotCommitted>], height: usize, has_stopped: bool) -> bool {
    for (place, answer) in answers.iter().enumerate() {
        let out_of_turn = NotCommitted::Refused(Refused::WrongNumber {
            want: height as u64,
            got: (height as u64).wrapping_add(place as u64).wrapping_add(1),
        });
        let wanted = if has_stopped {
            NotCommitted::Stopped
        } else {
            out_of_turn
        };
        match answer {
            Err(why) if *why == wanted => {}
            _ => return false,
        }
    }
    true
}

fn first_without_receipt(
    answers: &[Result<Receipt, NotCommitted>],
) -> Option<(usize, NotCommitted)> {
    for (place, answer) in answers.iter().enumerate() {
        if let Err(why) = answer {
            return Some((place, *why));
        }
    }
    None
}

fn are_committed<R: Threads + Wait + Sync>(
    rt: &R,
    committer: &mut Committer,
    story: &Story,
    number: usize,
) -> bool {
    match committer.run(rt, story.blocks_from(number), story.drafter.keys(), &Open) {
        Ok(answers) => first_without_receipt(&answers).is_none(),
        Err(_) => false,
    }
}

// Whether the blocks from this number on are committed when they are handed in once more.
fn are_taken_next<R: Threads + Wait + Sync>(
    rt: &R,
    committer: &mut Committer,
    handles: &mut Vec<QueryHandle>,
    scene: &Scene,
    number: usize,
) -> Result<bool, Failed> {
    if !scene.is_at(handles, number)? || !are_committed(rt, committer, &scene.story, number) {
        return Ok(false);
    }
    scene.is_at(handles, scene.story.blocks.len())
}

// Of the blocks from 1 on, which were handed in at once.
fn outcome_of_answers<R: Threads + Wait + Sync>(
    rt: &R,
    committer: &mut Committer,
    handles: &mut Vec<QueryHandle>,
    scene: &Scene,
    answers: &[Result<Receipt, NotCommitted>],
) -> Result<Outcome, Failed> {
    let Some((place, why)) = first_without_receipt(answers) else {
        let is_done = outcome_if(scene.is_at(handles, 4), Outcome::Done);
        return if answers.len() == 3 {
            is_done
        } else {
            Ok(Outcome::Wrong)
        };
    };
    let height = place.saturating_add(1);
    let behind = answers.get(height..).unwrap_or(&[]);
    match why {
        MEMORY if are_behind(behind, height, false) => {
            let is_so = are_taken_next(rt, committer, handles, scene, height);
            outcome_if(is_so, Outcome::MadeGood)
        }
        NotCommitted::MemoryInCommit if are_behind(behind, height, true) => {
            let is_so = has_stopped(rt, committer, handles, scene, height);
            outcome_if(is_so, Outcome::Stopped)
        }
        _ => Ok(Outcome::Wrong),
    }
}

// Of the blocks from 1 on, handed in at once. Where `run` has an error of its own, none was handed in.
fn outcome_of_run<R: Threads + Wait + Sync>(
    rt: &R,
    committer: &mut Committer,
    handles: &mut Vec<QueryHandle>,
    scene: &Scene,
) -> Result<Outcome, Failed> {
    let story = &scene.story;
    match committer.run(rt, story.blocks_from(1), story.drafter.keys(), &Open) {
        Ok(answers) => outcome_of_answers(rt, committer, handles, scene, &answers),
        Err(_) => {
            let is_so = are_taken_next(rt, committer, handles, scene, 1);
            outcome_if(is_so, Outcome::MadeGood)
        }
    }
}

fn outcome_behind_first<R: Threads + Wait + Sync>(
    rt: &R,
    committer: &mut Committer,
    handles: &mut Vec<QueryHandle>,
    scene: &Scene,
) -> Result<Outcome, Failed> {
    if submitted(rt, committer, &scene.story, 0).is_err() || !scene.is_at(handles, 1)? {
        return Ok(Outcome::Wrong);
    }
    begins(scene.story.alloc)?;
    if scene.subject.is_run {
        outcome_of_run(rt, committer, handles, scene)
    } else {
        outcome_of_submit(rt, committer, handles, scene)
    }
}

fn outcome_by<R: Threads + Wait + Sync>(rt: &R, scene: &mut Scene) -> Result<Outcome, Failed> {
    take_all(&mut scene.story, scene.subject)?;
    let (mut committer, mut handles) = opened(rt, scene.story.alloc, 2, 3)?;
    let outcome = outcome_behind_first(rt, &mut committer, &mut handles, scene);
    committer.close(rt);
    outcome
}

fn outcome<R: Threads + Wait + Sync>(
    rt: &R,
    alloc: Global,
    subject: &'static Subject,
) -> Result<Outcome, Failed> {
    let mut scene = Scene::open(alloc, subject)?;
    outcome_by(rt, &mut scene)
}

fn is_done<R: Threads + Wait + Sync>(
    rt: &R,
    alloc: Global,
    subject: &'static Subject,
) -> Result<bool, Failed> {
    Ok(outcome(rt, alloc, subject)? == Outcome::Done)
}

#[test]
fn blocks_and_updates_submitted_and_run(rt: HostRuntime) -> Result<(), Failed> {
    assert!(rt; is_done(&rt, rt.alloc(), &SUBMITTING)?);
    assert!(rt; is_done(&rt, rt.alloc(), &RUNNING)?);
    assert!(rt; is_done(&rt, rt.alloc(), &UPDATING)?);
    assert!(rt; is_done(&rt, rt.alloc(), &RUNNING_UPDATES)?);
    Ok(())
}

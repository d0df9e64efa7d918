//! Threads that ask while a committer takes blocks.
ghost use Rattle.std.specs.Prelude.{◌≡◌, All, IfOk, IfSome};

use crate::asking::row_of_cc;
use crate::blocks::{key, name};
use crate::opening::{opened, submit_next};
use crate::story::Story;
use block::BlockVersion;
use commit::{Committer, QueryHandle, Receipt, Reply};
use gates::Open;
use query::PolicyText;
use rules::Row;
use std::alloc::{AllocError, Global};
use std::sync::Wait;
use std::sync::atomic::{AtomicBool, AtomicU64, Ordering};
use std::thread;
use std::thread::Threads;
use test_support::Failed;
use values::Hash;
use world::World;

/// One more handle stays silent.
const READERS: u64 = 31;

const BLOCKS: u64 = 100;

const WORKERS: usize = 2;

/// How often who waits for others looks whether to go on, and how often a reader asks at most.
const TURNS: u32 = 4_000_000;

/// What the blocks do, each by its one transaction or update.
#[derive(Clone, Copy)]
enum Kind {
    /// Each writes the decimal text of its number at `k`.
    Writes,
    /// The even ones do so, and each odd one gives the chaincode a policy.
    WritesAndUpdates,
}

impl Kind {
    // How many of the first blocks write.
    fn writes(self, height: u64) -> u64 {
        match self {
            Kind::Writes => height,
            Kind::WritesAndUpdates => height.wrapping_add(1) / 2,
        }
    }

    // The last of the first blocks that writes, where there is one.
    fn last_write(self, height: u64) -> u64 {
        match self {
            Kind::Writes => height.wrapping_sub(1),
            Kind::WritesAndUpdates => height.wrapping_sub(1) & !1,
        }
    }

    // The last of the first blocks that gives a policy.
    fn last_update(self, height: u64) -> Option<u64> {
        match self {
            Kind::WritesAndUpdates if height > 1 => Some(height.wrapping_sub(2) | 1),
            _ => None,
        }
    }

    fn version(self) -> BlockVersion {
        match self {
            Kind::Writes => BlockVersion::V1,
            Kind::WritesAndUpdates => BlockVersion::V2,
        }
    }

    fn is_update(self, block: u64) -> bool {
        matches!(self, Kind::WritesAndUpdates) && block % 2 == 1
    }
}

/// What the threads share.
#[derive(Drop)]
struct Watched {
    kind: Kind,
    /// The header hash and the commit hash of each block.
    hashes: Vec<[Hash; 2]>,
    submitted: AtomicU64,
    /// How many readers were answered,
    begun: AtomicU64,
    /// and how many at a height between the first block and the last one.
    amid: AtomicU64,
    replies: AtomicU64,
    /// Wrong replies, threads that couldn't begin, and waits that were in vain.
    wrong: AtomicU64,
    is_over: AtomicBool,
}

impl Watched {
    fn over(kind: Kind, hashes: Vec<[Hash; 2]>) -> Watched {
        Watched {
            kind,
            hashes,
            submitted: AtomicU64::new(0),
            begun: AtomicU64::new(0),
            amid: AtomicU64::new(0),
            replies: AtomicU64::new(0),
            wrong: AtomicU64::new(0),
            is_over: AtomicBool::new(false),
        }
    }

    fn has_hashes<A>(&self, reply: &Reply<A>) -> bool {
        match (reply.height, reply.header_hash, reply.commit_hash) {
            (0, None, None) => true,
            (0, _, _) => false,
            (height, Some(header), Some(commit)) => {
                self.hashes.get(height as usize - 1) == Some(&[header, commit])
            }
            _ => false,
        }
    }

    fn note_wrong(&self) {
        self.wrong.fetch_add(1, Ordering::SeqCst);
    }

    // Until so many are counted.
    fn wait_for(&self, count: &AtomicU64, wanted: u64) {
        for _ in 0..TURNS {
            if count.load(Ordering::SeqCst) >= wanted {
                return;
            }
            thread::yield_now();
        }
        self.note_wrong();
    }

    fn wait_for_readers(&self) {
        self.wait_for(&self.begun, READERS);
    }

    // Behind each block until there is a reply more, and behind half of them until each reader was answered since the
    // first.
    fn wait_behind_block(&self) {
        let replies = self.replies.load(Ordering::SeqCst);
        self.wait_for(&self.replies, replies.wrapping_add(1));
        if self.submitted.fetch_add(1, Ordering::SeqCst) == BLOCKS / 2 {
            self.wait_for(&self.amid, READERS);
        }
    }

    // Notes a reader's answers at one height more, its first ones or not, and tells whether they are behind the first
    // block and before the last one.
    fn note(&self, is_first: bool, was_amid: bool, height: u64) -> bool {
        let is_amid = was_amid || 0 < height && height < BLOCKS;
        self.replies.fetch_add(1, Ordering::SeqCst);
        if is_first {
            self.begun.fetch_add(1, Ordering::SeqCst);
        }
        if is_amid && !was_amid {
            self.amid.fetch_add(1, Ordering::SeqCst);
        }
        is_amid
    }
}

// Whether the row has the text of the last block that wrote it.
fn has_value(alloc: Global, kind: Kind, reply: &Reply<Option<Row>>) -> Result<bool, AllocError> {
    match &reply.answer {
        None => Ok(reply.height == 0),
        Some(row) => {
            let wanted = format!(in alloc; "{}", kind.last_write(reply.height))?;
            Ok(reply.height > 0 && row.value.as_slice() == wanted.as_bytes())
        }
    }
}

// The policy that an update in this block gives the chaincode.
fn policy_of(alloc: Global, block: u64) -> Result<String, AllocError> {
    format!(in alloc; "OR('Org1.peer','n{block}.peer')")
}

// Whether it is that of the last update, or the channel's where there is none.
fn has_policy(
    alloc: Global,
    kind: Kind,
    reply: &Reply<Option<PolicyText>>,
) -> Result<bool, AllocError> {
    let wanted = match kind.last_update(reply.height) {
        None => String::from_str(alloc, "OR('Org1.peer','Org2.peer')")?,
        Some(block) => policy_of(alloc, block)?,
    };
    match &reply.answer {
        None => Ok(false),
        Some(text) => Ok(text.as_str() == wanted.as_str()),
    }
}

// The height of the key's row, if it is right there.
fn height_of_row(
    alloc: Global,
    handle: &mut QueryHandle,
    watched: &Watched,
) -> Result<Option<u64>, Failed> {
    let reply = row_of_cc(handle, b"k")?;
    let is_right = watched.has_hashes(&reply) && has_value(alloc, watched.kind, &reply)?;
    Ok(is_right.then_some(reply.height))
}

// The height of the key's history, if it is right there.
fn height_of_history(
    alloc: Global,
    handle: &mut QueryHandle,
    watched: &Watched,
) -> Result<Option<u64>, Failed> {
    let reply = handle.history(alloc, &name(b"cc")?, &key(b"k")?)?;
    let count = reply.answer.len() as u64;
    let is_right = watched.has_hashes(&reply) && count == watched.kind.writes(reply.height);
    Ok(is_right.then_some(reply.height))
}

// The height of the chaincode's policy, if it is right there.
fn height_of_policy(
    alloc: Global,
    handle: &mut QueryHandle,
    watched: &Watched,
) -> Result<Option<u64>, Failed> {
    let reply = handle.definition(alloc, &name(b"cc")?)?;
    let is_right = watched.has_hashes(&reply) && has_policy(alloc, watched.kind, &reply)?;
    Ok(is_right.then_some(reply.height))
}

// Whether there is a height, which isn't below the last one. It is the last one then.
fn rises(least: &mut u64, height: Option<u64>) -> bool {
    match height {
        Some(height) if *least <= height => {
            *least = height;
            true
        }
        _ => false,
    }
}

// Asks for all of it once.
fn is_right(
    alloc: Global,
    handle: &mut QueryHandle,
    watched: &Watched,
    least: &mut u64,
) -> Result<bool, Failed> {
    let of_row = height_of_row(alloc, handle, watched)?;
    let of_history = height_of_history(alloc, handle, watched)?;
    let of_policy = height_of_policy(alloc, handle, watched)?;
    Ok(rises(least, of_row) && rises(least, of_history) && rises(least, of_policy))
}

// Until all blocks are submitted, and once more then.
fn are_right(alloc: Global, handle: &mut QueryHandle, watched: &Watched) -> Result<bool, Failed> {
    let mut least = 0;
    let mut is_amid = false;
    for turn in 0..TURNS {
        let is_over = watched.is_over.load(Ordering::SeqCst);
        if !is_right(alloc, handle, watched, &mut least)? {
            return Ok(false);
        }
        is_amid = watched.note(turn == 0, is_amid, least);
        if is_over {
            return Ok(true);
        }
        thread::yield_now();
    }
    Ok(false)
}

fn read(alloc: Global, mut handle: QueryHandle, watched: &Watched) {
    if !matches!(are_right(alloc, &mut handle, watched), Ok(true)) {
        watched.note_wrong();
    }
}

fn submit_all<R: Threads + Wait + Sync>(
    rt: &R,
    committer: &mut Committer,
    story: &Story,
    watched: &Watched,
) -> Result<Option<Receipt>, Failed>
    ensures { IfOk result (λ last. IfSome last (λ r. r.front.book ≡ committer.old.book)) }
{
    let mut last = None;
    watched.wait_for_readers();
    let keys = story.drafter.keys();
    for bytes in story.blocks_from(0) {
        last = Some(submit_next(rt, committer, keys, bytes.get().as_slice(), &Open)?);
        watched.wait_behind_block();
    }
    Ok(last)
}

// What a handle answers that was silent and is then told.
fn told_height(silent: &mut QueryHandle, last: Option<Receipt>) -> Result<u64, Failed>
    requires { IfSome last (λ r. r.front.book ≡ silent.old.book) }
{
    let Some(receipt) = last else {
        return Err(Failed::Missing("a receipt"));
    };
    silent.learn(&receipt);
    let reply = row_of_cc(silent, b"k")?;
    Ok(reply.height)
}

// Submits, ends the readers, and tells what the silent handle then answers.
fn submit_and_tell<R: Threads + Wait + Sync>(
    rt: &R,
    committer: &mut Committer,
    silent: &mut QueryHandle,
    story: &Story,
    watched: &Watched,
) -> Result<u64, Failed>
    requires { silent.old.book ≡ committer.old.book }
{
    let last = submit_all(rt, committer, story, watched);
    watched.is_over.store(true, Ordering::SeqCst);
    told_height(silent, last?)
}

// What the silent handle answers behind all, while the others read in threads of their own.
fn height_behind_all<R: Threads + Wait + Sync>(
    rt: &R,
    committer: &mut Committer,
    silent: &mut QueryHandle,
    handles: Vec<QueryHandle>,
    story: &Story,
    watched: &Watched,
) -> Result<u64, Failed>
    requires { silent.old.book ≡ committer.old.book }
{
    let alloc = story.alloc;
    thread::scope(
        thread::scope_env(),
        rt,
        |scope|
            requires { silent.now.book ≡ committer.now.book }
        {
            for handle in handles {
                let reader = move || read(alloc, handle, watched);
                if scope.spawn(reader).is_err() {
                    watched.note_wrong();
                }
            }
            submit_and_tell(rt, committer, silent, story, watched)
        },
    )
}

fn script_of(alloc: Global, kind: Kind, block: u64) -> Result<String, AllocError> {
    if kind.is_update(block) {
        let policy = policy_of(alloc, block)?;
        return format!(in alloc;
            "update Org1:client:c0 n{block} cc {policy}\nendorse Org1:peer:p0\n"
        );
    }
    format!(in alloc;
        "tx Org1:client:c0 n{block} cc\nns cc\nwrite k {block}\nendorse Org1:peer:p0\n"
    )
}

fn add_all(story: &mut Story, kind: Kind) -> Result<(), Failed> {
    for block in 0..BLOCKS {
        story.take_of(kind.version(), script_of(story.alloc, kind, block))?;
    }
    Ok(())
}

fn hashes_of(alloc: Global, world: &World) -> Result<Vec<[Hash; 2]>, AllocError> {
    let mut hashes = Vec::new(alloc);
    for number in 0..world.height() {
        if let Some(block) = world.block(number) {
            hashes.push([block.header_hash, block.commit_hash])?;
        }
    }
    Ok(hashes)
}

fn with_handles<R: Threads + Wait + Sync>(
    rt: &R,
    committer: &mut Committer,
    mut handles: Vec<QueryHandle>,
    story: &Story,
    watched: &Watched,
) -> Result<bool, Failed>
    requires { All (λ h. h.book ≡ committer.old.book) handles.items }
{
    let Some(mut silent) = handles.pop() else {
        return Err(Failed::Missing("a handle"));
    };
    let height = height_behind_all(rt, committer, &mut silent, handles, story, watched)?;
    Ok(height == BLOCKS && watched.wrong.load(Ordering::SeqCst) == 0)
}

fn with_committer<R: Threads + Wait + Sync>(
    rt: &R,
    story: &Story,
    watched: &Watched,
) -> Result<bool, Failed> {
    let (mut committer, handles) = opened(rt, story.alloc, WORKERS, 32)?;
    let is_right = with_handles(rt, &mut committer, handles, story, watched);
    committer.close(rt);
    is_right
}

fn is_watched_rightly<R: Threads + Wait + Sync>(
    rt: &R,
    story: &mut Story,
    kind: Kind,
) -> Result<bool, Failed> {
    add_all(story, kind)?;
    let watched = Watched::over(kind, hashes_of(story.alloc, story.drafter.world())?);
    with_committer(rt, story, &watched)
}

fn is_all_read_rightly<R: Threads + Wait + Sync>(
    rt: &R,
    alloc: Global,
    kind: Kind,
) -> Result<bool, Failed> {
    let mut story = Story::open(alloc, 0)?;
    is_watched_rightly(rt, &mut story, kind)
}

#[test]
fn readers_while_blocks_are_submitted(rt: HostRuntime) -> Result<(), Failed> {
    assert!(rt; is_all_read_rightly(&rt, rt.alloc(), Kind::Writes)?);
    Ok(())
}

#[test]
fn readers_while_policies_are_updated_too(rt: HostRuntime) -> Result<(), Failed> {
    assert!(rt; is_all_read_rightly(&rt, rt.alloc(), Kind::WritesAndUpdates)?);
    Ok(())
}

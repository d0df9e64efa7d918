//! A program of one's own over the committer: submits blocks while two threads query, queries what they left, and
//! reports why the last block's transactions have their flags. `docs/library.md` walks through it.
#![tactic(auto)]

ghost use Rattle.std.specs.Prelude.{◌≡◌, ◌==◌, length, All};

use cli_lines::{ReasonLine, write_accepted, write_reason, write_row};
use cli_values::Format;
use commit::{Channel, Committer, QueryFault, QueryHandle};
use gates::Open;
use ledger::Ledger;
use policy_eval::Verify;
use std::alloc::Global;
use std::fs::File;
use std::io::{Read, Write};
use std::sync::Wait;
use std::thread;
use std::thread::Threads;
use transaction::Identity;
use values::{Bytes, KeyRef, NameRef};

const CHANNEL: &str = "channel ch\nchaincode cc OR('Org1.peer','Org2.peer')\nadmin 'Org1.admin'\n";

const BLOCKS: [&str; 4] = ["block0.blk", "block1.blk", "block2.blk", "block3.blk"];

/// Takes every signature of 32 bytes. A real one looks up the identity's certificate, and checks ECDSA by its key.
#[derive(Clone, Copy)]
struct ByLength;

impl Verify for ByLength {
    ghost accepts = { λ _ _ _ signature. length signature == 32 };

    fn verify(&self, _identity: &Identity<'_>, _message: &[u8], signature: &[u8]) -> bool {
        signature.len() == 32
    }
}

fn read_blocks<R: std::rt::Files>(rt: &R, alloc: Global) -> anyhow::Result<Vec<Bytes>> {
    let mut blocks = Vec::new(alloc);
    for path in BLOCKS {
        let mut bytes = Vec::new(alloc);
        File::open(rt, path)?.read_to_end(&mut bytes)?;
        blocks.push(Bytes::from_vec(bytes))?;
    }
    Ok(blocks)
}

/// What a thread does that only queries: each answer is of one height, none below the one before.
fn ask(mut handle: QueryHandle) -> Result<u64, QueryFault> {
    let mut height = 0;
    for _ in 0..1_000 {
        height = handle.height()?.answer;
    }
    Ok(height)
}

/// Submits the blocks, and has the handle learn each receipt that it doesn't know, so that it never answers from
/// before.
fn commit_each<R: Threads + Wait + Sync, W: Write>(
    rt: &R,
    committer: &mut Committer,
    own: &mut QueryHandle,
    blocks: &[Bytes],
    out: &mut W,
) -> anyhow::Result<()>
    requires { own.old.book ≡ committer.old.book }
{
    for block in blocks {
        let receipt = committer.submit(rt, block.as_slice(), &ByLength, &Open)?;
        if !own.knows(&receipt) {
            own.learn(&receipt);
        }
        let flags = receipt.flags.as_slice();
        write_accepted(
            out,
            Format::Plain,
            receipt.number,
            &receipt.header_hash,
            flags,
        )?;
    }
    Ok(())
}

/// Submits the blocks while each of the other handles is queried by a thread of its own.
fn commit_while_asked<R: Threads + Wait + Sync, W: Write>(
    rt: &R,
    committer: &mut Committer,
    own: &mut QueryHandle,
    others: Vec<QueryHandle>,
    blocks: &[Bytes],
    out: &mut W,
) -> anyhow::Result<()>
    requires { own.old.book ≡ committer.old.book }
{
    thread::scope(
        thread::scope_env(),
        rt,
        |scope|
            requires { own.now.book ≡ committer.now.book }
        {
            for handle in others {
                scope.spawn(move || ask(handle))?;
            }
            commit_each(rt, committer, own, blocks, out)
        },
    )
}

/// The last handle stays with this thread, and reports what a car is like in the end.
fn serve<R: Threads + Wait + Sync, W: Write>(
    rt: &R,
    alloc: Global,
    committer: &mut Committer,
    handles: Vec<QueryHandle>,
    blocks: &[Bytes],
    out: &mut W,
) -> anyhow::Result<()>
    requires { All (λ handle. handle.book ≡ committer.old.book) handles.items }
{
    let mut others = handles;
    let Some(mut own) = others.pop() else {
        return Ok(());
    };
    commit_while_asked(rt, committer, &mut own, others, blocks, out)?;
    let key = KeyRef::new(b"car2");
    if let Some(row) = own.get(&NameRef::new(b"cc"), &key)?.answer {
        write_row(alloc, out, Format::Plain, key.as_slice(), &row)?;
    }
    Ok(())
}

/// Commits all blocks while others query.
fn commit_all<R: Threads + Wait + Sync, W: Write>(
    rt: &R,
    alloc: Global,
    blocks: &[Bytes],
    out: &mut W,
) -> anyhow::Result<()> {
    let channel = Channel::read(alloc, CHANNEL)?;
    let (mut committer, handles) = Committer::open(alloc, rt, channel, 2, 3)?;
    let ended = serve(rt, alloc, &mut committer, handles, blocks, out);
    committer.close(rt);
    ended
}

/// Why each transaction of the last block has its flag, after the blocks before it.
fn explain_behind<W: Write>(
    alloc: Global,
    ledger: &mut Ledger,
    blocks: &[Bytes],
    out: &mut W,
) -> anyhow::Result<()> {
    let Some((last, before)) = blocks.split_last() else {
        return Ok(());
    };
    for block in before {
        ledger.submit_one(block.as_slice(), &ByLength)?;
    }
    let reasons = ledger.explain(last.as_slice(), &ByLength)?;
    for (place, reason) in reasons.as_slice().iter().enumerate() {
        let line = ReasonLine::new(before.len() as u64, place, reason, None);
        write_reason(alloc, out, Format::Plain, &line)?;
    }
    Ok(())
}

/// The same committed again by a ledger, which returns reasons.
fn explain_last<W: Write>(alloc: Global, blocks: &[Bytes], out: &mut W) -> anyhow::Result<()> {
    let mut ledger = Ledger::open(alloc, Channel::read(alloc, CHANNEL)?);
    explain_behind(alloc, &mut ledger, blocks, out)
}

fn main(rt: HostRuntime) -> anyhow::Result<()> {
    let (alloc, mut out) = (rt.alloc(), rt.stdout());
    let blocks = read_blocks(&rt, alloc)?;
    commit_all(&rt, alloc, blocks.as_slice(), &mut out)?;
    explain_last(alloc, blocks.as_slice(), &mut out)
}

//! What a script says.
ghost use Rattle.std.specs.Prelude.{◌≡◌, IfOk};
ghost use Rattle.text_lines.specs.Lines.{statements};
ghost use Rattle.scripts.specs.Script.{script_from, script_of};
ghost use Rattle.scripts.specs.Within.{AreDrafted};

use crate::draft::Draft;
use crate::so_far::SoFar;
use key_book::KeyBook;
use std::alloc::{AllocError, Global};
use text_lines::Statements;
use transaction::BlockVersion;
use values::{Bytes, Items};

/// What a script says for one place of its block.
#[derive(Drop)]
pub enum Item {
    /// All bytes that stand there, at most 1,048,576.
    Raw(Bytes),
    /// A transaction or an update.
    Drafted(Draft),
}

/// What a script says up to its first faulty line.
#[derive(Drop)]
pub struct Script {
    /// The transactions and updates that ended before that line; at most 4,096.
    pub items: Items<Item>,
    /// The number of that line, from 1, or none where no line is faulty.
    pub fault: Option<u64>,
}

// Takes in the lines up to the first faulty one, and answers its number; where no line is faulty, all lines.
fn say_lines(
    alloc: Global,
    so_far: &mut SoFar,
    version: BlockVersion,
    text: &str,
    keys: &KeyBook,
) -> Result<Option<u64>, AllocError>
    ensures { IfOk result (λ fault. record { items = so_far.new.items; fault = fault } ≡ script_from version keys.now so_far.old (statements text.now)) }
{
    for statement in Statements::new(text) {
        so_far.go_before(version, statement.bytes)?;
        if !so_far.say(alloc, version, keys, &statement)? {
            return Ok(Some(statement.line));
        }
    }
    so_far.end_open()?;
    Ok(None)
}

fn read_lines(
    alloc: Global,
    version: BlockVersion,
    text: &str,
    keys: &KeyBook,
) -> Result<Script, AllocError>
    ensures { IfOk result (λ script. script ≡ script_of version keys.now text.now) }
{
    let mut so_far = SoFar::new(alloc);
    let fault = say_lines(alloc, &mut so_far, version, text, keys)?;
    Ok(Script {
        items: so_far.items,
        fault,
    })
}

/// Reads the draft script of a block of this version. Its lines are read as those of a channel text, and their parts
/// are separated by one or more spaces:
///
/// | line | says |
/// |---|---|
/// | `tx IDENTITY NONCE NAME` | a transaction begins: its creator, nonce and named chaincode |
/// | `update IDENTITY NONCE NAME TEXT` | an update of the chaincode NAME begins: its creator and nonce, and the text of the new policy |
/// | `raw HEX` | all bytes of a transaction or update; `raw` alone has none |
/// | `ns NAME` | a namespace of the transaction begins |
/// | `read KEY absent`, `read KEY NUM NUM` | a read, with its version's block and transaction |
/// | `range START END all`, `range START END part` | a range query, read to its end or not |
/// | `result KEY NUM NUM` | a result of the last range of this namespace |
/// | `write KEY VALUE`, `delete KEY` | a write |
/// | `policy KEY TEXT`, `nopolicy KEY` | a policy write |
/// | `endorse IDENTITY` | an endorser of the transaction or update, anywhere in it |
///
/// NONCE, KEY, START, END and VALUE are words, NUM has 1 to 20 decimal digits, and TEXT is the rest of the
/// line and not empty. A `tx`, `update` or `raw` line ends the transaction or update before it, whatever
/// follows the word; a block of version 1 has no `update` lines. A line is faulty that has none of these
/// forms, stands where nothing is open for it, names a creator or an endorser outside the book, or goes
/// over a limit: names have 1 to 64 bytes, keys 1 to 1,024, bounds up to 1,024, nonces up to 255, values
/// up to 2^32 - 1, policy texts up to 65,535 and raw transactions up to 1,048,576; versions fit a `u64`
/// and a `u32`; there are up to 65,535 of each list, 64 endorsers and 4,096 transactions and updates. Repeated keys
/// and bad policy texts are no faults.
///
/// Linear in the text, with a look-up in the book for each signer; the memory is linear in the text.
pub fn read(
    alloc: Global,
    version: BlockVersion,
    text: &str,
    keys: &KeyBook,
) -> Result<Script, AllocError>
    ensures said { IfOk result (λ script. script ≡ script_of version keys.now text.now) }
    ensures within { IfOk result (λ script. AreDrafted version keys.now script.items) }
{
    read_lines(alloc, version, text, keys)
}

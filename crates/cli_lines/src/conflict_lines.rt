//! The lines that state what made transactions invalid.
ghost use Rattle.std.specs.Prelude.{◌≡◌, List, OnOk};
ghost use Rattle.std.specs.List.{flat_map};
ghost use Rattle.std.specs.Io.KnownBytes.{Appends};
ghost use Rattle.reasons.specs.declared.reason.Reason.{Reason};
ghost use Rattle.cli_values.specs.declared.format.Format.TheVariants.{Plain, Json};
ghost use Rattle.conflicts.specs.Laws.{all_flags};
ghost use Rattle.conflicts.specs.Tally.{Counts};
ghost use Rattle.cli_lines.specs.ConflictLines as spec;

use crate::flag_name::name_of;
use cli_values::Format;
use conflicts::{ChaincodeLine, KeyCounts, Line, Tally};
use json_lines::write_value;
use rules::Flag;
use std::io;
use std::io::Write;
use text_lines::Word;

// By their numbers.
fn flags() -> [Flag; 12]
    ensures { result ≡ all_flags }
{
    [
        Flag::Valid,
        Flag::BadPayload,
        Flag::BadCreatorSignature,
        Flag::InvalidConfigTransaction,
        Flag::BadProposalTxId,
        Flag::DuplicateTxId,
        Flag::EndorsementPolicyFailure,
        Flag::MvccReadConflict,
        Flag::PhantomReadConflict,
        Flag::TargetChainNotFound,
        Flag::BadRwset,
        Flag::InvalidChaincode,
    ]
}

fn write_flag_words<W: Write>(out: &mut W, flag: Flag, count: u64) -> io::Result<()>
    ensures { OnOk result (Appends (W.contents out.old) (W.contents out.new) (spec.flag_line Plain flag count)) }
{
    let (code, name) = (flag.number(), name_of(flag));
    writeln!(out, "flag {code} {name} {count}")
}

fn write_flag_object<W: Write>(out: &mut W, flag: Flag, count: u64) -> io::Result<()>
    ensures { OnOk result (Appends (W.contents out.old) (W.contents out.new) (spec.flag_line Json flag count)) }
{
    let (code, name) = (flag.number(), name_of(flag));
    writeln!(
        out,
        "{{\"kind\":\"flag\",\"flag\":{code},\"name\":\"{name}\",\"count\":{count}}}"
    )
}

fn write_flag_count<W: Write>(out: &mut W, format: Format, flag: Flag, count: u64) -> io::Result<()>
    ensures { OnOk result (Appends (W.contents out.old) (W.contents out.new) (spec.line_of_some format flag count)) }
{
    if count == 0 {
        return Ok(());
    }
    match format {
        Format::Plain => write_flag_words(out, flag, count),
        Format::Json => write_flag_object(out, flag, count),
    }
}

fn write_counted<W: Write>(
    out: &mut W,
    format: Format,
    tally: &Tally,
    flag: &Flag,
) -> io::Result<()>
    ensures { OnOk result ((reasons : List Reason) → Counts reasons tally.now → Appends (W.contents out.old) (W.contents out.new) (spec.counted_line format reasons flag.now)) }
{
    write_flag_count(out, format, *flag, tally.with_flag(*flag))
}

fn write_counts_of<W: Write>(
    out: &mut W,
    format: Format,
    tally: &Tally,
    flags: &[Flag],
) -> io::Result<()>
    ensures { OnOk result ((reasons : List Reason) → Counts reasons tally.now → Appends (W.contents out.old) (W.contents out.new) (spec.lines_of format reasons flags.now)) }
{
    for flag in flags {
        write_counted(out, format, tally, flag)?;
    }
    Ok(())
}

// `flag FLAG NAME N` for each flag that transactions have, by the flags' numbers.
fn write_flag_counts<W: Write>(out: &mut W, format: Format, tally: &Tally) -> io::Result<()>
    ensures { OnOk result ((reasons : List Reason) → Counts reasons tally.now → Appends (W.contents out.old) (W.contents out.new) (spec.flag_lines format reasons)) }
{
    write_counts_of(out, format, tally, &flags())
}

// In which ways, to the end of the line.
fn write_ways<W: Write>(out: &mut W, counts: &KeyCounts) -> io::Result<()>
    ensures { OnOk result (Appends (W.contents out.old) (W.contents out.new) (spec.ways counts.now)) }
{
    let (stale, phantom) = (counts.stale_reads, counts.phantoms);
    let (policy, touched) = (counts.own_policy, counts.policy_touched);
    let in_block = counts.in_block;
    writeln!(
        out,
        " stale {stale} phantom {phantom} policy {policy} touched {touched} in-block {in_block}"
    )
}

fn write_key_words<W: Write>(out: &mut W, line: &Line) -> io::Result<()>
    ensures { OnOk result (Appends (W.contents out.old) (W.contents out.new) (spec.key_words line.now)) }
{
    let (namespace, key) = (line.key().namespace(), line.key().key());
    let (namespace, key) = (Word(namespace.as_slice()), Word(key.as_slice()));
    let total = line.counts().total();
    write!(out, "key {namespace} {key} {total}")?;
    write_ways(out, line.counts())
}

fn write_way_members<W: Write>(out: &mut W, counts: &KeyCounts) -> io::Result<()>
    ensures { OnOk result (Appends (W.contents out.old) (W.contents out.new) (spec.way_members counts.now)) }
{
    let (stale, phantom) = (counts.stale_reads, counts.phantoms);
    let (policy, touched) = (counts.own_policy, counts.policy_touched);
    let in_block = counts.in_block;
    writeln!(
        out,
        ",\"stale\":{stale},\"phantom\":{phantom},\"policy\":{policy},\"touched\":{touched},\"in_block\":{in_block}}}"
    )
}

fn write_key_members<W: Write>(
    out: &mut W,
    namespace: &[u8],
    key: &[u8],
    total: u128,
    counts: &KeyCounts,
) -> io::Result<()>
    ensures { OnOk result (Appends (W.contents out.old) (W.contents out.new) (spec.key_members namespace.now key.now total counts.now)) }
{
    write!(out, "{{\"kind\":\"key\",\"namespace\":")?;
    write_value(out, namespace)?;
    write!(out, ",\"key\":")?;
    write_value(out, key)?;
    write!(out, ",\"count\":{total}")?;
    write_way_members(out, counts)?;
    Ok(())
}

fn write_key_object<W: Write>(out: &mut W, line: &Line) -> io::Result<()>
    ensures { OnOk result (Appends (W.contents out.old) (W.contents out.new) (spec.key_line Json line.now)) }
{
    let (namespace, key) = (line.key().namespace(), line.key().key());
    let (namespace, key) = (namespace.as_slice(), key.as_slice());
    let counts = line.counts();
    write_key_members(out, namespace, key, counts.total(), counts)
}

fn write_key_count<W: Write>(out: &mut W, format: Format, line: &Line) -> io::Result<()>
    ensures { OnOk result (Appends (W.contents out.old) (W.contents out.new) (spec.key_line format line.now)) }
{
    match format {
        Format::Plain => write_key_words(out, line),
        Format::Json => write_key_object(out, line),
    }
}

// `key NAMESPACE KEY N stale N phantom N policy N touched N in-block N` for each line of a ranking of keys.
fn write_key_counts<W: Write>(out: &mut W, format: Format, lines: &[Line]) -> io::Result<()>
    ensures { OnOk result (Appends (W.contents out.old) (W.contents out.new) (flat_map (spec.key_line format) lines.now)) }
{
    for line in lines {
        write_key_count(out, format, line)?;
    }
    Ok(())
}

fn write_chaincode_words<W: Write>(out: &mut W, line: &ChaincodeLine) -> io::Result<()>
    ensures { OnOk result (Appends (W.contents out.old) (W.contents out.new) (spec.chaincode_words line.now)) }
{
    let (chaincode, principal) = (line.chaincode(), line.principal());
    let (chaincode, principal) = (Word(chaincode.as_slice()), Word(principal.as_slice()));
    let (transactions, times) = (line.transactions, line.times());
    writeln!(
        out,
        "chaincode {chaincode} {transactions} missing {principal} {times}"
    )
}

fn write_chaincode_members<W: Write>(
    out: &mut W,
    chaincode: &[u8],
    transactions: u128,
    principal: &[u8],
    times: u128,
) -> io::Result<()>
    ensures { OnOk result (Appends (W.contents out.old) (W.contents out.new) (spec.chaincode_members chaincode.now transactions principal.now times)) }
{
    write!(out, "{{\"kind\":\"chaincode\",\"chaincode\":")?;
    write_value(out, chaincode)?;
    write!(out, ",\"count\":{transactions},\"missing\":")?;
    write_value(out, principal)?;
    writeln!(out, ",\"times\":{times}}}")?;
    Ok(())
}

fn write_chaincode_object<W: Write>(out: &mut W, line: &ChaincodeLine) -> io::Result<()>
    ensures { OnOk result (Appends (W.contents out.old) (W.contents out.new) (spec.chaincode_line Json line.now)) }
{
    let (chaincode, principal) = (line.chaincode(), line.principal());
    let (chaincode, principal) = (chaincode.as_slice(), principal.as_slice());
    let (transactions, times) = (line.transactions, line.times());
    write_chaincode_members(out, chaincode, transactions, principal, times)
}

fn write_chaincode<W: Write>(out: &mut W, format: Format, line: &ChaincodeLine) -> io::Result<()>
    ensures { OnOk result (Appends (W.contents out.old) (W.contents out.new) (spec.chaincode_line format line.now)) }
{
    match format {
        Format::Plain => write_chaincode_words(out, line),
        Format::Json => write_chaincode_object(out, line),
    }
}

// `chaincode NAME N missing ORG.ROLE N` for each of these chaincodes.
fn write_chaincodes<W: Write>(
    out: &mut W,
    format: Format,
    lines: &[ChaincodeLine],
) -> io::Result<()>
    ensures { OnOk result (Appends (W.contents out.old) (W.contents out.new) (flat_map (spec.chaincode_line format) lines.now)) }
{
    for line in lines {
        write_chaincode(out, format, line)?;
    }
    Ok(())
}

/// Writes `flag FLAG NAME N` for each flag that transactions have, `key NAMESPACE KEY N stale N phantom N policy N
/// touched N in-block N` for each of these keys, and `chaincode NAME N missing ORG.ROLE N` for each of these
/// chaincodes; or an object of each. Takes no memory.
pub fn write_report<W: Write>(
    out: &mut W,
    format: Format,
    tally: &Tally,
    keys: &[Line],
    chaincodes: &[ChaincodeLine],
) -> io::Result<()>
    ensures { OnOk result ((reasons : List Reason) → Counts reasons tally.now → Appends (W.contents out.old) (W.contents out.new) (spec.report_text format reasons keys.now chaincodes.now)) }
{
    write_flag_counts(out, format, tally)?;
    write_key_counts(out, format, keys)?;
    write_chaincodes(out, format, chaincodes)?;
    Ok(())
}

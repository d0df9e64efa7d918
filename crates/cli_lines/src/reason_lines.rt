//! The words of reasons.
use crate::flag_name::name_of;
use crate::line_fault::LineFault;
use crate::members::{
    write_bytes, write_end, write_kind, write_label, write_name, write_number, write_place,
    write_text, write_version,
};
use crate::signers::{write_shortfall, write_signer};
use cli_values::Format;
use reasons::{
    EndorsementFault, FormFault, IdUse, KeyList, PhantomKey, PolicyOwner, PolicyTextFault,
    QueriedRange, RangeResult, Reason, StaleRead, UpdateFault,
};
use rules::{FirstUse, Flag};
use std::alloc::{AllocError, Global};
use std::io;
use std::io::Write;
use transaction::{OwnedIdentity, TxId, Version};

fn list_name(list: KeyList) -> &'static str {
    match list {
        KeyList::Reads => "reads",
        KeyList::Writes => "writes",
        KeyList::PolicyWrites => "policies",
    }
}

fn text_fault_name(fault: PolicyTextFault) -> &'static str {
    match fault {
        PolicyTextFault::TooLarge => "too-large",
        PolicyTextFault::Syntax => "syntax",
        PolicyTextFault::Role => "role",
        PolicyTextFault::Threshold => "threshold",
        PolicyTextFault::TooDeep => "too-deep",
    }
}

/// ` FLAG NAME`, or two members.
pub(crate) fn write_flag<W: Write>(out: &mut W, format: Format, flag: Flag) -> io::Result<()> {
    write_number(out, format, "flag", u64::from(flag.number()))?;
    write_text(out, format, "name", name_of(flag))
}

// The word that distinguishes reasons.
fn write_word<W: Write>(out: &mut W, format: Format, word: &str) -> io::Result<()> {
    write_text(out, format, "reason", word)
}

// ` NAMESPACE KEY`
fn write_key<W: Write>(
    out: &mut W,
    format: Format,
    namespace: &[u8],
    key: &[u8],
) -> io::Result<()> {
    write_bytes(out, format, "namespace", namespace)?;
    write_bytes(out, format, "key", key)
}

// ` was VERSION is VERSION`
fn write_versions<W: Write>(
    out: &mut W,
    format: Format,
    read: &Option<Version>,
    there: &Option<Version>,
) -> io::Result<()> {
    write_version(out, format, "was", read)?;
    write_version(out, format, "is", there)
}

// ` NAMESPACE START END key KEY`
fn write_range<W: Write>(
    out: &mut W,
    format: Format,
    range: &QueriedRange,
    key: &[u8],
) -> io::Result<()> {
    write_bytes(out, format, "namespace", range.namespace.as_slice())?;
    write_bytes(out, format, "start", range.start.as_slice())?;
    write_bytes(out, format, "end", range.end.as_slice())?;
    write_label(out, format, "key")?;
    write_bytes(out, format, "key", key)
}

// ` by TX`
fn write_by<W: Write>(out: &mut W, format: Format, writer: u32) -> io::Result<()> {
    write_label(out, format, "by")?;
    write_number(out, format, "by", u64::from(writer))
}

// if there is one
fn write_writer<W: Write>(out: &mut W, format: Format, writer: Option<u32>) -> io::Result<()> {
    match writer {
        Some(writer) => write_by(out, format, writer),
        None => Ok(()),
    }
}

fn write_read<W: Write>(out: &mut W, format: Format, read: &StaleRead) -> io::Result<()> {
    write_word(out, format, "read")?;
    write_key(out, format, read.namespace.as_slice(), read.key.as_slice())?;
    write_versions(out, format, &read.read, &read.there)?;
    write_writer(out, format, read.writer)
}

fn write_phantom<W: Write>(out: &mut W, format: Format, phantom: &PhantomKey) -> io::Result<()> {
    write_word(out, format, "range")?;
    write_range(out, format, &phantom.range, phantom.key.as_slice())?;
    write_versions(out, format, &phantom.read, &phantom.there)?;
    let extent = if phantom.exhausted { "all" } else { "part" };
    write_text(out, format, "extent", extent)?;
    write_writer(out, format, phantom.writer)
}

// ` NAMESPACE START END key KEY range N result M`
fn write_result<W: Write>(
    out: &mut W,
    format: Format,
    word: &str,
    found: &RangeResult,
) -> io::Result<()> {
    write_word(out, format, word)?;
    write_range(out, format, &found.range, found.key.as_slice())?;
    write_label(out, format, "range")?;
    write_number(out, format, "range", found.range_place as u64)?;
    write_label(out, format, "result")?;
    write_number(out, format, "result", found.place as u64)
}

fn write_repeated_key<W: Write>(
    out: &mut W,
    format: Format,
    namespace: &[u8],
    list: KeyList,
    key: &[u8],
) -> io::Result<()> {
    write_word(out, format, "repeated")?;
    write_bytes(out, format, "namespace", namespace)?;
    write_text(out, format, "list", list_name(list))?;
    write_bytes(out, format, "key", key)
}

fn write_text_fault<W: Write>(
    out: &mut W,
    format: Format,
    fault: PolicyTextFault,
) -> io::Result<()> {
    write_text(out, format, "fault", text_fault_name(fault))
}

fn write_form<W: Write>(out: &mut W, format: Format, fault: &FormFault) -> io::Result<()> {
    match fault {
        FormFault::NamespaceRepeats { namespace } => {
            write_word(out, format, "repeated")?;
            write_bytes(out, format, "namespace", namespace.as_slice())
        }
        FormFault::KeyRepeats {
            namespace,
            list,
            key,
        } => write_repeated_key(out, format, namespace.as_slice(), *list, key.as_slice()),
        FormFault::ResultFalls(found) => write_result(out, format, "fallen", found),
        FormFault::ResultLeaves(found) => write_result(out, format, "outside", found),
        FormFault::UnreadablePolicy {
            namespace,
            key,
            fault,
        } => {
            write_word(out, format, "policy")?;
            write_key(out, format, namespace.as_slice(), key.as_slice())?;
            write_text_fault(out, format, *fault)
        }
    }
}

// ` BLOCK TX FLAG NAME`
fn write_placed<W: Write>(
    out: &mut W,
    format: Format,
    block: u64,
    place: u32,
    flag: Flag,
) -> io::Result<()> {
    write_place(out, format, block, place)?;
    write_flag(out, format, flag)
}

// ` used BLOCK TX FLAG NAME`; its members are those of an object
fn write_used<W: Write>(
    out: &mut W,
    format: Format,
    block: u64,
    place: u32,
    flag: Flag,
) -> io::Result<()> {
    write_word(out, format, "used")?;
    match format {
        Format::Plain => write_placed(out, format, block, place, flag),
        Format::Json => {
            let (code, name) = (flag.number(), name_of(flag));
            write!(out, ",\"used\":{{\"block\":{block},\"tx\":{place}")?;
            write!(out, ",\"flag\":{code},\"name\":\"{name}\"}}")
        }
    }
}

fn write_use<W: Write>(out: &mut W, format: Format, number: u64, first: &IdUse) -> io::Result<()> {
    match first {
        IdUse::Earlier { block, place, flag } => write_used(out, format, *block, *place, *flag),
        IdUse::Here { place, flag } => write_used(out, format, number, *place, *flag),
    }
}

fn write_touched<W: Write>(
    out: &mut W,
    format: Format,
    namespace: &[u8],
    key: &[u8],
    place: u32,
) -> io::Result<()> {
    write_word(out, format, "touched")?;
    write_key(out, format, namespace, key)?;
    write_number(out, format, "by", u64::from(place))
}

fn owner_name(owner: PolicyOwner) -> &'static str {
    match owner {
        PolicyOwner::OfKey => "key",
        PolicyOwner::OfChaincode => "chaincode",
    }
}

fn write_chaincode<W: Write>(
    out: &mut W,
    format: Format,
    word: &str,
    chaincode: &[u8],
) -> io::Result<()> {
    write_word(out, format, word)?;
    write_bytes(out, format, "chaincode", chaincode)
}

fn write_endorsement<W: Write>(
    out: &mut W,
    format: Format,
    fault: &EndorsementFault,
    policy: &str,
) -> io::Result<()> {
    match fault {
        EndorsementFault::Touched {
            namespace,
            key,
            place,
        } => write_touched(out, format, namespace.as_slice(), key.as_slice(), *place),
        EndorsementFault::Unsatisfied {
            namespace,
            key,
            owner,
            shortfall,
        } => {
            write_word(out, format, owner_name(*owner))?;
            write_key(out, format, namespace.as_slice(), key.as_slice())?;
            write_shortfall(out, format, policy, shortfall)
        }
        EndorsementFault::ChaincodeUnsatisfied {
            chaincode,
            shortfall,
        } => {
            write_chaincode(out, format, "named", chaincode.as_slice())?;
            write_shortfall(out, format, policy, shortfall)
        }
    }
}

fn write_update<W: Write>(
    out: &mut W,
    format: Format,
    fault: &UpdateFault,
    policy: &str,
) -> io::Result<()> {
    match fault {
        UpdateFault::NotAlone => write_word(out, format, "not-alone"),
        UpdateFault::NoAdminPolicy => write_word(out, format, "no-admin-policy"),
        UpdateFault::NoDefinition { chaincode } => {
            write_chaincode(out, format, "undefined", chaincode.as_slice())
        }
        UpdateFault::NoPolicy(fault) => {
            write_word(out, format, "policy")?;
            write_text_fault(out, format, *fault)
        }
        UpdateFault::AdminUnsatisfied(shortfall) => {
            write_word(out, format, "admin")?;
            write_shortfall(out, format, policy, shortfall)
        }
    }
}

// ` creator SIGNER`
fn write_creator<W: Write>(out: &mut W, format: Format, creator: &OwnedIdentity) -> io::Result<()> {
    write_word(out, format, "creator")?;
    write_name(out, format, "creator")?;
    write_signer(out, format, creator)
}

// ` WORD VALUE`, which is a member of the word's name
fn write_named<W: Write>(out: &mut W, format: Format, word: &str, bytes: &[u8]) -> io::Result<()> {
    write_word(out, format, word)?;
    write_bytes(out, format, word, bytes)
}

// What follows the flag's name, of a place of the block of this number.
fn write_words<W: Write>(
    out: &mut W,
    format: Format,
    number: u64,
    reason: &Reason,
    policy: &str,
) -> io::Result<()> {
    match reason {
        Reason::NoFault | Reason::NoTransaction => Ok(()),
        Reason::BadSignature { creator } => write_creator(out, format, creator),
        Reason::InvalidUpdate(fault) => write_update(out, format, fault, policy),
        Reason::OtherId { wanted } => write_named(out, format, "wanted", wanted),
        Reason::UsedId(first) => write_use(out, format, number, first),
        Reason::NotEndorsed(fault) => write_endorsement(out, format, fault, policy),
        Reason::ReadConflict(read) => write_read(out, format, read),
        Reason::PhantomConflict(phantom) => write_phantom(out, format, phantom),
        Reason::OtherChannel { channel } => {
            write_named(out, format, "channel", channel.as_slice())
        }
        Reason::NotInForm(fault) => write_form(out, format, fault),
        Reason::Undefined { chaincode } => {
            write_chaincode(out, format, "undefined", chaincode.as_slice())
        }
    }
}

// The canonical text of the policy that the reason names, empty if it names none.
fn policy_of(alloc: Global, reason: &Reason) -> Result<String, AllocError> {
    match reason {
        Reason::NotEndorsed(EndorsementFault::Unsatisfied { shortfall, .. })
        | Reason::NotEndorsed(EndorsementFault::ChaincodeUnsatisfied { shortfall, .. })
        | Reason::InvalidUpdate(UpdateFault::AdminUnsatisfied(shortfall)) => {
            shortfall.policy.text(alloc)
        }
        _ => Ok(String::new(alloc)),
    }
}

/// A place of a block, and why it has its flag.
#[derive(Clone, Copy)]
pub struct ReasonLine<'r> {
    /// The block's number.
    number: u64,
    place: usize,
    reason: &'r Reason,
    /// The transaction's id, if it is to be written.
    id: Option<&'r TxId>,
}

impl<'r> ReasonLine<'r> {
    /// A place, from 0, of the block of this number, with its reason; and the transaction's id, if the line is to have
    /// it.
    pub fn new(
        number: u64,
        place: usize,
        reason: &'r Reason,
        id: Option<&'r TxId>,
    ) -> ReasonLine<'r> {
        ReasonLine {
            number,
            place,
            reason,
            id,
        }
    }
}

// The place comes first in a plain line, which has no other kind.
fn write_transaction<W: Write>(out: &mut W, format: Format, place: usize) -> io::Result<()> {
    match format {
        Format::Plain => write!(out, "{place}"),
        Format::Json => write!(out, "{{\"kind\":\"reason\",\"tx\":{place}"),
    }
}

/// Writes `TX FLAG NAME` and the words of the reason, and `id ID` after them if the line has the id. The memory is the
/// text of the policy that it names, which is made before any of the line is written.
pub fn write_reason<W: Write>(
    alloc: Global,
    out: &mut W,
    format: Format,
    line: &ReasonLine<'_>,
) -> Result<(), LineFault> {
    let policy = policy_of(alloc, line.reason)?;
    write_transaction(out, format, line.place)?;
    write_flag(out, format, line.reason.flag())?;
    write_words(out, format, line.number, line.reason, policy.as_str())?;
    if let Some(id) = line.id {
        write_label(out, format, "id")?;
        write_bytes(out, format, "id", id)?;
    }
    Ok(write_end(out, format)?)
}

/// Writes `earlier BLOCK TX FLAG NAME`: where an id was used first, and the flag that it was given. Takes no memory.
pub fn write_earlier<W: Write>(out: &mut W, format: Format, first: &FirstUse) -> io::Result<()> {
    write_kind(out, format, "earlier")?;
    write_placed(out, format, first.block, first.place, first.flag)?;
    write_end(out, format)
}

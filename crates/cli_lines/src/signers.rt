//! Who signed, and what a policy is missing.
use crate::members::{write_label, write_text};
use cli_values::Format;
use json_lines::write_value;
use policy::{PolicyRole, Principal};
use reasons::Shortfall;
use std::io;
use std::io::Write;
use text_lines::Word;
use transaction::{Identity, OwnedIdentity, Role};

fn role_name(role: Role) -> &'static str {
    match role {
        Role::Client => "client",
        Role::Peer => "peer",
        Role::Admin => "admin",
        Role::Orderer => "orderer",
    }
}

fn policy_role_name(role: PolicyRole) -> &'static str {
    match role {
        PolicyRole::Member => "member",
        PolicyRole::Admin => "admin",
        PolicyRole::Client => "client",
        PolicyRole::Peer => "peer",
        PolicyRole::Orderer => "orderer",
    }
}

/// Writes `ORG:ROLE:LABEL`, LABEL as a word, as key books and scripts have it. Takes no memory.
pub fn write_identity<W: Write>(out: &mut W, identity: &Identity<'_>) -> io::Result<()> {
    let (org, label) = (
        Word(identity.org.as_slice()),
        Word(identity.label.as_slice()),
    );
    let role = role_name(identity.role);
    write!(out, "{org}:{role}:{label}")
}

fn write_identity_object<W: Write>(out: &mut W, identity: &Identity<'_>) -> io::Result<()> {
    let role = role_name(identity.role);
    write!(out, "{{\"org\":")?;
    write_value(out, identity.org.as_slice())?;
    write!(out, ",\"role\":\"{role}\",\"label\":")?;
    write_value(out, identity.label.as_slice())?;
    write!(out, "}}")
}

/// An identity, or an object of it.
pub(crate) fn write_signer<W: Write>(
    out: &mut W,
    format: Format,
    signer: &OwnedIdentity,
) -> io::Result<()> {
    match format {
        Format::Plain => write_identity(out, &signer.lend()),
        Format::Json => write_identity_object(out, &signer.lend()),
    }
}

// ` SIGNER` for each of these, in JSON with a comma before it
fn write_more_signers<W: Write>(
    out: &mut W,
    format: Format,
    signers: &[OwnedIdentity],
) -> io::Result<()> {
    let between = match format {
        Format::Plain => " ",
        Format::Json => ",",
    };
    for signer in signers {
        write!(out, "{between}")?;
        write_signer(out, format, signer)?;
    }
    Ok(())
}

fn write_signer_list<W: Write>(
    out: &mut W,
    format: Format,
    signers: &[OwnedIdentity],
) -> io::Result<()> {
    if let Some((first, more)) = signers.split_first() {
        write_signer(out, format, first)?;
        write_more_signers(out, format, more)?;
    }
    Ok(())
}

// ` SIGNER ..`, or a list
fn write_signers<W: Write>(
    out: &mut W,
    format: Format,
    name: &str,
    signers: &[OwnedIdentity],
) -> io::Result<()> {
    match format {
        Format::Plain => write_more_signers(out, format, signers),
        Format::Json => {
            write!(out, ",\"{name}\":[")?;
            write_signer_list(out, format, signers)?;
            write!(out, "]")
        }
    }
}

// ` missing ORG.ROLE`; a name is written as it is, as word and in a string
fn write_missing<W: Write>(
    out: &mut W,
    format: Format,
    missing: &Option<Principal>,
) -> io::Result<()> {
    match missing {
        Some(principal) => {
            let org = Word(principal.org.as_slice());
            let role = policy_role_name(principal.role);
            match format {
                Format::Plain => write!(out, " missing {org}.{role}"),
                Format::Json => write!(out, ",\"missing\":\"{org}.{role}\""),
            }
        }
        None => Ok(()),
    }
}

fn write_order<W: Write>(out: &mut W, format: Format) -> io::Result<()> {
    match format {
        Format::Plain => write!(out, " order"),
        Format::Json => write!(out, ",\"order\":true"),
    }
}

/// ` POLICY SIGNER .. [refused ENDORSER ..] [missing ORG.ROLE] [order]`
pub(crate) fn write_shortfall<W: Write>(
    out: &mut W,
    format: Format,
    policy: &str,
    shortfall: &Shortfall,
) -> io::Result<()> {
    write_text(out, format, "policy", policy)?;
    write_signers(out, format, "signers", shortfall.signers.as_slice())?;
    let refused = shortfall.refused.as_slice();
    if !refused.is_empty() {
        write_label(out, format, "refused")?;
        write_signers(out, format, "refused", refused)?;
    }
    write_missing(out, format, &shortfall.missing)?;
    if shortfall.another_order {
        write_order(out, format)?;
    }
    Ok(())
}

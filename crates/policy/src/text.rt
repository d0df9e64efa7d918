ghost use Rattle.std.specs.Prelude.{◌≡◌, ◌++◌, OnOk, string_bytes};
ghost use Rattle.policy.specs.Token.{role_name};
ghost use Rattle.policy.specs.Text.{text_of, head_text};
ghost use Rattle.policy.specs.Written.{principal_text, separator_text};

use crate::tree::{Expression, Node, PolicyRole, Principal};
use std::alloc::{AllocError, Global};
use values::Name;

/// Adds the tree's text at the end. Linear in the text.
pub fn put(alloc: Global, out: &mut String, expression: &Expression) -> Result<(), AllocError>
    ensures { OnOk result (string_bytes out.new ≡ string_bytes out.old ++ text_of expression.now) }
{
    match &expression.node {
        Node::Signed(principal) => put_principal(out, principal),
        Node::Gate { threshold, members } => {
            put_head(alloc, out, *threshold, members.len())?;
            for (i, member) in members.iter().enumerate() {
                put(alloc, out, member)?;
                put_separator(out, i + 1 < members.len())?;
            }
            Ok(())
        }
    }
}

fn put_principal(out: &mut String, principal: &Principal) -> Result<(), AllocError>
    ensures { OnOk result (string_bytes out.new ≡ string_bytes out.old ++ principal_text principal.now) }
{
    out.push_str("'")?;
    put_name(out, &principal.org)?;
    out.push_str(".")?;
    out.push_str(role_text(principal.role))?;
    out.push_str("'")
}

/// A name's bytes are ASCII.
fn put_name(out: &mut String, name: &Name) -> Result<(), AllocError>
    ensures { OnOk result (string_bytes out.new ≡ string_bytes out.old ++ name.now) }
{
    match str::from_utf8(name.as_slice()) {
        Ok(text) => out.push_str(text),
        Err(_) => unreachable!(),
    }
}

fn role_text(role: PolicyRole) -> &'static str
    ensures { result.now ≡ role_name role }
{
    match role {
        PolicyRole::Member => "member",
        PolicyRole::Admin => "admin",
        PolicyRole::Client => "client",
        PolicyRole::Peer => "peer",
        PolicyRole::Orderer => "orderer",
    }
}

/// How a gate begins that asks for so many of its members.
fn put_head(
    alloc: Global,
    out: &mut String,
    threshold: u16,
    members: usize,
) -> Result<(), AllocError>
    ensures { OnOk result (string_bytes out.new ≡ string_bytes out.old ++ head_text threshold members) }
{
    if threshold == 1 {
        out.push_str("OR(")
    } else if threshold as usize == members {
        out.push_str("AND(")
    } else {
        let digits = threshold.to_string(alloc)?;
        out.push_str("OutOf(")?;
        out.push_str(digits.as_str())?;
        out.push_str(",")
    }
}

/// A comma, or the parenthesis behind the last member.
fn put_separator(out: &mut String, goes_on: bool) -> Result<(), AllocError>
    ensures { OnOk result (string_bytes out.new ≡ string_bytes out.old ++ separator_text goes_on) }
{
    out.push_str(if goes_on { "," } else { ")" })
}

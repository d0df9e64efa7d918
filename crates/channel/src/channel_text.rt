//! The lines of a channel text, one after the other.
ghost use Rattle.std.specs.Prelude.{◌≡◌, ◌<◌, Ok, OnOk, IfOk, IfErr};
ghost use Rattle.std.specs.FinMap.{insert, len};
ghost use Rattle.text_lines.specs.Lines.{statements};
ghost use Rattle.channel.specs.Configuration.{max_chaincodes};
ghost use Rattle.channel.specs.Fault.{Refuses};
ghost use Rattle.channel.specs.Text as spec;
ghost use Rattle.channel.specs.Lines.{seen};

use crate::ChannelFault;
use policy::{Definitions, Policy};
use std::alloc::{AllocError, Global};
use std::marker::Model;
use text_lines::{Statements, first_part};
use values::{Name, NameRef, is_name};

/// The most chaincodes that a channel has.
pub(crate) const MAX_CHAINCODES: usize = 256;

// What one line states.
enum Saying<'a> {
    NamesChannel(NameRef<'a>),
    Defines {
        chaincode: NameRef<'a>,
        policy_text: &'a [u8],
    },
    SetsAdmin {
        policy_text: &'a [u8],
    },
    NothingKnown,
}

fn says_channel(name: &[u8]) -> Saying<'_>
    ensures { seen result ≡ spec.says_channel name.now }
{
    if is_name(name) {
        Saying::NamesChannel(NameRef::new(name))
    } else {
        Saying::NothingKnown
    }
}

fn says_chaincode<'a>(chaincode: &'a [u8], policy_text: &'a [u8]) -> Saying<'a>
    ensures { seen result ≡ spec.says_chaincode chaincode.now policy_text.now }
{
    if is_name(chaincode) && !policy_text.is_empty() {
        Saying::Defines {
            chaincode: NameRef::new(chaincode),
            policy_text,
        }
    } else {
        Saying::NothingKnown
    }
}

fn says_admin(policy_text: &[u8]) -> Saying<'_>
    ensures { seen result ≡ spec.says_admin policy_text.now }
{
    if !policy_text.is_empty() {
        Saying::SetsAdmin { policy_text }
    } else {
        Saying::NothingKnown
    }
}

fn says(line: &[u8]) -> Saying<'_>
    ensures { seen result ≡ spec.says line.now }
{
    let (word, rest) = first_part(line);
    if word == b"channel".as_slice() {
        says_channel(rest)
    } else if word == b"chaincode".as_slice() {
        let (chaincode, policy_text) = first_part(rest);
        says_chaincode(chaincode, policy_text)
    } else if word == b"admin".as_slice() {
        says_admin(rest)
    } else {
        Saying::NothingKnown
    }
}

fn policy_of_line(alloc: Global, line: u64, text: &[u8]) -> Result<Policy, ChannelFault>
    ensures ok { IfOk result (λ policy. spec.policy_on line text.now ≡ Ok policy) }
    ensures err { IfErr result (λ fault. Refuses fault (spec.policy_on line text.now)) }
{
    Policy::parse_bytes(alloc, text).map_err(|fault| ChannelFault::of_policy(line, fault))
}

// If memory runs out between them, one of the maps has the policy.
fn set_in_both(
    alloc: Global,
    one: &mut Definitions,
    other: &mut Definitions,
    chaincode: &NameRef<'_>,
    policy: Policy,
) -> Result<(), AllocError>
    ensures { OnOk result ((one.new ≡ insert one.old chaincode.now policy) × (other.new ≡ insert other.old chaincode.now policy)) }
{
    let chaincode = chaincode.copy(alloc)?;
    let copied = policy.copy(alloc)?;
    one.set(&chaincode, policy)?;
    other.set(&chaincode, copied)
}

// What the lines so far state, with a second copy of the definitions. A line takes it by value: if memory runs out
// between the two maps they differ, and then nothing is left of it.
#[derive(Drop)]
pub(crate) struct SoFar {
    pub(crate) name: Option<Name>,
    pub(crate) definitions: Definitions,
    pub(crate) copied: Definitions,
    pub(crate) admin: Option<Policy>,
}

impl Model for SoFar {
    ghost use Rattle.std.specs.Prelude.{◌≡◌};
    ghost use Rattle.std.specs.Coded.{codes};
    ghost use Rattle.policy.specs.Tree.{tree_code};
    ghost use Rattle.policy.specs.Policies.{policies_code};
    ghost use Rattle.channel.specs.Text as spec;

    ghost Value = { spec.SoFar };

    ghost coded = { Prim.hlevel (codes, tree_code, policies_code) };

    ghost use Rattle.channel.specs.Configuration.{AreFew};

    ghost view = { λ s. record { name = s.name; definitions = s.definitions; admin = s.admin } };

    ghost invariant = { λ s. AreFew s.definitions × (s.copied ≡ s.definitions) };
}

impl SoFar {
    fn new(alloc: Global) -> SoFar
        ensures { result ≡ spec.nothing_said }
    {
        SoFar {
            name: None,
            definitions: Definitions::new(alloc),
            copied: Definitions::new(alloc),
            admin: None,
        }
    }

    fn name_channel(
        mut self,
        alloc: Global,
        line: u64,
        name: &NameRef<'_>,
    ) -> Result<SoFar, ChannelFault>
        ensures ok { IfOk result (λ so_far. spec.said_by line self (spec.names_channel name.now) ≡ Ok so_far) }
        ensures err { IfErr result (λ fault. Refuses fault (spec.said_by line self (spec.names_channel name.now))) }
    {
        if self.name.is_some() {
            return Err(ChannelFault::Repeated(line));
        }
        self.name = Some(name.copy(alloc)?);
        Ok(self)
    }

    // The policy that a line gives a chaincode, if it may be defined.
    fn new_policy(
        &self,
        alloc: Global,
        line: u64,
        chaincode: &NameRef<'_>,
        policy_text: &[u8],
    ) -> Result<Policy, ChannelFault>
        ensures few { IfOk result (λ _. len self.now.definitions < max_chaincodes) }
        ensures ok { IfOk result (λ policy. spec.said_by line self.now (spec.defines chaincode.now policy_text.now) ≡ Ok (spec.with_policy self.now chaincode.now policy)) }
        ensures err { IfErr result (λ fault. Refuses fault (spec.said_by line self.now (spec.defines chaincode.now policy_text.now))) }
    {
        if self.definitions.of(chaincode).is_some() {
            return Err(ChannelFault::Repeated(line));
        }
        let policy = policy_of_line(alloc, line, policy_text)?;
        if self.definitions.len() >= MAX_CHAINCODES {
            return Err(ChannelFault::TooMany(line));
        }
        Ok(policy)
    }

    fn define(
        mut self,
        alloc: Global,
        line: u64,
        chaincode: &NameRef<'_>,
        policy_text: &[u8],
    ) -> Result<SoFar, ChannelFault>
        ensures ok { IfOk result (λ so_far. spec.said_by line self (spec.defines chaincode.now policy_text.now) ≡ Ok so_far) }
        ensures err { IfErr result (λ fault. Refuses fault (spec.said_by line self (spec.defines chaincode.now policy_text.now))) }
    {
        let policy = self.new_policy(alloc, line, chaincode, policy_text)?;
        set_in_both(
            alloc,
            &mut self.definitions,
            &mut self.copied,
            chaincode,
            policy,
        )?;
        Ok(self)
    }

    fn set_admin(
        mut self,
        alloc: Global,
        line: u64,
        policy_text: &[u8],
    ) -> Result<SoFar, ChannelFault>
        ensures ok { IfOk result (λ so_far. spec.said_by line self (spec.sets_admin policy_text.now) ≡ Ok so_far) }
        ensures err { IfErr result (λ fault. Refuses fault (spec.said_by line self (spec.sets_admin policy_text.now))) }
    {
        if self.admin.is_some() {
            return Err(ChannelFault::Repeated(line));
        }
        self.admin = Some(policy_of_line(alloc, line, policy_text)?);
        Ok(self)
    }

    // What is stated with one more line.
    fn say(self, alloc: Global, line: u64, bytes: &[u8]) -> Result<SoFar, ChannelFault>
        ensures ok { IfOk result (λ so_far. spec.said_by line self (spec.says bytes.now) ≡ Ok so_far) }
        ensures err { IfErr result (λ fault. Refuses fault (spec.said_by line self (spec.says bytes.now))) }
    {
        match says(bytes) {
            Saying::NamesChannel(name) => self.name_channel(alloc, line, &name),
            Saying::Defines {
                chaincode,
                policy_text,
            } => self.define(alloc, line, &chaincode, policy_text),
            Saying::SetsAdmin { policy_text } => self.set_admin(alloc, line, policy_text),
            Saying::NothingKnown => Err(ChannelFault::Line(line)),
        }
    }
}

pub(crate) fn read_lines(alloc: Global, text: &str) -> Result<SoFar, ChannelFault>
    ensures ok { IfOk result (λ so_far. spec.said_from spec.nothing_said (statements text.now) ≡ Ok so_far) }
    ensures err { IfErr result (λ fault. Refuses fault (spec.said_from spec.nothing_said (statements text.now))) }
{
    let mut so_far = SoFar::new(alloc);
    for statement in Statements::new(text) {
        so_far = so_far.say(alloc, statement.line, statement.bytes)?;
    }
    Ok(so_far)
}

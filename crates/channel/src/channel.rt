ghost use Rattle.std.specs.Prelude.{◌≡◌, Some, Ok, IfOk, IfErr, IsErrAnd};
ghost use Rattle.channel.specs.Fault.{fault_of, Refuses};
ghost use Rattle.channel.specs.Text.{configuration_of, whole};

use crate::channel_text::{SoFar, read_lines};
use crate::{ChannelFault, Configuration};
use policy::Definitions;
use std::alloc::Global;
use std::marker::Model;
use values::Name;

/// What a channel text configures, and a second copy of its chaincodes' policies: those in the configuration stay, and
/// the copies may be updated. A contract sees the configuration.
#[derive(Drop)]
pub struct Channel {
    configuration: Configuration,
    definitions: Definitions,
}

impl Model for Channel {
    ghost use Rattle.std.specs.Prelude.{◌≡◌};
    ghost use Rattle.std.specs.Coded.{codes};
    ghost use Rattle.policy.specs.Tree.{tree_code};
    ghost use Rattle.policy.specs.Policies.{policies_code};
    ghost use Rattle.channel.specs.Configuration.{Configuration};

    ghost Value = { Configuration };

    ghost coded = { Prim.hlevel (codes, tree_code, policies_code) };

    ghost view = { λ c. c.configuration };

    ghost invariant = { λ c. c.definitions ≡ c.configuration.definitions };
}

impl Channel {
    // What all lines state, if one of them names the channel.
    fn from_lines(lines: SoFar) -> Result<Channel, ChannelFault>
        ensures ok { IfOk result (λ channel. whole lines ≡ Ok channel) }
        ensures err { IfErr result (λ fault. IsErrAnd (whole lines) (λ f. fault_of fault ≡ Some f)) }
    {
        let SoFar {
            name,
            definitions,
            copied,
            admin,
        } = lines;
        let name = name.ok_or(ChannelFault::NoChannel)?;
        let configuration = Configuration {
            name,
            definitions,
            admin,
        };
        Ok(Channel {
            configuration,
            definitions: copied,
        })
    }

    /// Reads a channel text: one line `channel NAME`, up to 256 lines `chaincode NAME POLICY` whose names differ, and
    /// at most one line `admin POLICY`, in any order.
    ///
    /// Lines end with `\n`, which the last may omit; a `\r` before it is dropped, and so are spaces (0x20) at both
    /// ends. An empty line, and one that begins with `#`, is ignored. The parts of a line are separated by one or more
    /// spaces. A name has 1 to 64 ASCII letters, digits, `.`, `-` and `_`; POLICY is the rest of the line, is not
    /// empty, and is read as [`policy::Policy::parse`] does.
    ///
    /// An error is that of the first line that has a fault, and on one line the first of [`ChannelFault`]'s list; a
    /// missing channel name comes last. Takes time linear in the text, and for each chaincode a look-up among those
    /// before; memory for the names and policies, and for a second copy of those of chaincodes.
    pub fn read(alloc: Global, text: &str) -> Result<Channel, ChannelFault>
        ensures ok { IfOk result (λ channel. configuration_of text.now ≡ Ok channel) }
        ensures err { IfErr result (λ fault. Refuses fault (configuration_of text.now)) }
    {
        Channel::from_lines(read_lines(alloc, text)?)
    }

    /// The channel's name.
    pub fn name(&self) -> &Name
        ensures { result.now ≡ self.now.name }
    {
        self.configuration.name()
    }

    /// What the text configures.
    pub fn configuration(&self) -> &Configuration
        ensures { result.now ≡ self.now }
    {
        &self.configuration
    }

    /// The configuration, and the second copy of its chaincodes' policies. Takes no memory.
    pub fn into_parts(self) -> (Configuration, Definitions)
        ensures configuration { result.0 ≡ self }
        ensures definitions { result.1 ≡ self.definitions }
    {
        let Channel {
            configuration,
            definitions,
        } = self;
        (configuration, definitions)
    }
}

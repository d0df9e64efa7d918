ghost use Rattle.std.specs.Prelude.{◌≡◌};
ghost use Rattle.std.specs.Option.{option_copied};
ghost use Rattle.channel.specs.Configuration.{AreFew};

use policy::{Definitions, Policy};
use std::marker::Model;
use values::Name;

/// What a channel text configures: the channel's name, the policies of its chaincodes, and whose signatures an update
/// of one of these needs.
#[derive(Drop)]
pub struct Configuration {
    pub(crate) name: Name,
    pub(crate) definitions: Definitions,
    pub(crate) admin: Option<Policy>,
}

impl Model for Configuration {
    ghost use Rattle.std.specs.Coded.{codes};
    ghost use Rattle.policy.specs.Tree.{tree_code};
    ghost use Rattle.policy.specs.Policies.{policies_code};
    ghost use Rattle.channel.specs.Configuration as spec;

    ghost Value = { spec.Configuration };

    ghost coded = { Prim.hlevel (codes, tree_code, policies_code) };

    ghost view = { λ c. record { name = c.name; definitions = c.definitions; admin = c.admin } };

    ghost invariant = { λ c. spec.AreFew c.definitions };
}

impl Configuration {
    /// The channel's name.
    pub fn name(&self) -> &Name
        ensures { result.now ≡ self.now.name }
    {
        &self.name
    }

    /// The policies of its chaincodes, at most 256 of them.
    pub fn definitions(&self) -> &Definitions
        ensures value { result.now ≡ self.now.definitions }
        ensures few { AreFew result.now }
    {
        &self.definitions
    }

    /// Whose signatures an update of a chaincode's policy needs. Without it no policy is ever updated.
    pub fn admin(&self) -> Option<&Policy>
        ensures { option_copied result ≡ self.now.admin }
    {
        self.admin.as_ref()
    }
}

ghost use Rattle.std.specs.Prelude.{◌≡◌, OnOk, OnErr, IfOk, IsSome, IsOk};
ghost use Rattle.std.specs.FinMap as map;
ghost use Rattle.std.specs.Option.{option_copied};

use crate::policy::Policy;
use std::alloc::{AllocError, Global};
use std::collections::BTreeMap;
use std::marker::Model;
use values::{Name, NameRef};

/// The policies of chaincodes. A contract sees a map from the bytes of a name to a tree.
#[derive(Drop)]
pub struct Definitions {
    alloc: Global,
    policies: BTreeMap<Vec<u8>, Policy>,
}

impl Model for Definitions {
    ghost use Rattle.policy.specs.Policies.{Policies, policies_code, by_name};

    ghost Value = { Policies };

    ghost coded = { policies_code };

    ghost use Rattle.std.specs.FinMap as map;

    ghost view = { λ d. map.from_entries (by_name d.policies.entries) };
}

impl Definitions {
    /// No policies. Takes no memory.
    pub fn new(alloc: Global) -> Definitions
        ensures { result ≡ map.empty }
    {
        Definitions {
            alloc,
            policies: BTreeMap::new(alloc),
        }
    }

    /// The policy of a chaincode, or `None` if it has none. Logarithmic in the number of chaincodes.
    pub fn of(&self, name: &NameRef<'_>) -> Option<&Policy>
        ensures { option_copied result ≡ map.get self.now name.now }
    {
        self.policies.get(name.as_slice())
    }

    /// How many chaincodes have a policy.
    pub fn len(&self) -> usize
        ensures { result ≡ map.len self.now }
    {
        self.policies.len()
    }

    /// Sets the policy of a chaincode. Takes no memory if it has one already. An `Err` changes nothing. Logarithmic in
    /// the number of chaincodes.
    pub fn set(&mut self, name: &Name, policy: Policy) -> Result<(), AllocError>
        ensures ok { OnOk result (self.new ≡ map.insert self.old name.now policy) }
        ensures err { OnErr result (self.new ≡ self.old) }
        ensures replaced { IsSome (map.get self.old name.now) → IsOk result }
    {
        self.put(name.as_slice(), policy)
    }

    fn put(&mut self, name: &[u8], policy: Policy) -> Result<(), AllocError>
        ensures ok { OnOk result (self.new ≡ map.insert self.old name.now policy) }
        ensures err { OnErr result (self.new ≡ self.old) }
        ensures replaced { IsSome (map.get self.old name.now) → IsOk result }
    {
        if let Some(held) = self.policies.get_mut(name) {
            *held = policy;
            return Ok(());
        }
        let name = Vec::from_slice(self.alloc, name)?;
        self.policies.insert(name, policy)?;
        Ok(())
    }

    /// A copy of all names and policies: linear in their principals and gates, in time and memory, with a look-up for
    /// each policy.
    pub fn copy(&self, alloc: Global) -> Result<Definitions, AllocError>
        ensures { IfOk result (λ copied. copied ≡ self.now) }
    {
        let mut copied = Definitions::new(alloc);
        // From the last name on, as a contract builds a map from its entries.
        for (name, policy) in self.policies.iter().rev() {
            copied.put(name.as_slice(), policy.copy(alloc)?)?;
        }
        Ok(copied)
    }
}

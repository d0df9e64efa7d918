//! Candidates one by one in order.
ghost use Rattle.std.specs.Prelude.{◌≡◌, ◌<◌, ◌^◌, ◌++◌, ◌∷◌, [], if◌then◌else◌, length, IfOk, OnOk};
ghost use Rattle.std.specs.Option.{option_copied};
ghost use Rattle.rules.specs.Delta.{changes_in, entries_in, definitions_in};
ghost use Rattle.rules.specs.Candidate.{opened, updates};
ghost use Rattle.rules.specs.Effect as effect;
ghost use Rattle.rules.specs.History as history;
ghost use Rattle.rules.specs.Fold as fold;
ghost use Rattle.rules.specs.Job as job;
ghost use Rattle.rules.specs.Reads as reads;
ghost use Rattle.rules.specs.Flags.{is_valid};
ghost use Rattle.plain.specs.Keys.{keys_of};
ghost use Rattle.plain.specs.Seen.{seen, job_over};
ghost use Rattle.plain.specs.Taking.{state_in, next_flag, IsRunning, IsTaken, IsFolded};

use crate::candidate::{Candidate, OpenTx, OpenUpdate};
use crate::effect::changes_of;
use crate::endorsement::{is_endorsed, meets};
use crate::history::entries_of;
use crate::reads::read_verdict;
use crate::state::StateNow;
use crate::state_key::{StateKey, add_policy_keys};
use crate::world::World;
use policy::Policy;
use rules::{Change, Flag, NewDefinition, NewEntry};
use std::alloc::{AllocError, Global};
use transaction::{Tx, Version};
use values::Shared;

/// What runs along: the keys whose policy was touched, and what the candidates so far have given.
#[derive(Drop)]
pub(crate) struct Running<'a> {
    pub touched: Vec<StateKey<'a>>,
    pub changes: Vec<Change>,
    pub entries: Vec<Shared<NewEntry>>,
    pub definitions: Vec<NewDefinition>,
    pub flags: Vec<Flag>,
}

impl<'a> Running<'a> {
    fn new(alloc: Global) -> Running<'a>
        ensures touched { result.touched.items ≡ [] }
        ensures changes { result.changes.items ≡ [] }
        ensures entries { result.entries.items ≡ [] }
        ensures definitions { result.definitions.items ≡ [] }
        ensures flags { result.flags.items ≡ [] }
    {
        Running {
            touched: Vec::new(alloc),
            changes: Vec::new(alloc),
            entries: Vec::new(alloc),
            definitions: Vec::new(alloc),
            flags: Vec::new(alloc),
        }
    }

    /// Applies a valid transaction.
    fn apply(
        &mut self,
        alloc: Global,
        world: &World,
        version: Version,
        open_tx: &OpenTx<'_>,
    ) -> Result<(), AllocError>
        ensures changes { OnOk result (changes_in self.new.changes.items ≡ changes_in self.old.changes.items ++ effect.changes_of version open_tx.now.tx (state_in world.now.state self.old)) }
        ensures entries { OnOk result (entries_in self.new.entries.items ≡ entries_in self.old.entries.items ++ history.entries_of version open_tx.now.tx) }
        ensures touched { OnOk result (self.new.touched.items ≡ self.old.touched.items) }
        ensures definitions { OnOk result (self.new.definitions.items ≡ self.old.definitions.items) }
        ensures flags { OnOk result (self.new.flags.items ≡ self.old.flags.items) }
    {
        let state = StateNow {
            world,
            changes: self.changes.as_slice(),
        };
        let mut changes = changes_of(alloc, version, open_tx, state)?;
        self.changes.append(&mut changes)?;
        entries_of(alloc, &mut self.entries, version, &open_tx.tx)
    }

    /// Gives a chaincode the policy that a valid update asks for.
    fn define(&mut self, alloc: Global, open_update: &OpenUpdate<'_>) -> Result<(), AllocError>
        ensures definitions { OnOk result (definitions_in self.new.definitions.items ≡ definitions_in self.old.definitions.items ++ job.definitions_by (updates open_update.now.update open_update.now.signers)) }
        ensures touched { OnOk result (self.new.touched.items ≡ self.old.touched.items) }
        ensures changes { OnOk result (self.new.changes.items ≡ self.old.changes.items) }
        ensures entries { OnOk result (self.new.entries.items ≡ self.old.entries.items) }
        ensures flags { OnOk result (self.new.flags.items ≡ self.old.flags.items) }
    {
        self.definitions.push(NewDefinition {
            chaincode: open_update.update.namespace.copy(alloc)?,
            policy: Shared::new(alloc, open_update.policy.copy(alloc)?)?,
        })?;
        Ok(())
    }

    /// The keys whose policy the transaction writes are touched from now on.
    fn touch(&mut self, tx: &Tx<'a>) -> Result<(), AllocError>
        ensures touched { OnOk result (keys_of self.new.touched.items ≡ keys_of self.old.touched.items ++ effect.policy_keys tx.now) }
        ensures changes { OnOk result (self.new.changes.items ≡ self.old.changes.items) }
        ensures entries { OnOk result (self.new.entries.items ≡ self.old.entries.items) }
        ensures definitions { OnOk result (self.new.definitions.items ≡ self.old.definitions.items) }
        ensures flags { OnOk result (self.new.flags.items ≡ self.old.flags.items) }
    {
        add_policy_keys(&mut self.touched, tx)
    }

    /// What an open transaction's reads say, which is applied where they are good.
    fn read(
        &mut self,
        alloc: Global,
        world: &World,
        version: Version,
        open_tx: &OpenTx<'_>,
    ) -> Result<Flag, AllocError>
        ensures flag { IfOk result (λ flag. flag ≡ job.read_flag (reads.read_verdict (state_in world.now.state self.old) open_tx.now.tx)) }
        ensures changes { IfOk result (λ flag. changes_in self.new.changes.items ≡ changes_in self.old.changes.items ++ (if is_valid flag then effect.changes_of version open_tx.now.tx (state_in world.now.state self.old) else [])) }
        ensures entries { IfOk result (λ flag. entries_in self.new.entries.items ≡ entries_in self.old.entries.items ++ (if is_valid flag then history.entries_of version open_tx.now.tx else [])) }
        ensures touched { OnOk result (self.new.touched.items ≡ self.old.touched.items) }
        ensures definitions { OnOk result (self.new.definitions.items ≡ self.old.definitions.items) }
        ensures flags { OnOk result (self.new.flags.items ≡ self.old.flags.items) }
    {
        let state = StateNow {
            world,
            changes: self.changes.as_slice(),
        };
        let flag = read_verdict(state, &open_tx.tx).flag();
        if flag.is_valid() {
            self.apply(alloc, world, version, open_tx)?;
        }
        Ok(flag)
    }

    fn take_open(
        &mut self,
        alloc: Global,
        admin: Option<&Policy>,
        world: &World,
        version: Version,
        open_tx: &OpenTx<'a>,
    ) -> Result<Flag, AllocError>
        ensures flag { IfOk result (λ flag. flag ≡ next_flag (option_copied admin.entry) world.now.definitions world.now.state self.old (opened open_tx.now.tx open_tx.now.signers)) }
        ensures taken { OnOk result (IsTaken (option_copied admin.entry) world.now.definitions world.now.state version (opened open_tx.now.tx open_tx.now.signers) self.old self.new) }
        ensures flags { OnOk result (self.new.flags.items ≡ self.old.flags.items) }
    {
        if !is_endorsed(world.definitions(), world, self.touched.as_slice(), open_tx) {
            return Ok(Flag::EndorsementPolicyFailure);
        }
        let flag = self.read(alloc, world, version, open_tx)?;
        self.touch(&open_tx.tx)?;
        Ok(flag)
    }

    fn take_update(
        &mut self,
        alloc: Global,
        admin: Option<&Policy>,
        world: &World,
        version: Version,
        open_update: &OpenUpdate<'_>,
    ) -> Result<Flag, AllocError>
        ensures flag { IfOk result (λ flag. flag ≡ next_flag (option_copied admin.entry) world.now.definitions world.now.state self.old (updates open_update.now.update open_update.now.signers)) }
        ensures taken { OnOk result (IsTaken (option_copied admin.entry) world.now.definitions world.now.state version (updates open_update.now.update open_update.now.signers) self.old self.new) }
        ensures flags { OnOk result (self.new.flags.items ≡ self.old.flags.items) }
    {
        if !meets(&open_update.signers, admin) {
            return Ok(Flag::InvalidConfigTransaction);
        }
        self.define(alloc, open_update)?;
        Ok(Flag::Valid)
    }

    /// One candidate more, whose writes have this version.
    fn take(
        &mut self,
        alloc: Global,
        admin: Option<&Policy>,
        world: &World,
        version: Version,
        candidate: &Candidate<'a>,
    ) -> Result<(), AllocError>
        ensures taken { OnOk result (IsTaken (option_copied admin.entry) world.now.definitions world.now.state version (seen candidate.now) self.old self.new) }
        ensures flags { OnOk result (self.new.flags.items ≡ self.old.flags.items ++ next_flag (option_copied admin.entry) world.now.definitions world.now.state self.old (seen candidate.now) ∷ []) }
    {
        let flag = match candidate {
            Candidate::Flagged(flag) => flag.flag(),
            Candidate::Open(open_tx) => self.take_open(alloc, admin, world, version, open_tx)?,
            Candidate::Updates(open_update) => self.take_update(
                alloc,
                admin,
                world,
                version,
                open_update,
            )?,
        };
        self.flags.push(flag)?;
        Ok(())
    }
}

/// Takes the candidates of the block of this number, over the world before it.
pub(crate) fn fold<'a>(
    alloc: Global,
    admin: Option<&Policy>,
    world: &World,
    block: u64,
    candidates: &[Candidate<'a>],
) -> Result<Running<'a>, AllocError>
    requires { length candidates.now < 2 ^ 32 }
    ensures { IfOk result (λ r. IsFolded (job_over (option_copied admin.entry) world.now.definitions block world.now.state candidates.now) r) }
{
    let mut running = Running::new(alloc);
    for (tx, candidate) in candidates.iter().enumerate() {
        let version = Version {
            block,
            tx: tx as u32,
        };
        running.take(alloc, admin, world, version, candidate)?;
    }
    Ok(running)
}

ghost use Rattle.std.specs.Prelude.{◌≡◌};

use crate::workers::Workers;
use channel::Configuration;
use intake_workers::IntakeRules;
use std::alloc::Global;

/// By what blocks are taken in and committed: runtime and memory, the channel's rules, the workers, the verifier of
/// signatures, and the gate that each piece of work passes.
#[derive(Drop)]
pub(crate) struct Context<'m, R, V, G> {
    pub(crate) rt: &'m R,
    pub(crate) alloc: Global,
    pub(crate) channel: &'m Configuration,
    pub(crate) workers: Workers,
    /// Whether another thread makes the commit hash of a large delta.
    pub(crate) hashes_beside: bool,
    pub(crate) verifier: &'m V,
    pub(crate) gate: &'m G,
}

impl<'m, R, V, G> Context<'m, R, V, G> {
    /// By what transactions are taken in.
    pub(crate) fn rules(&self) -> IntakeRules<'m, V, G>
        ensures channel { result.channel.now ≡ self.now.channel.now }
        ensures verifier { result.verifier.now ≡ self.now.verifier.now }
    {
        IntakeRules {
            channel: self.channel,
            verifier: self.verifier,
            gate: self.gate,
        }
    }

    /// The context of the calling thread, without other workers, but for one that makes commit hashes.
    pub(crate) fn alone(&self) -> Context<'m, R, V, G>
        ensures channel { result.channel.now ≡ self.now.channel.now }
        ensures verifier { result.verifier.now ≡ self.now.verifier.now }
    {
        Context {
            rt: self.rt,
            alloc: self.alloc,
            channel: self.channel,
            workers: Workers::one(),
            hashes_beside: self.hashes_beside,
            verifier: self.verifier,
            gate: self.gate,
        }
    }
}

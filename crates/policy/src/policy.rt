use crate::fault::PolicyFault;
use crate::tree::Expression;
use crate::{reader, text};
use std::alloc::{AllocError, Global};
use std::marker::Model;

/// An endorsement policy. A contract sees its tree, which some text spells.
#[derive(Drop)]
pub struct Policy {
    root: Expression,
}

impl Model for Policy {
    ghost use Rattle.policy.specs.Tree.{Tree, tree_code};

    ghost Value = { Tree };

    ghost coded = { tree_code };

    ghost use Rattle.policy.specs.Spelled.{IsSpelled};

    ghost view = { λ p. p.root };

    ghost invariant = { λ p. IsSpelled p.root };
}

impl Policy {
    ghost use Rattle.std.specs.Prelude.{◌≡◌, ◌⊎◌, ◌≤◌, ℕ, List, length, Some, None, Ok, Err, IfOk, IfErr, IfSome, IsErrAnd, string_bytes};
    ghost use Rattle.values.specs.Memory.{GivesUnless};
    ghost use Rattle.policy.specs.declared.fault.PolicyFault.TheVariants.{Memory};
    ghost use Rattle.policy.specs.Tree.{Tree};
    ghost use Rattle.policy.specs.Grammar.{IsPolicy};
    ghost use Rattle.policy.specs.Fault.{Fault, HasFault};
    ghost use Rattle.policy.specs.Kind.{kind_of, IsOfKind};
    ghost use Rattle.policy.specs.Meaning.{policy_of, policy_or_fault};
    ghost use Rattle.policy.specs.Spelled.{IsSpelled};
    ghost use Rattle.policy.specs.Text.{text_of};

    /// The policy that the text spells (Fabric documentation, 'Endorsement policies'), or its first fault from the
    /// left, or want of memory. One pass, linear in the text; the memory is that of the tree.
    pub fn parse(alloc: Global, text: &str) -> Result<Policy, PolicyFault>
        // What is read is spelled so.
        ensures found { IfOk result (λ policy. IsPolicy text.now policy) }
        // What is spelled so is read.
        ensures only { (tree : Tree) → IsPolicy text.now tree → GivesUnless Memory result (Ok tree) }

        // A fault that is answered is one of the text.
        ensures fault { IfErr result (λ e. IfSome (kind_of e) (λ f. HasFault text.now f)) }
        // A fault of the text is answered.
        ensures only_fault { (f : Fault) → HasFault text.now f → IsErrAnd result (λ e. IsOfKind f e) }

        // These once more, in terms of the functions that other definitions name.
        ensures meaning { IfOk result (λ policy. policy_of text.now ≡ Some policy) }
        ensures no_meaning { IfErr result (λ e. (e ≡ Memory) ⊎ (policy_of text.now ≡ None)) }
        ensures read { IfOk result (λ policy. policy_or_fault text.now ≡ Ok policy) }
        ensures refused { IfErr result (λ e. IfSome (kind_of e) (λ f. policy_or_fault text.now ≡ Err f)) }
    {
        Policy::parse_bytes(alloc, text.as_bytes())
    }

    /// The policy that the bytes spell, or their first fault from the left, or want of memory. The grammar is one of
    /// bytes, so that these may be any: a text that isn't UTF-8 spells no policy. One pass, linear in them; the memory
    /// is that of the tree.
    pub fn parse_bytes(alloc: Global, bytes: &[u8]) -> Result<Policy, PolicyFault>
        // What is read is spelled so.
        ensures found { IfOk result (λ policy. IsPolicy bytes.now policy) }
        // What is spelled so is read.
        ensures only { (tree : Tree) → IsPolicy bytes.now tree → GivesUnless Memory result (Ok tree) }

        // A fault that is answered is one of the text.
        ensures fault { IfErr result (λ e. IfSome (kind_of e) (λ f. HasFault bytes.now f)) }
        // A fault of the text is answered.
        ensures only_fault { (f : Fault) → HasFault bytes.now f → IsErrAnd result (λ e. IsOfKind f e) }

        // These once more, in terms of the functions that other definitions name.
        ensures meaning { IfOk result (λ policy. policy_of bytes.now ≡ Some policy) }
        ensures no_meaning { IfErr result (λ e. (e ≡ Memory) ⊎ (policy_of bytes.now ≡ None)) }
        ensures read { IfOk result (λ policy. policy_or_fault bytes.now ≡ Ok policy) }
        ensures refused { IfErr result (λ e. IfSome (kind_of e) (λ f. policy_or_fault bytes.now ≡ Err f)) }
    {
        let root = reader::read(alloc, bytes)?;
        Ok(Policy { root })
    }

    /// The policy's tree.
    pub fn root(&self) -> &Expression
        ensures tree { result.now ≡ self.now }
        ensures spelled { IsSpelled self.now }
    {
        &self.root
    }

    /// A copy: linear in the principals and gates, in time and memory.
    pub fn copy(&self, alloc: Global) -> Result<Policy, AllocError>
        ensures { IfOk result (λ copied. copied ≡ self.now) }
    {
        let root = self.root.copy(alloc)?;
        Ok(Policy { root })
    }

    /// The canonical text: no spaces, single quotes, `OR(` where one member is enough, else `AND(` where all
    /// are asked for, else `OutOf(n,`. Linear in it, in time and memory.
    pub fn text(&self, alloc: Global) -> Result<String, AllocError>
        ensures canonical { IfOk result (λ text. string_bytes text ≡ text_of self.now) }

        // It spells this policy, so reading it gives the same tree.
        ensures same { IsPolicy (text_of self.now) self.now }
        // No text of this policy is shorter.
        ensures shortest { (other : List ℕ) → IsPolicy other self.now → length (text_of self.now) ≤ length other }
    {
        let mut out = String::new(alloc);
        text::put(alloc, &mut out, &self.root)?;
        Ok(out)
    }
}

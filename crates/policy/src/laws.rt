ghost use Rattle.std.specs.Prelude.{◌≡◌, ◌⊎◌, ◌↔◌, ℕ, List, Some, Ok, Err};
ghost use Rattle.policy.specs.Limits.{max_text_bytes, max_principals, max_nested_gates};
ghost use Rattle.policy.specs.Tree.{Tree};
ghost use Rattle.policy.specs.Grammar.{IsPolicy};
ghost use Rattle.policy.specs.Fault.{Fault, HasFault};
ghost use Rattle.policy.specs.Meaning.{policy_of, policy_or_fault};

use crate::reader::{MAX_GATES, MAX_PRINCIPALS, MAX_TEXT};

/// A law, and no work: the limits of this code are those that the definitions name.
pub fn limits_are_the_definitions()
    ensures text { MAX_TEXT ≡ max_text_bytes }
    ensures principals { MAX_PRINCIPALS ≡ max_principals }
    ensures gates { MAX_GATES ≡ max_nested_gates }
{}

/// Laws of the policy grammar, and no work: no text spells two trees, none has two kinds of fault, none a tree
/// and a fault, and each has one or the other.
pub fn one_reading()
    ensures one_tree { (text : List ℕ) (s t : Tree) → IsPolicy text s → IsPolicy text t → s ≡ t }
    ensures one_fault { (text : List ℕ) (f g : Fault) → HasFault text f → HasFault text g → f ≡ g }
    ensures tree_or_fault { (text : List ℕ) (t : Tree) (f : Fault) → IsPolicy text t → HasFault text f → ⊥ }
    ensures each_text { (text : List ℕ) → ((t : Tree) × IsPolicy text t) ⊎ ((f : Fault) × HasFault text f) }
{}

/// Laws of what texts mean, and no work: what `policy_of` gives for a text is the tree that it spells, and none
/// where it spells none; `policy_or_fault` gives the same tree, or the kind of the text's fault.
pub fn policy_reading()
    ensures policy { (text : List ℕ) (t : Tree) → (policy_of text ≡ Some t) ↔ IsPolicy text t }
    ensures read { (text : List ℕ) (t : Tree) → (policy_or_fault text ≡ Ok t) ↔ IsPolicy text t }
    ensures refused { (text : List ℕ) (f : Fault) → (policy_or_fault text ≡ Err f) ↔ HasFault text f }
{}

ghost use Rattle.std.specs.Prelude.{◌≡◌, IfOk};

use std::alloc::{AllocError, Global};
use std::marker::Model;
use values::Name;

/// The role that a principal asks for. Each member of an organization fills `Member`.
#[derive(Clone, Copy, Debug, PartialEq, Eq)]
pub enum PolicyRole {
    Member,
    Admin,
    Client,
    Peer,
    Orderer,
}

/// An organization and a role in it.
#[derive(Drop)]
pub struct Principal {
    pub org: Name,
    pub role: PolicyRole,
}

/// A part of a policy, which contracts see as a tree.
#[cycle(tree)]
#[derive(Drop)]
pub struct Expression {
    pub node: Node,
}

/// What an expression asks for.
#[cycle(tree)]
#[derive(Drop)]
pub enum Node {
    /// One signer of the organization and the role.
    Signed(Principal),
    /// At least `threshold` of the members.
    Gate {
        threshold: u16,
        members: Vec<Expression>,
    },
}

impl Model for Expression {
    ghost use Rattle.policy.specs.Tree.{Tree, tree_code, size_of};

    ghost Value = { Tree };

    ghost coded = { tree_code };

    ghost use Rattle.policy.specs.View.{tree};

    ghost view = { λ e. tree e.node };

    ghost size = { size_of };

    ghost use Rattle.policy.specs.Falls.{size_falls};

    ghost size_decreases = { λ e h. size_falls e.node };
}

impl Principal {
    /// A copy, of up to 64 bytes.
    fn copy(&self, alloc: Global) -> Result<Principal, AllocError>
        ensures { IfOk result (λ p. p ≡ self.now) }
    {
        Ok(Principal {
            org: Name::from_slice(alloc, self.org.as_slice())?,
            role: self.role,
        })
    }
}

impl Expression {
    /// A copy: linear in the principals and gates, in time and memory.
    pub fn copy(&self, alloc: Global) -> Result<Expression, AllocError>
        ensures { IfOk result (λ copied. copied ≡ self.now) }
    {
        let node = match &self.node {
            Node::Signed(principal) => Node::Signed(principal.copy(alloc)?),
            Node::Gate { threshold, members } => {
                let mut copies = Vec::new(alloc);
                for member in members {
                    copies.push(member.copy(alloc)?)?;
                }
                Node::Gate {
                    threshold: *threshold,
                    members: copies,
                }
            }
        };
        Ok(Expression { node })
    }
}

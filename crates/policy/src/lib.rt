//! The language of endorsement policies: texts, trees and canonical texts, and the policies of chaincodes.
//!
//! A policy is a tree of principals and gates, which contracts see as a `Tree`. A text has at most 4,096 bytes,
//! 256 principals and 32 nested gates. So every recursion here is at most 33 levels deep: reading takes up to
//! three frames a level (expression, gate, members), and writing, copying and dropping take one. As LLVM builds
//! it, reading 32 nested gates takes some 10 kilobytes of stack.
//!
//! A call takes constant time and no memory where it says nothing else.
#![tactic(auto)]

mod definitions;
mod fault;
mod laws;
mod organization;
mod policy;
mod quoted;
mod reader;
mod text;
mod token;
mod tree;

pub use definitions::Definitions;
pub use fault::PolicyFault;
pub use laws::{limits_are_the_definitions, one_reading, policy_reading};
pub use policy::Policy;
pub use tree::{Expression, Node, PolicyRole, Principal};

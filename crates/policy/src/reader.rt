ghost use Rattle.std.specs.Prelude.{◌≡◌, ◌≤◌, length, IfOk, IfErr};
ghost use Rattle.policy.specs.Tree.{principal};
ghost use Rattle.policy.specs.declared.fault.PolicyFault.TheVariants.{Memory};
ghost use Rattle.policy.specs.Lexing.{seen, token_at};
ghost use Rattle.policy.specs.Reading.{opening_at, comma_at, threshold_at, separator_at, head_at, expression_by, members_by, gate_at, made, last_token, policy_at};
ghost use Rattle.policy.specs.Outcome.{Gives, asked};

use crate::fault::PolicyFault;
use crate::organization::Organization;
use crate::token::{Token, Word, next_token, skip_spaces};
use crate::tree::{Expression, Node, PolicyRole, Principal};
use std::alloc::Global;

/// The most bytes of a text.
pub(crate) const MAX_TEXT: usize = 4096;

/// The most principals of a policy.
pub(crate) const MAX_PRINCIPALS: u32 = 256;

/// The most gates inside one another.
pub(crate) const MAX_GATES: u32 = 32;

/// Which threshold a gate asks for.
#[derive(Clone, Copy)]
enum Asked {
    All,
    Any,
    Number(u16),
}

/// The text that is left to read, and where its last token began.
#[derive(Drop)]
struct Reader<'a> {
    rest: &'a [u8],
    /// How many principals were read.
    principals: u32,
    /// How long the whole text is.
    len: usize,
    /// The place of the last token.
    at: usize,
}

impl<'a> Reader<'a> {
    fn next(&mut self) -> Token<'a>
        ensures token { seen result ≡ (token_at self.old.rest.now).0 }
        ensures rest { self.new.rest.now ≡ (token_at self.old.rest.now).1 }
        ensures principals { self.new.principals ≡ self.old.principals }
    {
        let front = skip_spaces(self.rest);
        let (token, rest) = next_token(front);
        self.at = self.len.saturating_sub(front.len());
        self.rest = rest;
        token
    }

    #[tactic(auto, unfolding(crate::specs::Reading::opening_at))]
    fn opening(&mut self) -> Result<(), PolicyFault>
        ensures read { Gives (λ _. self.new.rest.now) result (opening_at self.old.rest.now) }
        ensures principals { self.new.principals ≡ self.old.principals }
    {
        match self.next() {
            Token::Opening => Ok(()),
            _ => Err(PolicyFault::Syntax { at: self.at }),
        }
    }

    #[tactic(auto, unfolding(crate::specs::Reading::comma_at))]
    fn comma(&mut self) -> Result<(), PolicyFault>
        ensures read { Gives (λ _. self.new.rest.now) result (comma_at self.old.rest.now) }
        ensures principals { self.new.principals ≡ self.old.principals }
    {
        match self.next() {
            Token::Comma => Ok(()),
            _ => Err(PolicyFault::Syntax { at: self.at }),
        }
    }

    #[tactic(auto, unfolding(crate::specs::Reading::threshold_at))]
    fn threshold(&mut self) -> Result<u16, PolicyFault>
        ensures read { Gives (λ n. (n, self.new.rest.now)) result (threshold_at self.old.rest.now) }
        ensures principals { self.new.principals ≡ self.old.principals }
    {
        match self.next() {
            Token::Number(n) => Ok(n),
            _ => Err(PolicyFault::Syntax { at: self.at }),
        }
    }

    /// Whether a comma stands here, in place of a closing parenthesis.
    #[tactic(auto, unfolding(crate::specs::Reading::separator_at))]
    fn goes_on(&mut self) -> Result<bool, PolicyFault>
        ensures read { Gives (λ more. (more, self.new.rest.now)) result (separator_at self.old.rest.now) }
        ensures principals { self.new.principals ≡ self.old.principals }
    {
        match self.next() {
            Token::Comma => Ok(true),
            Token::Closing => Ok(false),
            _ => Err(PolicyFault::Syntax { at: self.at }),
        }
    }

    /// What stands between a gate's word and its first member.
    #[tactic(auto, unfolding(crate::specs::Reading::head_at))]
    fn head(&mut self, word: Word) -> Result<Asked, PolicyFault>
        ensures read { Gives (λ a. (asked a, self.new.rest.now)) result (head_at word self.old.rest.now) }
        ensures principals { self.new.principals ≡ self.old.principals }
    {
        self.opening()?;
        match word {
            Word::All => Ok(Asked::All),
            Word::Any => Ok(Asked::Any),
            Word::OutOf => {
                let n = self.threshold()?;
                self.comma()?;
                Ok(Asked::Number(n))
            }
        }
    }

    fn end(&mut self, root: Expression) -> Result<Expression, PolicyFault>
        ensures { Gives (λ e. e) result (last_token root (token_at self.old.rest.now).0) }
    {
        match self.next() {
            Token::End => Ok(root),
            _ => Err(PolicyFault::Syntax { at: self.at }),
        }
    }

    /// An expression in which so many gates may be nested.
    #[cycle(reader)]
    #[tactic(auto, unfolding(crate::specs::Reading::expression_by))]
    fn expression(&mut self, alloc: Global, gates: u32) -> Result<Expression, PolicyFault>
        ensures { Gives (λ e. record { value = e; principals = self.new.principals; rest = self.new.rest.now }) result (expression_by (gate_at gates) self.old.principals self.old.rest.now) }
    {
        match self.next() {
            Token::Principal(org, role) => {
                if self.principals >= MAX_PRINCIPALS {
                    return Err(PolicyFault::TooLarge);
                }
                self.principals += 1;
                signed(alloc, org, role)
            }
            Token::NoPrincipal => Err(PolicyFault::Role { at: self.at }),
            Token::Unclosed => Err(PolicyFault::Syntax { at: self.len }),
            Token::Word(word) => self.gate(alloc, word, gates),
            _ => Err(PolicyFault::Syntax { at: self.at }),
        }
    }

    #[cycle(reader)]
    fn gate(&mut self, alloc: Global, word: Word, gates: u32) -> Result<Expression, PolicyFault>
        ensures { Gives (λ e. record { value = e; principals = self.new.principals; rest = self.new.rest.now }) result (gate_at gates word self.old.principals self.old.rest.now) }
    {
        if gates == 0 {
            return Err(PolicyFault::TooDeep { at: self.at });
        }
        let asked = self.head(word)?;
        let members = self.members(alloc, gates - 1)?;
        closed(asked, members, self.at)
    }

    /// The members of a gate, up to its closing parenthesis.
    #[cycle(reader)]
    fn members(&mut self, alloc: Global, gates: u32) -> Result<Vec<Expression>, PolicyFault>
        ensures few { IfOk result (λ v. length v.items ≤ 257) }
        ensures read { Gives (λ v. record { value = v.items; principals = self.new.principals; rest = self.new.rest.now }) result (members_by (expression_by (gate_at gates)) 257 self.old.principals self.old.rest.now) }
    {
        let mut members = Vec::new(alloc);
        // Each member has a principal, so that the last turn answers a fault.
        for _ in 0..=MAX_PRINCIPALS {
            let member = self.expression(alloc, gates)?;
            members.push(member)?;
            if !self.goes_on()? {
                return Ok(members);
            }
        }
        Err(PolicyFault::TooLarge)
    }
}

fn signed(alloc: Global, org: Organization<'_>, role: PolicyRole) -> Result<Expression, PolicyFault>
    ensures value { IfOk result (λ e. e ≡ principal org.entry.bytes.now role) }
    ensures memory { IfErr result (λ f. f ≡ Memory) }
{
    let org = org.to_name(alloc)?;
    Ok(Expression {
        node: Node::Signed(Principal { org, role }),
    })
}

/// The gate, where its threshold can be met.
fn closed(wanted: Asked, members: Vec<Expression>, at: usize) -> Result<Expression, PolicyFault>
    requires { length members.items ≤ 257 }
    ensures { Gives (λ e. e) result (made (asked wanted) members.items) }
{
    let count = members.len() as u16;
    let threshold = match wanted {
        Asked::All => count,
        Asked::Any => 1,
        Asked::Number(n) => {
            if n < 1 || n > count {
                return Err(PolicyFault::Threshold { at });
            }
            n
        }
    };
    Ok(Expression {
        node: Node::Gate { threshold, members },
    })
}

/// The tree that all the bytes spell. One pass, linear in them; the memory is that of the tree.
#[tactic(auto, unfolding(crate::specs::Reading::policy_at))]
pub fn read(alloc: Global, text: &[u8]) -> Result<Expression, PolicyFault>
    ensures { Gives (λ e. e) result (policy_at text.now) }
{
    if text.len() > MAX_TEXT {
        return Err(PolicyFault::TooLarge);
    }
    let mut reader = Reader {
        rest: text,
        principals: 0,
        len: text.len(),
        at: 0,
    };
    let root = reader.expression(alloc, MAX_GATES)?;
    reader.end(root)
}

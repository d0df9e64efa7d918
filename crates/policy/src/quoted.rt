ghost use Rattle.std.specs.Prelude.{◌≡◌, ◌==◌, position};
ghost use Rattle.policy.specs.Lexing.{seen, named_in, principal_in, quoted_at};

use crate::organization::Organization;
use crate::token::Token;
use crate::tree::PolicyRole;

/// What stands up to the closing quote, and what follows that. Without one, nothing is taken off.
#[tactic(auto, unfolding(crate::specs::Lexing::quoted_at))]
pub fn quoted(quote: u8, text: &[u8]) -> (Token<'_>, &[u8])
    ensures { (seen result.0, result.1.now) ≡ quoted_at quote text.now }
{
    match place_of(quote, text) {
        None => (Token::Unclosed, text),
        Some(n) => (principal(&text[..n]), &text[n + 1..]),
    }
}

fn place_of(quote: u8, text: &[u8]) -> Option<usize>
    ensures { result ≡ position (λ b. b == quote) text.now }
{
    text.iter().position(|b| *b == quote)
}

/// No role has a dot, so that the role is what follows the last one.
#[tactic(auto, unfolding(crate::specs::Lexing::principal_in))]
fn principal(inside: &[u8]) -> Token<'_>
    ensures { seen result ≡ principal_in inside.now }
{
    if let Some(org) = inside.strip_suffix(b".member") {
        named(org, PolicyRole::Member)
    } else if let Some(org) = inside.strip_suffix(b".admin") {
        named(org, PolicyRole::Admin)
    } else if let Some(org) = inside.strip_suffix(b".client") {
        named(org, PolicyRole::Client)
    } else if let Some(org) = inside.strip_suffix(b".peer") {
        named(org, PolicyRole::Peer)
    } else if let Some(org) = inside.strip_suffix(b".orderer") {
        named(org, PolicyRole::Orderer)
    } else {
        Token::NoPrincipal
    }
}

fn named(org: &[u8], role: PolicyRole) -> Token<'_>
    ensures { seen result ≡ named_in org.now role }
{
    if values::is_name(org) {
        Token::Principal(Organization { bytes: org }, role)
    } else {
        Token::NoPrincipal
    }
}

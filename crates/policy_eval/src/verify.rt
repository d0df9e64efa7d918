ghost use Rattle.std.specs.Prelude.{◌≡◌, ℕ, List, Bool};
ghost use Rattle.transaction.specs.declared.identity.Identity.{Identity};

use transaction::Identity;

/// What checks signatures. Its answer is a function of the identity, the message and the signature.
pub trait Verify {
    /// What `verify` answers.
    ghost accepts: { Self → Identity → List ℕ → List ℕ → Bool };

    /// Whether the signature is one of the identity over the message.
    fn verify(&self, identity: &Identity<'_>, message: &[u8], signature: &[u8]) -> bool
        ensures { result ≡ accepts self.now identity.now message.now signature.now };
}

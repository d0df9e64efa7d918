use policy_eval::Verify;
use transaction::Identity;

/// A signature is good if it is the two bytes `ok`.
pub struct SaysOk;

impl Verify for SaysOk {
    ghost use Rattle.std.specs.Prelude.{◌∷◌, []};
    ghost use Rattle.std.specs.Str.{bytes_eq};

    ghost accepts = { λ _ _ _ signature. bytes_eq signature (111 ∷ 107 ∷ []) };

    fn verify(&self, _identity: &Identity<'_>, _message: &[u8], signature: &[u8]) -> bool {
        signature == b"ok".as_slice()
    }
}

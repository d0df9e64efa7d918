ghost use Rattle.std.specs.Prelude.{◌≡◌};
ghost use Rattle.values.specs.Hash.{hash_bytes};
ghost use Rattle.values.specs.Key.{max_key_bytes};
ghost use Rattle.values.specs.Name.{max_name_bytes};

use crate::hash::HASH_BYTES;
use crate::key::MAX_KEY;
use crate::name::MAX_NAME;

/// A law, and no work: the limits of this code are those that the definitions name.
pub fn limits_are_the_definitions()
    ensures hash { HASH_BYTES ≡ hash_bytes }
    ensures key { MAX_KEY ≡ max_key_bytes }
    ensures name { MAX_NAME ≡ max_name_bytes }
{}

//! What has no definition.
ghost use Rattle.std.specs.Prelude.{◌≡◌, not, map, find, IfOk};
ghost use Rattle.std.specs.Option.{option_copied};
ghost use Rattle.rules.specs.Candidate.{is_defined};
ghost use Rattle.reasons.specs.Identity.{first_undefined};

use crate::written::written_keys;
use policy::Definitions;
use state_keys::StateKey;
use std::alloc::{AllocError, Global};
use transaction::Tx;
use values::{Name, NameRef};

pub(crate) fn is_defined(definitions: &Definitions, name: &NameRef<'_>) -> bool
    ensures { result ≡ is_defined definitions.now name.now }
{
    definitions.of(name).is_some()
}

/// The first of the keys' namespaces that has no definition.
fn undefined_among<'a>(definitions: &Definitions, keys: &[StateKey<'a>]) -> Option<NameRef<'a>>
    ensures { result ≡ find (λ name. not (is_defined definitions.now name)) (map (λ k. k.0) keys.now) }
{
    for key in keys {
        let name = key.namespace();
        if !is_defined(definitions, &name) {
            return Some(name);
        }
    }
    None
}

/// The first name without a definition: of the chaincode that is named, and then of the namespaces that are written.
pub(crate) fn first_undefined(
    alloc: Global,
    definitions: &Definitions,
    tx: &Tx<'_>,
) -> Result<Option<Name>, AllocError>
    ensures { IfOk result (λ name. name ≡ first_undefined definitions.now tx.now) }
{
    if !is_defined(definitions, &tx.chaincode) {
        return Ok(Some(tx.chaincode.copy(alloc)?));
    }
    let keys = written_keys(alloc, tx)?;
    match undefined_among(definitions, keys.as_slice()) {
        None => Ok(None),
        Some(name) => Ok(Some(name.copy(alloc)?)),
    }
}

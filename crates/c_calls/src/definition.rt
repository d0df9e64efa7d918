//! The policy of a chaincode.
ghost use Rattle.std.specs.Prelude.{◌≡◌, option_map};
ghost use Rattle.std.specs.Bool.{MatchBool};
ghost use Rattle.std.specs.Option.{option_copied};
ghost use Rattle.policy.specs.Text.{text_of};
ghost use Rattle.values.specs.Name as name;
ghost use Rattle.rules.specs.Answers.{definition_answer};
ghost use Rattle.c_calls.specs.Asked.{NotFilled, TextGiven, DefinitionTold};

use crate::buffers::fill;
use crate::codes::{CLOSED, MEMORY, NO_NAME, NONE};
use c_handle::{Handle, Kept};
use policy::Policy;
use std::alloc::Global;
use values::{NameRef, is_name};

/// Tells the canonical text of a policy, if there is one.
pub(crate) fn tell_text(
    alloc: Global,
    policy: Option<&Policy>,
    text: &mut [u8],
    len: &mut usize,
) -> u32
    ensures { TextGiven (option_map text_of (option_copied policy.entry)) text.old text.new len.old len.new result }
{
    let Some(policy) = policy else {
        return NONE;
    };
    let Ok(canonical) = policy.text(alloc) else {
        return MEMORY;
    };
    fill(text, canonical.as_str().as_bytes(), len)
}

fn definition(alloc: Global, kept: &Kept, chaincode: &[u8], text: &mut [u8], len: &mut usize) -> u32
    ensures { MatchBool (name.is_name chaincode.now)
        (TextGiven (definition_answer kept.now.ledger.world chaincode.now) text.old text.new len.old len.new result)
        (NotFilled NO_NAME text.old text.new len.old len.new result) }
{
    if !is_name(chaincode) {
        return NO_NAME;
    }
    let definitions = kept.ledger.get().view().definitions();
    tell_text(alloc, definitions.of(&NameRef::new(chaincode)), text, len)
}

/// Tells the canonical text of a chaincode's policy.
pub fn fabcommit_definition(
    alloc: Global,
    handle: &mut Handle,
    chaincode: &[u8],
    text: &mut [u8],
    len: &mut usize,
) -> u32
    ensures same { handle.new.held.value ≡ handle.old.held.value }
    ensures told { DefinitionTold handle.old.held.value chaincode.now text.old text.new len.old len.new result }
{
    let Some(kept) = handle.take(alloc) else {
        return CLOSED;
    };
    let code = definition(alloc, &kept, chaincode, text, len);
    handle.put(kept);
    code
}

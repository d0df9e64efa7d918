use policy::{Definitions, Policy, PolicyFault};
use std::alloc::Global;
use values::{Name, NameRef, is_name};

// Chaincodes, each with the text of its policy. Where a policy is looked for, an empty text stands for none.
type Policies = &'static [(&'static str, &'static str)];

// A text that is no name is answered as a fault at its front.
fn name_of(alloc: Global, text: &str) -> Result<Name, PolicyFault> {
    if !is_name(text.as_bytes()) {
        return Err(PolicyFault::Syntax { at: 0 });
    }
    Ok(Name::from_slice(alloc, text.as_bytes())?)
}

fn define(
    alloc: Global,
    definitions: &mut Definitions,
    name: &str,
    text: &str,
) -> Result<(), PolicyFault> {
    let name = name_of(alloc, name)?;
    Ok(definitions.set(&name, Policy::parse(alloc, text)?)?)
}

fn define_all(
    alloc: Global,
    definitions: &mut Definitions,
    policies: Policies,
) -> Result<(), PolicyFault> {
    for &(name, text) in policies {
        define(alloc, definitions, name, text)?;
    }
    Ok(())
}

fn is_of(
    alloc: Global,
    definitions: &Definitions,
    name: &str,
    text: &str,
) -> Result<bool, PolicyFault> {
    if !is_name(name.as_bytes()) {
        return Ok(false);
    }
    match definitions.of(&NameRef::new(name.as_bytes())) {
        Some(policy) => Ok(policy.text(alloc)?.as_str() == text),
        None => Ok(text.is_empty()),
    }
}

// Whether there are so many policies, and these.
fn are_of(
    alloc: Global,
    definitions: &Definitions,
    count: usize,
    policies: Policies,
) -> Result<bool, PolicyFault> {
    for &(name, text) in policies {
        if !is_of(alloc, definitions, name, text)? {
            return Ok(false);
        }
    }
    Ok(definitions.len() == count)
}

#[derive(Clone, Copy)]
enum Change {
    Nothing,
    /// Replaces `cc`'s policy; a copy keeps those that it was made of.
    ReplaceBehindCopy,
    /// Replaces `cc`'s policy, which takes no memory.
    Replace,
    /// Adds `other`. Where memory is refused to it nothing changes, and it is added when that is asked again.
    Add,
}

fn is_copy_kept(alloc: Global, definitions: &mut Definitions) -> Result<bool, PolicyFault> {
    let kept = definitions.copy(alloc)?;
    define(alloc, definitions, "cc", "'C.peer'")?;
    are_of(alloc, &kept, 2, TWO)
}

fn is_replaced(alloc: Global, definitions: &mut Definitions) -> Result<bool, PolicyFault> {
    let name = name_of(alloc, "cc")?;
    Ok(
        definitions
            .set(&name, Policy::parse(alloc, "'C.peer'")?)
            .is_ok(),
    )
}

fn is_added(alloc: Global, definitions: &mut Definitions) -> Result<bool, PolicyFault> {
    if let Err(fault) = define(alloc, definitions, "other", "'B.peer'") {
        let is_unchanged = are_of(alloc, definitions, 1, &[("other", ""), ("cc", "'A.peer'")])?;
        define(alloc, definitions, "other", "'B.peer'")?;
        return Ok(is_unchanged && fault == PolicyFault::Memory);
    }
    Ok(true)
}

fn is_changed(
    alloc: Global,
    definitions: &mut Definitions,
    given: Policies,
    change: Change,
) -> Result<bool, PolicyFault> {
    define_all(alloc, definitions, given)?;
    match change {
        Change::Nothing => Ok(true),
        Change::ReplaceBehindCopy => is_copy_kept(alloc, definitions),
        Change::Replace => is_replaced(alloc, definitions),
        Change::Add => is_added(alloc, definitions),
    }
}

fn are_so(
    alloc: Global,
    given: Policies,
    change: Change,
    count: usize,
    found: Policies,
) -> Result<bool, PolicyFault> {
    let mut definitions = Definitions::new(alloc);
    let is_changed = is_changed(alloc, &mut definitions, given, change)?;
    Ok(is_changed && are_of(alloc, &definitions, count, found)?)
}

// What is tried, policies that are given, the change then, and how many and which policies are there in the end.
fn tried() -> &'static [(&'static str, Policies, Change, usize, Policies)] {
    &TRIED
}

const TWO: Policies = &[("cc", "'A.peer'"), ("CC", "'B.peer'")];

static TRIED: [(&str, Policies, Change, usize, Policies); 5] = [
    ("no policies", &[], Change::Nothing, 0, &[("cc", "")]),
    ("two names", TWO, Change::Nothing, 2, TWO),
    (
        "a policy that is replaced",
        TWO,
        Change::ReplaceBehindCopy,
        2,
        &[("cc", "'C.peer'"), ("CC", "'B.peer'")],
    ),
    (
        "replacing takes no memory",
        &[("cc", "'A.peer'")],
        Change::Replace,
        1,
        &[("cc", "'C.peer'")],
    ),
    (
        "refused memory changes nothing",
        &[("cc", "'A.peer'")],
        Change::Add,
        2,
        &[("cc", "'A.peer'"), ("other", "'B.peer'")],
    ),
];

// To be run with memory, too, that is refused at any one call: what prepares the change then ends the test by `?`.
#[test]
fn policies_by_name(rt: HostRuntime) -> Result<(), PolicyFault> {
    for &(name, given, change, count, found) in tried() {
        assert!(rt; are_so(rt.alloc(), given, change, count, found)?, "{name}");
    }
    Ok(())
}

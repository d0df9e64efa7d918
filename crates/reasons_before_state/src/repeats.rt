//! What stands in a list again.
ghost use Rattle.std.specs.Prelude.{◌≡◌, ◌∷◌, map, option_map, IfOk, OnOk};
ghost use Rattle.std.specs.List.{list_any};
ghost use Rattle.std.specs.Option.{option_copied};
ghost use Rattle.std.specs.Str.{bytes_eq};
ghost use Rattle.reasons.specs.Form.{first_repeated};
ghost use Rattle.reasons_before_state.specs.Labels.{HaveSameLabels};

use std::alloc::{AllocError, Global};
use std::collections::HashSet;
use transaction::Labelled;

/// Puts a label in, and tells whether it was there.
fn put<'a>(labels: &mut HashSet<&'a [u8]>, label: &'a [u8]) -> Result<bool, AllocError>
    ensures there { IfOk result (λ there. there ≡ list_any (bytes_eq label.now) (map (λ l. l.now) labels.old.keys)) }
    ensures labels { OnOk result (HaveSameLabels (label.now ∷ map (λ l. l.now) labels.old.keys) (map (λ l. l.now) labels.new.keys)) }
{
    let is_new = labels.insert(label)?;
    Ok(!is_new)
}

/// The first item whose label stands again behind it. Linear, and memory for a reference to each.
pub(crate) fn first_repeated<'a, T: Labelled>(
    alloc: Global,
    items: &'a [T],
) -> Result<Option<&'a T>, AllocError>
    ensures { IfOk result (λ found. option_map T.label (option_copied found) ≡ first_repeated (map T.label items.now)) }
{
    let mut behind = HashSet::with_capacity(alloc, items.len())?;
    let mut found = None;
    let mut i = items.len();
    while i > 0 {
        i -= 1;
        let item = &items[i];
        if put(&mut behind, item.label())? {
            found = Some(item);
        }
    }
    Ok(found)
}

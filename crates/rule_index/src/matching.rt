ghost use Rattle.std.specs.Prelude.{◌≡◌, IfOk, map};
ghost use Rattle.zm_logic.specs.View.{side_tree, binder_tree};
ghost use Rattle.rule_index.specs.Instance as instance;
ghost use Rattle.rule_index.specs.Matching as matching;
ghost use Rattle.rule_index.specs.View.{part_tree, parts_tree, some_parts, kinded_parts};

use crate::finding::find;
use crate::part::{Part, Parts};
use crate::putting::put;
use std::alloc::{AllocError, Global};
use zm_logic::{Binder, Binders, Side};

// Whether a part is of its binder's kind.
fn is_of(part: &Part, binder: &Binder) -> bool
    ensures { result ≡ matching.is_of (part_tree part.now) (binder_tree binder.now) }
{
    match (part, binder) {
        (Part::OfType(_), Binder::OfType) | (Part::OfTerm(_), Binder::OfTerm(_)) => true,
        (Part::OfType(_), Binder::OfTerm(_)) | (Part::OfTerm(_), Binder::OfType) => false,
    }
}

// What each binder stands for by its first place in the left side, or None where one is of the wrong kind.
#[tactic(auto, using(crate::proofs::BinderLists::found_start, crate::proofs::BinderLists::found_more, crate::proofs::BinderLists::found_wrong, crate::proofs::BinderLists::found_end))]
fn find_all(
    alloc: Global,
    binders: &Binders,
    left: &Side,
    place: &Side,
) -> Result<Option<Parts>, AllocError>
    ensures { IfOk result (λ m. some_parts m ≡ kinded_parts (map binder_tree binders.now) (side_tree left.now) (side_tree place.now)) }
{
    let mut all = Parts::new(alloc);
    let binders = binders.as_slice();
    for (i, binder) in binders.iter().enumerate() {
        let part = find(alloc, (binders.len() - 1 - i) as u64, left, place)?;
        if !is_of(&part, binder) {
            return Ok(None);
        }
        all.push(part)?;
    }
    Ok(Some(all))
}

fn same_side(one: &Side, other: &Side) -> bool
    ensures { result ≡ instance.same_side (side_tree one.now) (side_tree other.now) }
{
    match (one, other) {
        (Side::OfTerm(a), Side::OfTerm(b)) => a.same(b),
        (Side::OfForm(f), Side::OfForm(g)) => f.same(g),
        (Side::OfTerm(_), Side::OfForm(_)) | (Side::OfForm(_), Side::OfTerm(_)) => false,
    }
}

// Whether the left side at the parts is the place.
fn is_instance(alloc: Global, parts: &[Part], left: &Side, place: &Side) -> Result<bool, AllocError>
    ensures { IfOk result (λ b. b ≡ instance.same_side (instance.put (parts_tree parts.now) (side_tree left.now)) (side_tree place.now)) }
{
    let instance = put(alloc, parts, left)?;
    Ok(same_side(&instance, place))
}

/// The parts at which a left side is the place, or None where there are none. The one error is want of memory.
pub(crate) fn match_side(
    alloc: Global,
    binders: &Binders,
    left: &Side,
    place: &Side,
) -> Result<Option<Parts>, AllocError>
    ensures { IfOk result (λ m. some_parts m ≡ matching.match_side (map binder_tree binders.now) (side_tree left.now) (side_tree place.now)) }
{
    match find_all(alloc, binders, left, place)? {
        None => Ok(None),
        Some(parts) => {
            if is_instance(alloc, parts.as_slice(), left, place)? {
                Ok(Some(parts))
            } else {
                Ok(None)
            }
        }
    }
}

ghost use Rattle.std.specs.Prelude.{◌≡◌, ◌<◌, ◌≤◌, max, [], ◌∷◌, OnOk, IfOk, IfErr};
ghost use Rattle.zm_logic.specs.Measure.{depth};
ghost use Rattle.term_store.specs.Trees.{HasForm, Extends};
ghost use Rattle.term_store.specs.declared.opening.Redex.TheVariants.{OfForm};
ghost use Rattle.param_store.specs.RawOffers as raw;
ghost use Rattle.param_store.specs.Depth.{deepest_form, deepest_child};
ghost use Rattle.param_store.specs.Fault.{IfDeepAt};
ghost use Rattle.param_store.specs.View.{AreForms, AreLists};
ghost use Rattle.tableau_rules.specs.Split.{HasSigned, HasChild, HasSplit, signed_of, child_of, children_of};

use crate::split::{Child, Signed, Split};
use param_store::{FormLists, OfferFault, signed};
use sqlite_items::Items;
use std::alloc::{AllocError, Global};
use term_store::{FormId, FormIds, Store};

fn one(alloc: Global, form: FormId) -> Result<FormIds, AllocError>
    ensures { IfOk result (λ ids. ids ≡ form ∷ []) }
{
    let mut all = Items::new(alloc);
    all.push(form)?;
    Ok(all)
}

fn two(alloc: Global, first: FormId, second: FormId) -> Result<FormIds, AllocError>
    ensures { IfOk result (λ ids. ids ≡ first ∷ second ∷ []) }
{
    let mut all = Items::new(alloc);
    all.push(first)?;
    all.push(second)?;
    Ok(all)
}

fn only(alloc: Global, child: FormIds) -> Result<FormLists, AllocError>
    ensures { IfOk result (λ all. all ≡ child ∷ []) }
{
    let mut all = Items::new(alloc);
    all.push(child)?;
    Ok(all)
}

fn both(alloc: Global, left: FormIds, right: FormIds) -> Result<FormLists, AllocError>
    ensures { IfOk result (λ all. all ≡ left ∷ right ∷ []) }
{
    let mut all = Items::new(alloc);
    all.push(left)?;
    all.push(right)?;
    Ok(all)
}

// The one formula of a child.
fn one_signed(
    alloc: Global,
    store: &mut Store,
    x: Signed,
    acted: FormId,
) -> Result<FormIds, OfferFault>
    requires { HasSigned store.old x }
    ensures forms { IfOk result (AreForms store.new (raw.one (signed_of store.old x))) }
    ensures kept { Extends store.old store.new }
    ensures bounded { OnOk result (depth (signed_of store.old x) ≤ 2000) }
    ensures deep { IfErr result (IfDeepAt (λ at. (at ≡ OfForm acted) × (2000 < depth (signed_of store.old x)))) }
{
    let form = signed(store, x.holds, x.form, acted)?;
    Ok(one(alloc, form)?)
}

// The two formulas of a child, as a pair.
fn pair_signed(
    store: &mut Store,
    x: Signed,
    y: Signed,
    acted: FormId,
) -> Result<(FormId, FormId), OfferFault>
    requires first { HasSigned store.old x }
    requires second { HasSigned store.old y }
    ensures forms { IfOk result (λ p. AreForms store.new (raw.two (signed_of store.old x) (signed_of store.old y)) (p.0 ∷ p.1 ∷ [])) }
    ensures kept { Extends store.old store.new }
    ensures bounded { OnOk result (max (depth (signed_of store.old x)) (depth (signed_of store.old y)) ≤ 2000) }
    ensures deep { IfErr result (IfDeepAt (λ at. (at ≡ OfForm acted) × (2000 < max (depth (signed_of store.old x)) (depth (signed_of store.old y))))) }
{
    let first = signed(store, x.holds, x.form, acted)?;
    let second = signed(store, y.holds, y.form, acted)?;
    Ok((first, second))
}

// The two formulas of a child.
fn two_signed(
    alloc: Global,
    store: &mut Store,
    x: Signed,
    y: Signed,
    acted: FormId,
) -> Result<FormIds, OfferFault>
    requires first { HasSigned store.old x }
    requires second { HasSigned store.old y }
    ensures forms { IfOk result (AreForms store.new (raw.two (signed_of store.old x) (signed_of store.old y))) }
    ensures kept { Extends store.old store.new }
    ensures bounded { OnOk result (max (depth (signed_of store.old x)) (depth (signed_of store.old y)) ≤ 2000) }
    ensures deep { IfErr result (IfDeepAt (λ at. (at ≡ OfForm acted) × (2000 < max (depth (signed_of store.old x)) (depth (signed_of store.old y))))) }
{
    let (first, second) = pair_signed(store, x, y, acted)?;
    Ok(two(alloc, first, second)?)
}

// The formulas of a child of the formula acted on.
fn child(
    alloc: Global,
    store: &mut Store,
    child: Child,
    acted: FormId,
) -> Result<FormIds, OfferFault>
    requires { HasChild store.old child }
    ensures forms { IfOk result (AreForms store.new (child_of store.old child)) }
    ensures kept { Extends store.old store.new }
    ensures bounded { OnOk result (deepest_form (child_of store.old child) ≤ 2000) }
    ensures deep { IfErr result (IfDeepAt (λ at. (at ≡ OfForm acted) × (2000 < deepest_form (child_of store.old child)))) }
{
    match child {
        Child::One(x) => one_signed(alloc, store, x, acted),
        Child::Two(x, y) => two_signed(alloc, store, x, y, acted),
    }
}

// The one child of an alpha formula.
fn alpha(alloc: Global, store: &mut Store, c: Child, acted: FormId) -> Result<FormLists, OfferFault>
    requires { HasChild store.old c }
    ensures lists { IfOk result (AreLists store.new (child_of store.old c ∷ [])) }
    ensures kept { Extends store.old store.new }
    ensures bounded { OnOk result (deepest_form (child_of store.old c) ≤ 2000) }
    ensures deep { IfErr result (IfDeepAt (λ at. (at ≡ OfForm acted) × (2000 < deepest_form (child_of store.old c)))) }
{
    let formulas = child(alloc, store, c, acted)?;
    Ok(only(alloc, formulas)?)
}

// The two children of a beta formula.
fn beta(
    alloc: Global,
    store: &mut Store,
    c: Child,
    d: Child,
    acted: FormId,
) -> Result<FormLists, OfferFault>
    requires left { HasChild store.old c }
    requires right { HasChild store.old d }
    ensures lists { IfOk result (AreLists store.new (child_of store.old c ∷ child_of store.old d ∷ [])) }
    ensures kept { Extends store.old store.new }
    ensures bounded { OnOk result (max (deepest_form (child_of store.old c)) (deepest_form (child_of store.old d)) ≤ 2000) }
    ensures deep { IfErr result (IfDeepAt (λ at. (at ≡ OfForm acted) × (2000 < max (deepest_form (child_of store.old c)) (deepest_form (child_of store.old d))))) }
{
    let left = child(alloc, store, c, acted)?;
    let right = child(alloc, store, d, acted)?;
    Ok(both(alloc, left, right)?)
}

/// The children of an alpha or a beta formula, which is the formula acted on.
pub(crate) fn children(
    alloc: Global,
    store: &mut Store,
    split: Split,
    acted: FormId,
) -> Result<FormLists, OfferFault>
    requires { HasSplit store.old split }
    ensures lists { IfOk result (AreLists store.new (children_of store.old split)) }
    ensures kept { Extends store.old store.new }
    ensures bounded { OnOk result (deepest_child (children_of store.old split) ≤ 2000) }
    ensures deep { IfErr result (IfDeepAt (λ at. (at ≡ OfForm acted) × (2000 < deepest_child (children_of store.old split)))) }
{
    match split {
        Split::Alpha(c) => alpha(alloc, store, c, acted),
        Split::Beta(c, d) => beta(alloc, store, c, d, acted),
    }
}

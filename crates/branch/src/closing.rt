ghost use Rattle.std.specs.Prelude.{◌≡◌, ◌≤◌, false, List, [], ◌∷◌, ◌++◌, None, Some, OnOk, IfOk, IfSome, length, take};
ghost use Rattle.std.specs.Option.{option_map};
ghost use Rattle.zm_logic.specs.Tree as tree;
ghost use Rattle.zm_logic.specs.Same.{has, same, same_type, same_term};
ghost use Rattle.term_store.specs.Trees.{HasType, HasTerm, HasForm, type_of, term_of, form_of};
ghost use Rattle.param_store.specs.View.{forms_of, HasForms};
ghost use Rattle.branch.specs.Branch as spec;
ghost use Rattle.branch.specs.Denied as spec_denied;
ghost use Rattle.branch.specs.Earlier.{AreEarlier, CantClose};
ghost use Rattle.branch.specs.Ids.{closing_of, HasClosing};

use crate::form_set::FormSet;
use crate::node::ClosingPair;
use std::alloc::{AllocError, Global};
use term_store::{FormId, FormNode, Store, TermId, TyId};

// Whether two ids are those of one type.
fn same_ty(store: &Store, left: TyId, right: TyId) -> bool
    requires left { HasType store.now left }
    requires right { HasType store.now right }
    ensures { result ≡ same_type (type_of store.now left) (type_of store.now right) }
{
    store.shared();
    left.0 == right.0
}

// Whether two ids are those of one term.
fn same_side(store: &Store, left: TermId, right: TermId) -> bool
    requires left { HasTerm store.now left }
    requires right { HasTerm store.now right }
    ensures { result ≡ same_term (term_of store.now left) (term_of store.now right) }
{
    store.shared();
    left.0 == right.0
}

// Whether two ids are those of one formula.
fn same_form(store: &Store, left: FormId, right: FormId) -> bool
    requires left { HasForm store.now left }
    requires right { HasForm store.now right }
    ensures { result ≡ same (form_of store.now left) (form_of store.now right) }
{
    store.shared();
    left.0 == right.0
}

// Whether a formula's negation closes a branch alone.
fn denial_closes(store: &Store, form: FormId) -> bool
    requires { HasForm store.now form }
    ensures { result ≡ spec.closes_alone (tree.Form.negation (form_of store.now form)) }
{
    match store.form_node(form) {
        FormNode::True => true,
        FormNode::Equal(_, left, right) => same_side(store, *left, *right),
        FormNode::False
        | FormNode::Atom(_, _, _)
        | FormNode::Not(_)
        | FormNode::And(_, _)
        | FormNode::Or(_, _)
        | FormNode::Imp(_, _)
        | FormNode::Iff(_, _)
        | FormNode::All(_, _)
        | FormNode::Ex(_, _)
        | FormNode::AllType(_)
        | FormNode::ExType(_) => false,
    }
}

// Whether a formula closes a branch alone.
fn closes_alone(store: &Store, form: FormId) -> bool
    requires { HasForm store.now form }
    ensures { result ≡ spec.closes_alone (form_of store.now form) }
{
    match store.form_node(form) {
        FormNode::False => true,
        FormNode::Not(denied) => denial_closes(store, *denied),
        FormNode::True
        | FormNode::Atom(_, _, _)
        | FormNode::Equal(_, _, _)
        | FormNode::And(_, _)
        | FormNode::Or(_, _)
        | FormNode::Imp(_, _)
        | FormNode::Iff(_, _)
        | FormNode::All(_, _)
        | FormNode::Ex(_, _)
        | FormNode::AllType(_)
        | FormNode::ExType(_) => false,
    }
}

// The formula that a negation denies.
fn denied(store: &Store, form: FormId) -> Option<FormId>
    requires { HasForm store.now form }
    ensures value { option_map (form_of store.now) result ≡ spec_denied.denied (form_of store.now form) }
    ensures has { IfSome result (HasForm store.now) }
{
    match store.form_node(form) {
        FormNode::Not(denied) => Some(*denied),
        FormNode::True
        | FormNode::False
        | FormNode::Atom(_, _, _)
        | FormNode::Equal(_, _, _)
        | FormNode::And(_, _)
        | FormNode::Or(_, _)
        | FormNode::Imp(_, _)
        | FormNode::Iff(_, _)
        | FormNode::All(_, _)
        | FormNode::Ex(_, _)
        | FormNode::AllType(_)
        | FormNode::ExType(_) => None,
    }
}

// Whether a formula is an equality.
fn is_equality(store: &Store, form: FormId) -> bool
    requires { HasForm store.now form }
    ensures { result ≡ spec_denied.is_equation (tree.Form.negation (form_of store.now form)) }
{
    match store.form_node(form) {
        FormNode::Equal(_, _, _) => true,
        FormNode::True
        | FormNode::False
        | FormNode::Atom(_, _, _)
        | FormNode::Not(_)
        | FormNode::And(_, _)
        | FormNode::Or(_, _)
        | FormNode::Imp(_, _)
        | FormNode::Iff(_, _)
        | FormNode::All(_, _)
        | FormNode::Ex(_, _)
        | FormNode::AllType(_)
        | FormNode::ExType(_) => false,
    }
}

// Whether a formula is an equality or the negation of one.
fn is_equation(store: &Store, form: FormId) -> bool
    requires { HasForm store.now form }
    ensures { result ≡ spec_denied.is_equation (form_of store.now form) }
{
    match store.form_node(form) {
        FormNode::Equal(_, _, _) => true,
        FormNode::Not(denied) => is_equality(store, *denied),
        FormNode::True
        | FormNode::False
        | FormNode::Atom(_, _, _)
        | FormNode::And(_, _)
        | FormNode::Or(_, _)
        | FormNode::Imp(_, _)
        | FormNode::Iff(_, _)
        | FormNode::All(_, _)
        | FormNode::Ex(_, _)
        | FormNode::AllType(_)
        | FormNode::ExType(_) => false,
    }
}

// Whether the formulas are `s = t` and `t = s`.
fn are_turned(store: &Store, first: FormId, second: FormId) -> bool
    requires first { HasForm store.now first }
    requires second { HasForm store.now second }
    ensures { result ≡ spec.is_swapped (form_of store.now first) (tree.Form.negation (form_of store.now second)) }
{
    match (store.form_node(first), store.form_node(second)) {
        (FormNode::Equal(t, a, b), FormNode::Equal(u, c, d)) => {
            same_ty(store, *t, *u) && same_side(store, *a, *d) && same_side(store, *b, *c)
        }
        (_, _) => false,
    }
}

// Whether the formulas are `s = t` and `~(t = s)`.
fn is_swapped(store: &Store, first: FormId, second: FormId) -> bool
    requires first { HasForm store.now first }
    requires second { HasForm store.now second }
    ensures { result ≡ spec.is_swapped (form_of store.now first) (form_of store.now second) }
{
    match store.form_node(second) {
        FormNode::Not(denied) => are_turned(store, first, *denied),
        FormNode::True
        | FormNode::False
        | FormNode::Atom(_, _, _)
        | FormNode::Equal(_, _, _)
        | FormNode::And(_, _)
        | FormNode::Or(_, _)
        | FormNode::Imp(_, _)
        | FormNode::Iff(_, _)
        | FormNode::All(_, _)
        | FormNode::Ex(_, _)
        | FormNode::AllType(_)
        | FormNode::ExType(_) => false,
    }
}

// Whether a formula is the one that another denies.
fn is_denied(store: &Store, denied: Option<FormId>, by: FormId, form: FormId) -> bool
    requires has { IfSome denied (HasForm store.now) }
    requires known { option_map (form_of store.now) denied ≡ spec_denied.denied (form_of store.now by) }
    requires form { HasForm store.now form }
    ensures { result ≡ same (form_of store.now by) (tree.Form.negation (form_of store.now form)) }
{
    match denied {
        Some(denied) => same_form(store, denied, form),
        None => false,
    }
}

// What an earlier and a later equation close together, which aren't a formula and its negation.
fn swapped_pair(store: &Store, earlier: FormId, later: FormId) -> Option<ClosingPair>
    requires earlier { HasForm store.now earlier }
    requires later { HasForm store.now later }
    ensures value { option_map (closing_of store.now) result ≡ spec_denied.closing_swapped (form_of store.now earlier) (form_of store.now later) }
    ensures has { IfSome result (HasClosing store.now) }
{
    if is_swapped(store, earlier, later) {
        return Some(pair(earlier, later, true));
    }
    if is_swapped(store, later, earlier) {
        return Some(pair(later, earlier, true));
    }
    None
}

// Two formulas that close a branch together.
fn pair(first: FormId, second: FormId, swapped: bool) -> ClosingPair
    ensures first { result.first ≡ first }
    ensures second { result.second ≡ Some second }
    ensures swapped { result.swapped ≡ swapped }
{
    ClosingPair {
        first,
        second: Some(second),
        swapped,
    }
}

// What an earlier and a later formula close together, where it is known what the later one denies, and whether it is an
// equation.
fn closing_two(
    store: &Store,
    earlier: FormId,
    later: FormId,
    denies: Option<FormId>,
    equation: bool,
) -> Option<ClosingPair>
    requires earlier { HasForm store.now earlier }
    requires later { HasForm store.now later }
    requires has { IfSome denies (HasForm store.now) }
    requires known { option_map (form_of store.now) denies ≡ spec_denied.denied (form_of store.now later) }
    requires told { equation ≡ spec_denied.is_equation (form_of store.now later) }
    ensures value { option_map (closing_of store.now) result ≡ spec.closing_of (form_of store.now earlier) (form_of store.now later) }
    ensures has { IfSome result (HasClosing store.now) }
{
    if is_denied(store, denies, later, earlier) {
        return Some(pair(earlier, later, false));
    }
    if is_denied(store, denied(store, earlier), earlier, later) {
        return Some(pair(later, earlier, false));
    }
    if equation {
        swapped_pair(store, earlier, later)
    } else {
        None
    }
}

// What the first of the earlier formulas closes with the later one.
fn closing_with(store: &Store, earlier: &[FormId], later: FormId) -> Option<ClosingPair>
    requires earlier { HasForms store.now earlier.now }
    requires later { HasForm store.now later }
    ensures value { option_map (closing_of store.now) result ≡ spec.closing_with (forms_of store.now earlier.now) (form_of store.now later) }
    ensures has { IfSome result (HasClosing store.now) }
{
    let denies = denied(store, later);
    let equation = is_equation(store, later);
    for form in earlier {
        if let Some(pair) = closing_two(store, *form, later, denies, equation) {
            return Some(pair);
        }
    }
    None
}

// What a formula closes, behind the earlier ones.
fn closing_at(store: &Store, earlier: &[FormId], later: FormId) -> Option<ClosingPair>
    requires earlier { HasForms store.now earlier.now }
    requires later { HasForm store.now later }
    ensures value { option_map (closing_of store.now) result ≡ spec.closing_at (forms_of store.now earlier.now) (form_of store.now later) }
    ensures has { IfSome result (HasClosing store.now) }
{
    if closes_alone(store, later) {
        return Some(ClosingPair {
            first: later,
            second: None,
            swapped: false,
        });
    }
    closing_with(store, earlier, later)
}

/// What closes the branch at the places from `from` on: the least place, and for it one formula before every pair. It
/// takes no memory. The condition is that nothing closes the formulas before `from`.
pub(crate) fn closing_after(store: &Store, forms: &[FormId], from: usize) -> Option<ClosingPair>
    requires forms { HasForms store.now forms.now }
    requires from { from ≤ length forms.now }
    requires unclosed { spec.closing (forms_of store.now (take from forms.now)) ≡ None }
    ensures value { option_map (closing_of store.now) result ≡ spec.closing (forms_of store.now forms.now) }
    ensures has { IfSome result (HasClosing store.now) }
{
    for place in from..forms.len() {
        if let Some(pair) = closing_at(store, &forms[..place], forms[place]) {
            return Some(pair);
        }
    }
    None
}

// The formulas before a place, and those that they deny, each found by its id.
#[derive(Drop)]
struct Earlier {
    forms: FormSet,
    denied: FormSet,
}

// Whether what a formula denies is among others.
fn denied_stands(store: &Store, forms: &FormSet, form: FormId) -> bool
    requires forms { HasForms store.now forms.now }
    requires form { HasForm store.now form }
    ensures { (d : tree.Form) → spec_denied.denied (form_of store.now form) ≡ Some d → result ≡ has (forms_of store.now forms.now) d }
{
    match denied(store, form) {
        Some(denied) => forms.has(store, denied),
        None => false,
    }
}

// Whether a formula may close a branch with the earlier ones, or alone.
fn may_close(store: &Store, earlier: &Earlier, form: FormId) -> bool
    requires forms { HasForms store.now earlier.now.forms }
    requires denied { HasForms store.now earlier.now.denied }
    requires form { HasForm store.now form }
    ensures { result ≡ false → CantClose (forms_of store.now earlier.now.forms) (forms_of store.now earlier.now.denied) (form_of store.now form) }
{
    closes_alone(store, form)
        || is_equation(store, form)
        || earlier.denied.has(store, form)
        || denied_stands(store, &earlier.forms, form)
}

// Notes a formula as an earlier one.
fn note_earlier(store: &Store, earlier: &mut Earlier, form: FormId) -> Result<(), AllocError>
    requires forms { HasForms store.now earlier.old.forms }
    requires denied { HasForms store.now earlier.old.denied }
    requires form { HasForm store.now form }
    ensures { OnOk result ((gs : List tree.Form) → AreEarlier store.now gs earlier.old → AreEarlier store.now (gs ++ form_of store.now form ∷ []) earlier.new) }
{
    earlier.forms.add(store, form)?;
    match denied(store, form) {
        Some(denied) => earlier.denied.add(store, denied),
        None => Ok(()),
    }
}

// What a formula closes, behind the earlier ones, which are looked at one by one only where one of them may close it.
fn closing_noted(
    store: &Store,
    earlier: &[FormId],
    noted: &Earlier,
    later: FormId,
) -> Option<ClosingPair>
    requires earlier { HasForms store.now earlier.now }
    requires noted { AreEarlier store.now (forms_of store.now earlier.now) noted.now }
    requires later { HasForm store.now later }
    ensures value { option_map (closing_of store.now) result ≡ spec.closing_at (forms_of store.now earlier.now) (form_of store.now later) }
    ensures has { IfSome result (HasClosing store.now) }
{
    if may_close(store, noted, later) {
        closing_at(store, earlier, later)
    } else {
        None
    }
}

/// What closes the branch. The one error is want of memory.
pub(crate) fn closing_pair(
    alloc: Global,
    store: &Store,
    forms: &[FormId],
) -> Result<Option<ClosingPair>, AllocError>
    requires { HasForms store.now forms.now }
    ensures value { IfOk result (λ p. option_map (closing_of store.now) p ≡ spec.closing (forms_of store.now forms.now)) }
    ensures has { IfOk result (λ p. IfSome p (HasClosing store.now)) }
{
    let mut earlier = Earlier {
        forms: FormSet::new(alloc),
        denied: FormSet::new(alloc),
    };
    for place in 0..forms.len() {
        if let Some(pair) = closing_noted(store, &forms[..place], &earlier, forms[place]) {
            return Ok(Some(pair));
        }
        note_earlier(store, &mut earlier, forms[place])?;
    }
    Ok(None)
}

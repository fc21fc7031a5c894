ghost use Rattle.std.specs.Prelude.{◌≡◌, ◌+◌, IfOk};
ghost use Rattle.zm_logic.specs.View.{type_tree, term_tree, form_tree, side_tree, types_tree, terms_tree};
ghost use Rattle.rule_index.specs.Matching as matching;
ghost use Rattle.rule_index.specs.View.{part_tree};

use crate::lowering::{lower_term, lower_type};
use crate::occurrence::{form_has, term_has, terms_have, type_has, types_have};
use crate::part::Part;
use crate::results::seen_from;
use sqlite_items::Boxed;
use std::alloc::{AllocError, Global};
use zm_logic::{Form, Side, Term, Terms, Ty, Tys};

// What is answered where nothing is found. It matches nothing.
fn nothing() -> Part
    ensures { part_tree result ≡ matching.nothing }
{
    Part::OfType(Ty::Bound(0))
}

/// What stands in the second type where the first has the binder of this index. So many binders of the side are round both.
#[cycle(find_in_type)]
fn find_in_type(
    alloc: Global,
    under: u32,
    index: u64,
    ty: &Ty,
    place: &Ty,
) -> Result<Part, AllocError>
    ensures { IfOk result (λ p. part_tree p ≡ matching.find_in_type under index (type_tree ty.now) (type_tree place.now)) }
{
    match (ty, place) {
        (Ty::Bound(_), _) => Ok(Part::OfType(lower_type(alloc, place, under)?)),
        (Ty::Con(_, ts), Ty::Con(_, xs)) => find_in_types(alloc, under, index, ts, xs),
        (_, _) => Ok(nothing()),
    }
}

#[cycle(find_in_type)]
#[tactic(auto, using(crate::proofs::Finds::types_find_here, crate::proofs::Finds::types_find_later, crate::proofs::Finds::types_find_end, crate::proofs::Finds::types_find_short))]
fn find_in_types(
    alloc: Global,
    under: u32,
    index: u64,
    types: &Tys,
    places: &Tys,
) -> Result<Part, AllocError>
    ensures { IfOk result (λ p. part_tree p ≡ matching.find_in_types under index (types_tree types.now) (types_tree places.now)) }
{
    let seen = seen_from(index, under)?;
    let places = places.as_slice();
    for (i, t) in types.as_slice().iter().enumerate() {
        if i >= places.len() {
            return Ok(nothing());
        }
        if type_has(seen, t) {
            return find_in_type(alloc, under, index, t, &places[i]);
        }
    }
    Ok(nothing())
}

#[cycle(find_in_term)]
fn find_in_term(
    alloc: Global,
    under: u32,
    index: u64,
    term: &Term,
    place: &Term,
) -> Result<Part, AllocError>
    ensures { IfOk result (λ p. part_tree p ≡ matching.find_in_term under index (term_tree term.now) (term_tree place.now)) }
{
    match (term, place) {
        (Term::Bound(_), _) => Ok(Part::OfTerm(lower_term(alloc, place, under)?)),
        (Term::Eps(_, t), Term::Eps(_, x)) | (Term::Meta(_, t), Term::Meta(_, x)) => {
            find_in_type(alloc, under, index, t, x)
        }
        (Term::App(_, ts, us), Term::App(_, xs, ys)) => {
            if types_have(seen_from(index, under)?, ts) {
                find_in_types(alloc, under, index, ts, xs)
            } else {
                find_in_terms(alloc, under, index, us, ys)
            }
        }
        (_, _) => Ok(nothing()),
    }
}

#[cycle(find_in_term)]
#[tactic(auto, using(crate::proofs::Finds::terms_find_here, crate::proofs::Finds::terms_find_later, crate::proofs::Finds::terms_find_end, crate::proofs::Finds::terms_find_short))]
fn find_in_terms(
    alloc: Global,
    under: u32,
    index: u64,
    terms: &Terms,
    places: &Terms,
) -> Result<Part, AllocError>
    ensures { IfOk result (λ p. part_tree p ≡ matching.find_in_terms under index (terms_tree terms.now) (terms_tree places.now)) }
{
    let seen = seen_from(index, under)?;
    let places = places.as_slice();
    for (i, u) in terms.as_slice().iter().enumerate() {
        if i >= places.len() {
            return Ok(nothing());
        }
        if term_has(seen, u) {
            return find_in_term(alloc, under, index, u, &places[i]);
        }
    }
    Ok(nothing())
}

#[cycle(find_in_form)]
fn find_in_form(
    alloc: Global,
    under: u32,
    index: u64,
    form: &Form,
    place: &Form,
) -> Result<Part, AllocError>
    ensures { IfOk result (λ p. part_tree p ≡ matching.find_in_form under index (form_tree form.now) (form_tree place.now)) }
{
    match (form, place) {
        (Form::Atom(_, ts, us), Form::Atom(_, xs, ys)) => {
            if types_have(seen_from(index, under)?, ts) {
                return find_in_types(alloc, under, index, ts, xs);
            }
            find_in_terms(alloc, under, index, us, ys)
        }
        (Form::Equal(t, a, b), Form::Equal(x, y, z)) => {
            let seen = seen_from(index, under)?;
            if type_has(seen, t) {
                return find_in_type(alloc, under, index, t, x);
            }
            if term_has(seen, a) {
                return find_in_term(alloc, under, index, a, y);
            }
            find_in_term(alloc, under, index, b, z)
        }
        (Form::Not(f), Form::Not(x)) => find_in_form(alloc, under, index, f.get(), x.get()),
        (
            Form::And(f, g) | Form::Or(f, g) | Form::Imp(f, g) | Form::Iff(f, g),
            Form::And(x, y) | Form::Or(x, y) | Form::Imp(x, y) | Form::Iff(x, y),
        ) => {
            if form_has(seen_from(index, under)?, f.get())? {
                return find_in_form(alloc, under, index, f.get(), x.get());
            }
            find_in_form(alloc, under, index, g.get(), y.get())
        }
        (Form::All(t, f) | Form::Ex(t, f), Form::All(x, y) | Form::Ex(x, y)) => {
            if type_has(seen_from(index, under)?, t) {
                return find_in_type(alloc, under, index, t, x);
            }
            find_in_body(alloc, under, index, f, y)
        }
        (Form::AllType(f) | Form::ExType(f), Form::AllType(x) | Form::ExType(x)) => {
            find_in_body(alloc, under, index, f, x)
        }
        (_, _) => Ok(nothing()),
    }
}

#[cycle(find_in_form)]
fn find_in_body(
    alloc: Global,
    under: u32,
    index: u64,
    body: &Boxed<Form>,
    place: &Boxed<Form>,
) -> Result<Part, AllocError>
    ensures { IfOk result (λ p. part_tree p ≡ matching.find_in_form (under + 1) index (form_tree body.now) (form_tree place.now)) }
{
    match under.checked_add(1) {
        Some(inner) => find_in_form(alloc, inner, index, body.get(), place.get()),
        None => Err(AllocError),
    }
}

/// What stands in the second side where the first has the binder of this index first.
pub(crate) fn find(alloc: Global, index: u64, left: &Side, place: &Side) -> Result<Part, AllocError>
    ensures { IfOk result (λ p. part_tree p ≡ matching.find index (side_tree left.now) (side_tree place.now)) }
{
    match (left, place) {
        (Side::OfTerm(a), Side::OfTerm(x)) => find_in_term(alloc, 0, index, a, x),
        (Side::OfForm(f), Side::OfForm(x)) => find_in_form(alloc, 0, index, f, x),
        (Side::OfTerm(_), Side::OfForm(_)) | (Side::OfForm(_), Side::OfTerm(_)) => Ok(nothing()),
    }
}

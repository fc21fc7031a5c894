//! The rules of the quantifiers, at a place.

ghost use Rattle.std.specs.Option.{option_map};
ghost use Rattle.lp_terms.specs.View.{term_of};
ghost use Rattle.zm_logic.specs.View.{form_tree, type_tree, term_tree};
ghost use Rattle.zm_logic.specs.Opening.{at_term, at_type};
ghost use Rattle.lp_signature.specs.Prelude as prelude;
ghost use Rattle.lp_signature.specs.ProofTerms as by;
ghost use Rattle.sequent_proof.specs.View.{part_of};
ghost use Rattle.proof_terms.specs.Made.{Makes};
ghost use Rattle.lp_translation.specs.ViewPlace.{written, written_entered, written_term, written_type};
ghost use Rattle.lp_translation.specs.ViewRules as shapes;

use crate::place::{
    Place, form_at, instance_at, parameter_instance_at, proof_at, term_at, terms_at, type_at,
    type_instance_at, type_parameter_instance_at,
};
use crate::shapes::negated;
use lp_terms::Lp;
use proof_terms::parts::{Made, types};
use proof_terms::quantifiers::{exists_term, forall_term, not_exists_term, not_forall_term};
use sequent_proof::With;
use std::alloc::Global;
use zm_logic::{Form, Term, Ty};

// The term of exists over the terms of a type.
fn exists_terms(
    alloc: Global,
    place: &Place,
    first: &Form,
    ty: &Ty,
    body: &Form,
    with: &Term,
    r: &Lp,
) -> Made
    ensures { Makes result (by.exists_term place.now.next (shapes.proved place.now (form_tree first.now))
        (prelude.term (written_type place.now (type_tree ty.now)))
        (written_entered place.now (at_term (form_tree body.now) (term_tree with.now))) (term_of r.now)) }
{
    let h = proof_at(alloc, place, first);
    let domain = terms_at(alloc, place, ty);
    let instance = parameter_instance_at(alloc, place, body, with);
    exists_term(alloc, place.next, h, domain, instance, r)
}

// The same over the types.
fn exists_types(alloc: Global, place: &Place, first: &Form, body: &Form, with: &Ty, r: &Lp) -> Made
    ensures { Makes result (by.exists_term place.now.next (shapes.proved place.now (form_tree first.now)) prelude.types
        (written_entered place.now (at_type (form_tree body.now) (type_tree with.now))) (term_of r.now)) }
{
    let h = proof_at(alloc, place, first);
    let domain = types(alloc);
    let instance = type_parameter_instance_at(alloc, place, body, with);
    exists_term(alloc, place.next, h, domain, instance, r)
}

// The term of not-forall over the terms of a type.
fn not_forall_terms(
    alloc: Global,
    place: &Place,
    first: &Form,
    ty: &Ty,
    body: &Form,
    with: &Term,
    r: &Lp,
) -> Made
    ensures { Makes result (by.not_forall_term place.now.next (shapes.proved place.now (form_tree first.now))
        (prelude.term (written_type place.now (type_tree ty.now)))
        (written_entered place.now (at_term (form_tree body.now) (term_tree with.now))) (term_of r.now)) }
{
    let h = proof_at(alloc, place, first);
    let domain = terms_at(alloc, place, ty);
    let instance = parameter_instance_at(alloc, place, body, with);
    not_forall_term(alloc, place.next, h, domain, instance, r)
}

// The same over the types.
fn not_forall_types(
    alloc: Global,
    place: &Place,
    first: &Form,
    body: &Form,
    with: &Ty,
    r: &Lp,
) -> Made
    ensures { Makes result (by.not_forall_term place.now.next (shapes.proved place.now (form_tree first.now)) prelude.types
        (written_entered place.now (at_type (form_tree body.now) (type_tree with.now))) (term_of r.now)) }
{
    let h = proof_at(alloc, place, first);
    let domain = types(alloc);
    let instance = type_parameter_instance_at(alloc, place, body, with);
    not_forall_term(alloc, place.next, h, domain, instance, r)
}

// The term of forall over the terms of a type.
fn forall_terms(
    alloc: Global,
    place: &Place,
    first: &Form,
    body: &Form,
    with: &Term,
    r: &Lp,
) -> Made
    ensures { Makes result (by.forall_term place.now.next (shapes.proved place.now (form_tree first.now))
        (written_term place.now (term_tree with.now))
        (written place.now (at_term (form_tree body.now) (term_tree with.now))) (term_of r.now)) }
{
    let h = proof_at(alloc, place, first);
    let u = term_at(alloc, place, with);
    let instance = instance_at(alloc, place, body, with);
    forall_term(alloc, place.next, h, u, instance, r)
}

// The same over the types.
fn forall_types(alloc: Global, place: &Place, first: &Form, body: &Form, with: &Ty, r: &Lp) -> Made
    ensures { Makes result (by.forall_term place.now.next (shapes.proved place.now (form_tree first.now))
        (written_type place.now (type_tree with.now))
        (written place.now (at_type (form_tree body.now) (type_tree with.now))) (term_of r.now)) }
{
    let h = proof_at(alloc, place, first);
    let u = type_at(alloc, place, with);
    let instance = type_instance_at(alloc, place, body, with);
    forall_term(alloc, place.next, h, u, instance, r)
}

// The term of not-exists over the terms of a type.
fn not_exists_terms(
    alloc: Global,
    place: &Place,
    first: &Form,
    ty: &Ty,
    body: &Form,
    with: &Term,
    r: &Lp,
) -> Made
    ensures { Makes result (by.not_exists_term place.now.next (shapes.proved place.now (form_tree first.now))
        (prelude.term (written_type place.now (type_tree ty.now)))
        (written place.now (form_tree body.now)) (written_term place.now (term_tree with.now))
        (written place.now (at_term (form_tree body.now) (term_tree with.now))) (term_of r.now)) }
{
    let h = proof_at(alloc, place, first);
    let domain = terms_at(alloc, place, ty);
    let u = term_at(alloc, place, with);
    let instance = instance_at(alloc, place, body, with);
    let body = form_at(alloc, place, body);
    not_exists_term(alloc, place.next, h, domain, body, u, instance, r)
}

// The same over the types.
fn not_exists_types(
    alloc: Global,
    place: &Place,
    first: &Form,
    body: &Form,
    with: &Ty,
    r: &Lp,
) -> Made
    ensures { Makes result (by.not_exists_term place.now.next (shapes.proved place.now (form_tree first.now)) prelude.types
        (written place.now (form_tree body.now)) (written_type place.now (type_tree with.now))
        (written place.now (at_type (form_tree body.now) (type_tree with.now))) (term_of r.now)) }
{
    let h = proof_at(alloc, place, first);
    let domain = types(alloc);
    let u = type_at(alloc, place, with);
    let instance = type_instance_at(alloc, place, body, with);
    let body = form_at(alloc, place, body);
    not_exists_term(alloc, place.next, h, domain, body, u, instance, r)
}

/// The term of exists.
pub fn exists_rule(alloc: Global, place: &Place, first: &Form, with: &Option<With>, r: &Lp) -> Made
    ensures { let a = form_tree first.now in
        Makes result (shapes.exists_by place.now (shapes.proved place.now a) (a) (option_map part_of with.now) (term_of r.now)) }
{
    match first {
        Form::All(ty, body) | Form::Ex(ty, body) => match with {
            Some(With::OfTerm(u)) => exists_terms(alloc, place, first, ty, body.get(), u, r),
            Some(With::OfType(_)) | None => Ok(Lp::Sort),
        },
        Form::AllType(body) | Form::ExType(body) => match with {
            Some(With::OfType(u)) => exists_types(alloc, place, first, body.get(), u, r),
            Some(With::OfTerm(_)) | None => Ok(Lp::Sort),
        },
        Form::True
        | Form::False
        | Form::Atom(_, _, _)
        | Form::Equal(_, _, _)
        | Form::Not(_)
        | Form::And(_, _)
        | Form::Or(_, _)
        | Form::Imp(_, _)
        | Form::Iff(_, _) => Ok(Lp::Sort),
    }
}

/// The term of not-forall.
pub fn not_forall_rule(
    alloc: Global,
    place: &Place,
    first: &Form,
    with: &Option<With>,
    r: &Lp,
) -> Made
    ensures { let a = form_tree first.now in
        Makes result (shapes.not_forall_by place.now (shapes.proved place.now a) (shapes.negated a) (option_map part_of with.now) (term_of r.now)) }
{
    not_forall_with(alloc, place, first, negated(first), with, r)
}

// The term by the quantified formula.
fn not_forall_with(
    alloc: Global,
    place: &Place,
    first: &Form,
    quantified: &Form,
    with: &Option<With>,
    r: &Lp,
) -> Made
    ensures { Makes result (shapes.not_forall_by place.now (shapes.proved place.now (form_tree first.now)) (form_tree quantified.now) (option_map part_of with.now) (term_of r.now)) }
{
    match quantified {
        Form::All(ty, body) | Form::Ex(ty, body) => match with {
            Some(With::OfTerm(u)) => not_forall_terms(alloc, place, first, ty, body.get(), u, r),
            Some(With::OfType(_)) | None => Ok(Lp::Sort),
        },
        Form::AllType(body) | Form::ExType(body) => match with {
            Some(With::OfType(u)) => not_forall_types(alloc, place, first, body.get(), u, r),
            Some(With::OfTerm(_)) | None => Ok(Lp::Sort),
        },
        Form::True
        | Form::False
        | Form::Atom(_, _, _)
        | Form::Equal(_, _, _)
        | Form::Not(_)
        | Form::And(_, _)
        | Form::Or(_, _)
        | Form::Imp(_, _)
        | Form::Iff(_, _) => Ok(Lp::Sort),
    }
}

/// The term of forall.
pub fn forall_rule(alloc: Global, place: &Place, first: &Form, with: &Option<With>, r: &Lp) -> Made
    ensures { let a = form_tree first.now in
        Makes result (shapes.forall_by place.now (shapes.proved place.now a) (a) (option_map part_of with.now) (term_of r.now)) }
{
    match first {
        Form::All(_, body) | Form::Ex(_, body) => match with {
            Some(With::OfTerm(u)) => forall_terms(alloc, place, first, body.get(), u, r),
            Some(With::OfType(_)) | None => Ok(Lp::Sort),
        },
        Form::AllType(body) | Form::ExType(body) => match with {
            Some(With::OfType(u)) => forall_types(alloc, place, first, body.get(), u, r),
            Some(With::OfTerm(_)) | None => Ok(Lp::Sort),
        },
        Form::True
        | Form::False
        | Form::Atom(_, _, _)
        | Form::Equal(_, _, _)
        | Form::Not(_)
        | Form::And(_, _)
        | Form::Or(_, _)
        | Form::Imp(_, _)
        | Form::Iff(_, _) => Ok(Lp::Sort),
    }
}

/// The term of not-exists.
pub fn not_exists_rule(
    alloc: Global,
    place: &Place,
    first: &Form,
    with: &Option<With>,
    r: &Lp,
) -> Made
    ensures { let a = form_tree first.now in
        Makes result (shapes.not_exists_by place.now (shapes.proved place.now a) (shapes.negated a) (option_map part_of with.now) (term_of r.now)) }
{
    not_exists_with(alloc, place, first, negated(first), with, r)
}

// The term by the quantified formula.
fn not_exists_with(
    alloc: Global,
    place: &Place,
    first: &Form,
    quantified: &Form,
    with: &Option<With>,
    r: &Lp,
) -> Made
    ensures { Makes result (shapes.not_exists_by place.now (shapes.proved place.now (form_tree first.now)) (form_tree quantified.now) (option_map part_of with.now) (term_of r.now)) }
{
    match quantified {
        Form::All(ty, body) | Form::Ex(ty, body) => match with {
            Some(With::OfTerm(u)) => not_exists_terms(alloc, place, first, ty, body.get(), u, r),
            Some(With::OfType(_)) | None => Ok(Lp::Sort),
        },
        Form::AllType(body) | Form::ExType(body) => match with {
            Some(With::OfType(u)) => not_exists_types(alloc, place, first, body.get(), u, r),
            Some(With::OfTerm(_)) | None => Ok(Lp::Sort),
        },
        Form::True
        | Form::False
        | Form::Atom(_, _, _)
        | Form::Equal(_, _, _)
        | Form::Not(_)
        | Form::And(_, _)
        | Form::Or(_, _)
        | Form::Imp(_, _)
        | Form::Iff(_, _) => Ok(Lp::Sort),
    }
}

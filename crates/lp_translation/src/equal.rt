//! The rules that act on two formulas and those of equality, at a place.

ghost use Rattle.std.specs.Prelude.{◌≡◌, IfOk};
ghost use Rattle.std.specs.Option.{option_map};
ghost use Rattle.lp_terms.specs.View.{term_of};
ghost use Rattle.zm_logic.specs.View.{form_tree, type_tree, term_tree};
ghost use Rattle.lp_signature.specs.ProofTerms as by;
ghost use Rattle.proof_terms.specs.Made.{Makes};
ghost use Rattle.lp_translation.specs.ViewPlace.{written_term, written_type};
ghost use Rattle.lp_translation.specs.ViewRules as shapes;

use crate::place::{Place, proof_at, term_at, type_at};
use crate::shapes::negated;
use lp_terms::Lp;
use proof_terms::equalities::{Sides, refl_term, sym_term, trans_first_term, trans_second_term};
use proof_terms::parts::{Made, application, both};
use std::alloc::{AllocError, Global};
use zm_logic::{Form, Term, Ty};

/// The proof of the second formula.
pub fn second_proof(alloc: Global, place: &Place, second: &Option<Form>) -> Made
    ensures { Makes result (shapes.second_proved place.now (option_map form_tree second.now)) }
{
    match second {
        Some(form) => proof_at(alloc, place, form),
        None => Ok(Lp::Sort),
    }
}

/// The term of axiom.
pub fn axiom_rule(alloc: Global, place: &Place, first: &Form, second: &Option<Form>) -> Made
    ensures { Makes result
        (by.axiom_term (shapes.proved place.now (form_tree first.now)) (shapes.second_proved place.now (option_map form_tree second.now))) }
{
    let h = proof_at(alloc, place, first);
    application(alloc, second_proof(alloc, place, second), h)
}

/// The term of refl.
pub fn refl_rule(alloc: Global, place: &Place, first: &Form) -> Made
    ensures { let a = form_tree first.now in
        Makes result (shapes.reflexive_by place.now (shapes.proved place.now a) (shapes.negated a)) }
{
    refl_of(alloc, place, first, negated(first))
}

// The term by the equality.
fn refl_of(alloc: Global, place: &Place, first: &Form, equality: &Form) -> Made
    ensures { Makes result (shapes.reflexive_by place.now (shapes.proved place.now (form_tree first.now)) (form_tree equality.now)) }
{
    match equality {
        Form::Equal(ty, left, _) => refl_at(alloc, place, first, ty, left),
        Form::True
        | Form::False
        | Form::Atom(_, _, _)
        | Form::Not(_)
        | Form::And(_, _)
        | Form::Or(_, _)
        | Form::Imp(_, _)
        | Form::Iff(_, _)
        | Form::All(_, _)
        | Form::Ex(_, _)
        | Form::AllType(_)
        | Form::ExType(_) => Ok(Lp::Sort),
    }
}

// The term by the equality's type and its left side.
fn refl_at(alloc: Global, place: &Place, first: &Form, ty: &Ty, left: &Term) -> Made
    ensures { Makes result (by.refl_term (shapes.proved place.now (form_tree first.now))
        (written_type place.now (type_tree ty.now)) (written_term place.now (term_tree left.now))) }
{
    let h = proof_at(alloc, place, first);
    let a = type_at(alloc, place, ty);
    refl_term(alloc, h, a, term_at(alloc, place, left))
}

/// The term of sym.
pub fn sym_rule(alloc: Global, place: &Place, first: &Form, second: &Option<Form>) -> Made
    ensures { let a = form_tree first.now in
        Makes result (shapes.symmetric_by place.now (shapes.proved place.now a) (shapes.second_proved place.now (option_map form_tree second.now)) a) }
{
    match first {
        Form::Equal(ty, left, _) => sym_at(alloc, place, first, second, ty, left),
        Form::True
        | Form::False
        | Form::Atom(_, _, _)
        | Form::Not(_)
        | Form::And(_, _)
        | Form::Or(_, _)
        | Form::Imp(_, _)
        | Form::Iff(_, _)
        | Form::All(_, _)
        | Form::Ex(_, _)
        | Form::AllType(_)
        | Form::ExType(_) => Ok(Lp::Sort),
    }
}

// The term by the equality's type and its left side.
fn sym_at(
    alloc: Global,
    place: &Place,
    first: &Form,
    second: &Option<Form>,
    ty: &Ty,
    left: &Term,
) -> Made
    ensures { Makes result (by.sym_term (shapes.proved place.now (form_tree first.now))
        (shapes.second_proved place.now (option_map form_tree second.now))
        (written_type place.now (type_tree ty.now)) (written_term place.now (term_tree left.now))) }
{
    let (a, s) = both(type_at(alloc, place, ty), term_at(alloc, place, left))?;
    let h = proof_at(alloc, place, first);
    sym_term(alloc, h, second_proof(alloc, place, second), &a, &s)
}

// Both terms, written.
fn both_at(alloc: Global, place: &Place, left: &Term, right: &Term) -> Result<(Lp, Lp), AllocError>
    ensures left { IfOk result (λ p. term_of p.0 ≡ written_term place.now (term_tree left.now)) }
    ensures right { IfOk result (λ p. term_of p.1 ≡ written_term place.now (term_tree right.now)) }
{
    let left = term_at(alloc, place, left);
    both(left, term_at(alloc, place, right))
}

// The sides of an equality at the type and of another one, written.
fn sides_at(
    alloc: Global,
    place: &Place,
    ty: &Ty,
    equality: (&Term, &Term),
    other: (&Term, &Term),
) -> Result<Sides, AllocError>
    ensures a { IfOk result (λ p. term_of p.a ≡ written_type place.now (type_tree ty.now)) }
    ensures s { IfOk result (λ p. term_of p.s ≡ written_term place.now (term_tree equality.entry.0.now)) }
    ensures t { IfOk result (λ p. term_of p.t ≡ written_term place.now (term_tree equality.entry.1.now)) }
    ensures u { IfOk result (λ p. term_of p.u ≡ written_term place.now (term_tree other.entry.0.now)) }
    ensures v { IfOk result (λ p. term_of p.v ≡ written_term place.now (term_tree other.entry.1.now)) }
{
    let a = type_at(alloc, place, ty)?;
    let (s, t) = both_at(alloc, place, equality.0, equality.1)?;
    let (u, v) = both_at(alloc, place, other.0, other.1)?;
    Ok(Sides { a, s, t, u, v })
}

// What the second formula negates; the first one stands for a missing one.
fn second_negated<'a>(first: &'a Form, second: &'a Option<Form>) -> &'a Form
    ensures { form_tree result.now ≡ shapes.second_negated (form_tree first.entry.now) (option_map form_tree second.entry.now) }
{
    match second {
        Some(form) => negated(form),
        None => first,
    }
}

/// The term of the transitivity whose children differ u from s, and t from v.
pub fn trans_first_rule(
    alloc: Global,
    place: &Place,
    first: &Form,
    second: &Option<Form>,
    r: &Lp,
    q: &Lp,
) -> Made
    ensures { let a = form_tree first.now in let b = option_map form_tree second.now in
        Makes result (shapes.trans_first_by place.now (shapes.proved place.now a) (shapes.second_proved place.now b)
        a (shapes.second_negated a b) (term_of r.now) (term_of q.now)) }
{
    trans_first_of(
        alloc,
        place,
        first,
        second,
        second_negated(first, second),
        r,
        q,
    )
}

// The term by the type and the sides of both.
fn trans_first_at(
    alloc: Global,
    place: &Place,
    first: &Form,
    second: &Option<Form>,
    sides: (&Ty, (&Term, &Term), (&Term, &Term)),
    r: &Lp,
    q: &Lp,
) -> Made
    ensures { Makes result (by.trans_first_term place.now.next (shapes.proved place.now (form_tree first.now))
        (shapes.second_proved place.now (option_map form_tree second.now)) (written_type place.now (type_tree sides.entry.0.now))
        (written_term place.now (term_tree sides.entry.1.0.now)) (written_term place.now (term_tree sides.entry.1.1.now))
        (written_term place.now (term_tree sides.entry.2.0.now)) (written_term place.now (term_tree sides.entry.2.1.now))
        (term_of r.now) (term_of q.now)) }
{
    let sides = sides_at(alloc, place, sides.0, sides.1, sides.2)?;
    let h = proof_at(alloc, place, first);
    let k = second_proof(alloc, place, second);
    trans_first_term(alloc, place.next, h, k, &sides, r, q)
}

// The term by the equality and the one that the inequation negates.
fn trans_first_of(
    alloc: Global,
    place: &Place,
    first: &Form,
    second: &Option<Form>,
    other: &Form,
    r: &Lp,
    q: &Lp,
) -> Made
    ensures { Makes result (shapes.trans_first_by place.now (shapes.proved place.now (form_tree first.now))
        (shapes.second_proved place.now (option_map form_tree second.now)) (form_tree first.now) (form_tree other.now)
        (term_of r.now) (term_of q.now)) }
{
    match first {
        Form::Equal(ty, s, t) => match other {
            Form::Equal(_, u, v) => {
                trans_first_at(alloc, place, first, second, (ty, (s, t), (u, v)), r, q)
            }
            Form::True
            | Form::False
            | Form::Atom(_, _, _)
            | Form::Not(_)
            | Form::And(_, _)
            | Form::Or(_, _)
            | Form::Imp(_, _)
            | Form::Iff(_, _)
            | Form::All(_, _)
            | Form::Ex(_, _)
            | Form::AllType(_)
            | Form::ExType(_) => Ok(Lp::Sort),
        },
        Form::True
        | Form::False
        | Form::Atom(_, _, _)
        | Form::Not(_)
        | Form::And(_, _)
        | Form::Or(_, _)
        | Form::Imp(_, _)
        | Form::Iff(_, _)
        | Form::All(_, _)
        | Form::Ex(_, _)
        | Form::AllType(_)
        | Form::ExType(_) => Ok(Lp::Sort),
    }
}

/// The term of the transitivity whose children differ u from t, and s from v.
pub fn trans_second_rule(
    alloc: Global,
    place: &Place,
    first: &Form,
    second: &Option<Form>,
    r: &Lp,
    q: &Lp,
) -> Made
    ensures { let a = form_tree first.now in let b = option_map form_tree second.now in
        Makes result (shapes.trans_second_by place.now (shapes.proved place.now a) (shapes.second_proved place.now b)
        a (shapes.second_negated a b) (term_of r.now) (term_of q.now)) }
{
    trans_second_of(
        alloc,
        place,
        first,
        second,
        second_negated(first, second),
        r,
        q,
    )
}

// The term by the type and the sides of both.
fn trans_second_at(
    alloc: Global,
    place: &Place,
    first: &Form,
    second: &Option<Form>,
    sides: (&Ty, (&Term, &Term), (&Term, &Term)),
    r: &Lp,
    q: &Lp,
) -> Made
    ensures { Makes result (by.trans_second_term place.now.next (shapes.proved place.now (form_tree first.now))
        (shapes.second_proved place.now (option_map form_tree second.now)) (written_type place.now (type_tree sides.entry.0.now))
        (written_term place.now (term_tree sides.entry.1.0.now)) (written_term place.now (term_tree sides.entry.1.1.now))
        (written_term place.now (term_tree sides.entry.2.0.now)) (written_term place.now (term_tree sides.entry.2.1.now))
        (term_of r.now) (term_of q.now)) }
{
    let sides = sides_at(alloc, place, sides.0, sides.1, sides.2)?;
    let h = proof_at(alloc, place, first);
    let k = second_proof(alloc, place, second);
    trans_second_term(alloc, place.next, h, k, &sides, r, q)
}

// The term by the equality and the one that the inequation negates.
fn trans_second_of(
    alloc: Global,
    place: &Place,
    first: &Form,
    second: &Option<Form>,
    other: &Form,
    r: &Lp,
    q: &Lp,
) -> Made
    ensures { Makes result (shapes.trans_second_by place.now (shapes.proved place.now (form_tree first.now))
        (shapes.second_proved place.now (option_map form_tree second.now)) (form_tree first.now) (form_tree other.now)
        (term_of r.now) (term_of q.now)) }
{
    match first {
        Form::Equal(ty, s, t) => match other {
            Form::Equal(_, u, v) => {
                trans_second_at(alloc, place, first, second, (ty, (s, t), (u, v)), r, q)
            }
            Form::True
            | Form::False
            | Form::Atom(_, _, _)
            | Form::Not(_)
            | Form::And(_, _)
            | Form::Or(_, _)
            | Form::Imp(_, _)
            | Form::Iff(_, _)
            | Form::All(_, _)
            | Form::Ex(_, _)
            | Form::AllType(_)
            | Form::ExType(_) => Ok(Lp::Sort),
        },
        Form::True
        | Form::False
        | Form::Atom(_, _, _)
        | Form::Not(_)
        | Form::And(_, _)
        | Form::Or(_, _)
        | Form::Imp(_, _)
        | Form::Iff(_, _)
        | Form::All(_, _)
        | Form::Ex(_, _)
        | Form::AllType(_)
        | Form::ExType(_) => Ok(Lp::Sort),
    }
}

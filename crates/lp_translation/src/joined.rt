//! The rules that act on one formula, which a connective joins or a negation begins, at a place.

ghost use Rattle.std.specs.Prelude.{◌≡◌, IfOk};
ghost use Rattle.lp_terms.specs.View.{term_of};
ghost use Rattle.zm_logic.specs.View.{form_tree};
ghost use Rattle.proof_terms.specs.Made.{Makes};
ghost use Rattle.lp_signature.specs.ProofTerms as by;
ghost use Rattle.lp_translation.specs.ViewPlace.{written};
ghost use Rattle.lp_translation.specs.ViewRules as shapes;

use crate::place::{Place, form_at, proof_at};
use crate::shapes::{left_of, negated, right_of};
use lp_terms::Lp;
use proof_terms::connectives;
use proof_terms::equivalences::{iff_term, not_iff_term};
use proof_terms::parts::{Made, both};
use std::alloc::{AllocError, Global};
use zm_logic::Form;

// The sides of the formula that a connective joins.
fn sides_at(alloc: Global, place: &Place, joined: &Form) -> Result<(Lp, Lp), AllocError>
    ensures left { IfOk result (λ p. term_of p.0 ≡ written place.now (shapes.left_of (form_tree joined.now))) }
    ensures right { IfOk result (λ p. term_of p.1 ≡ written place.now (shapes.right_of (form_tree joined.now))) }
{
    let left = form_at(alloc, place, left_of(joined));
    both(left, form_at(alloc, place, right_of(joined)))
}

/// The term of not-true.
pub fn not_true_rule(alloc: Global, place: &Place, first: &Form) -> Made
    ensures { Makes result (by.not_true_term (shapes.proved place.now (form_tree first.now))) }
{
    connectives::not_true_term(alloc, proof_at(alloc, place, first))
}

/// The term of not-not.
pub fn not_not_rule(alloc: Global, place: &Place, first: &Form, r: &Lp) -> Made
    ensures { let a = form_tree first.now in
        Makes result (by.not_not_term place.now.next (shapes.proved place.now a) (written place.now (shapes.negated (shapes.negated a))) (term_of r.now)) }
{
    let a = form_at(alloc, place, negated(negated(first)))?;
    let h = proof_at(alloc, place, first);
    connectives::not_not_term(alloc, place.next, h, &a, r)
}

/// The term of and.
pub fn and_rule(alloc: Global, place: &Place, first: &Form, r: &Lp) -> Made
    ensures { let a = form_tree first.now in
        Makes result (by.and_term place.now.next (shapes.proved place.now a)
        (written place.now (shapes.left_of a)) (written place.now (shapes.right_of a)) (term_of r.now)) }
{
    let (a, b) = sides_at(alloc, place, first)?;
    let h = proof_at(alloc, place, first);
    connectives::and_term(alloc, place.next, h, &a, &b, r)
}

/// The term of not-or.
pub fn not_or_rule(alloc: Global, place: &Place, first: &Form, r: &Lp) -> Made
    ensures { let a = form_tree first.now in let f = shapes.negated a in
        Makes result (by.not_or_term place.now.next (shapes.proved place.now a)
        (written place.now (shapes.left_of f)) (written place.now (shapes.right_of f)) (term_of r.now)) }
{
    let (a, b) = sides_at(alloc, place, negated(first))?;
    let h = proof_at(alloc, place, first);
    connectives::not_or_term(alloc, place.next, h, &a, &b, r)
}

/// The term of not-implies.
pub fn not_imp_rule(alloc: Global, place: &Place, first: &Form, r: &Lp) -> Made
    ensures { let a = form_tree first.now in let f = shapes.negated a in
        Makes result (by.not_imp_term place.now.next (shapes.proved place.now a)
        (written place.now (shapes.left_of f)) (written place.now (shapes.right_of f)) (term_of r.now)) }
{
    let (a, b) = sides_at(alloc, place, negated(first))?;
    let h = proof_at(alloc, place, first);
    connectives::not_imp_term(alloc, place.next, h, &a, &b, r)
}

/// The term of or.
pub fn or_rule(alloc: Global, place: &Place, first: &Form, r: &Lp, s: &Lp) -> Made
    ensures { let a = form_tree first.now in
        Makes result (by.or_term place.now.next (shapes.proved place.now a)
        (written place.now (shapes.left_of a)) (written place.now (shapes.right_of a)) (term_of r.now) (term_of s.now)) }
{
    let (a, b) = sides_at(alloc, place, first)?;
    let h = proof_at(alloc, place, first);
    connectives::or_term(alloc, place.next, h, &a, &b, r, s)
}

/// The term of not-and.
pub fn not_and_rule(alloc: Global, place: &Place, first: &Form, r: &Lp, s: &Lp) -> Made
    ensures { let a = form_tree first.now in let f = shapes.negated a in
        Makes result (by.not_and_term place.now.next (shapes.proved place.now a)
        (written place.now (shapes.left_of f)) (written place.now (shapes.right_of f)) (term_of r.now) (term_of s.now)) }
{
    let (a, b) = sides_at(alloc, place, negated(first))?;
    let h = proof_at(alloc, place, first);
    connectives::not_and_term(alloc, place.next, h, &a, &b, r, s)
}

/// The term of implies.
pub fn imp_rule(alloc: Global, place: &Place, first: &Form, r: &Lp, s: &Lp) -> Made
    ensures { let a = form_tree first.now in
        Makes result (by.imp_term place.now.next (shapes.proved place.now a)
        (written place.now (shapes.left_of a)) (written place.now (shapes.right_of a)) (term_of r.now) (term_of s.now)) }
{
    let (a, b) = sides_at(alloc, place, first)?;
    let h = proof_at(alloc, place, first);
    connectives::imp_term(alloc, place.next, h, &a, &b, r, s)
}

/// The term of iff.
pub fn iff_rule(alloc: Global, place: &Place, first: &Form, r: &Lp, s: &Lp) -> Made
    ensures { let a = form_tree first.now in
        Makes result (by.iff_term place.now.next (shapes.proved place.now a)
        (written place.now (shapes.left_of a)) (written place.now (shapes.right_of a)) (term_of r.now) (term_of s.now)) }
{
    let (a, b) = sides_at(alloc, place, first)?;
    let h = proof_at(alloc, place, first);
    iff_term(alloc, place.next, h, &a, &b, r, s)
}

/// The term of not-iff.
pub fn not_iff_rule(alloc: Global, place: &Place, first: &Form, r: &Lp, s: &Lp) -> Made
    ensures { let a = form_tree first.now in let f = shapes.negated a in
        Makes result (by.not_iff_term place.now.next (shapes.proved place.now a)
        (written place.now (shapes.left_of f)) (written place.now (shapes.right_of f)) (term_of r.now) (term_of s.now)) }
{
    let (a, b) = sides_at(alloc, place, negated(first))?;
    let h = proof_at(alloc, place, first);
    not_iff_term(alloc, place.next, h, &a, &b, r, s)
}
